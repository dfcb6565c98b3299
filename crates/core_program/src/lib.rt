//! Core programs: what they say, and what they do.
#![tactic(auto)]

mod fault;
mod format;
mod instruction;
mod instruction_line;
mod laws;
mod program;
mod program_set;
mod program_text;
mod register;
mod section;
mod sections;
mod set_text;
mod skip;
mod state;
mod text_laws;

pub use fault::ProgramFault;
pub use format::ProgramFormat;
pub use instruction::Instruction;
pub use laws::{
    conforming_is_no_fault, fault_is_where_log_differs, few_operations, no_swaps_in_format_one,
    runs_are_paths,
};
pub use program::Program;
pub use program_set::ProgramSet;
pub use program_text::print_instruction;
pub use register::Register;
pub use sections::{Sections, read_sections};
pub use skip::Skip;
pub use state::ProgramState;
pub use text_laws::{one_fault, printed_is_read, spelled_set_is_read};
