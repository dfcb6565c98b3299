//! What cores did to memory, without times: traces.
#![tactic(auto)]

mod fault;
mod laws;
mod line;
mod numeral;
mod parsing;
mod reader;
mod refusal;
mod trace;
mod written;

pub use fault::TraceFault;
pub use flat_replay::{Access, Address, replays};
pub use laws::{one_fault, spelled_is_read, spells_one};
pub use line::TraceLine;
pub use parsing::parse_line;
pub use reader::{TraceReader, without_return};
pub use refusal::TraceFull;
pub use trace::Trace;
