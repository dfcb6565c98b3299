//! The records of a core's log, and the line of text of each.
#![tactic(auto)]

mod act;
mod end;
mod fault;
mod format;
mod header;
mod laws;
mod line;
mod reading;
mod record;
mod source_numbers;

pub use act::{Act, PackedAct};
pub use end::{End, print_end, read_end};
pub use fault::LineFault;
pub use format::Format;
pub use header::{Header, print_header, read_header};
pub use laws::{no_line_is_anothers, no_record_is_long, one_record_a_line};
pub use line::{print_line, read_line};
pub use record::{Entry, Record};
pub use source_numbers::{source_number, store_number};
