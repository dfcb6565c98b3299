//! Rows: their text, which spells files, calls and what has to come of each, and the folder in memory that a call works on.
#![tactic(auto)]

mod fault;
mod file;
mod folder;
mod lines;
mod row;
mod wanted;
mod words;

pub use fault::RowFault;
pub use file::{File, find};
pub use folder::{Given, MemoryFolder};
pub use lines::{Line, read};
pub use row::Row;
pub use wanted::Wanted;
pub use words::{calls_of, words_of};
