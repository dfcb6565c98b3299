//! The memory below a slice: its words, and the memory stamp with which it fills lines.
#![tactic(auto)]

mod memory;
mod words;

pub use memory::MemorySlice;
pub use words::{StoredWord, Words};
