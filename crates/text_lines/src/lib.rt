//! Texts of one item a line: the first line, its words, and how to read a text line by line.
#![tactic(auto)]

mod lines;
mod words;

pub use lines::next_line;
pub use words::{ends_word, read_spaced};
