//! Numbers in decimal, as the texts of Brickarnica have them: `0`, or digits of which the first isn't 0, of any length.
#![tactic(auto)]

mod number;
mod print;
mod read;

pub use print::print_number;
pub use read::{after_text, read_field, read_last, read_number};
