//! The words of an explanation, of a refutation, and of a file that was refused.
#![tactic(auto)]

mod arguments;
mod certificates;
mod certified_orders;
mod explanations;
mod failed_sets;
mod failed_steps;
mod findings;
mod logs;
mod names;
mod programs;
mod refusals;
mod shown;
mod slips;
mod step_lines;
mod traces;

pub use arguments::{count_of, push_argument, tell};
pub use explanations::print;
pub use findings::first_sentence;
pub use refusals::{Kind, Place, Refused, Telling};
