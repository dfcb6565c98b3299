//! The cost of a run, in numbers: the counts of each core's transcript and of each slice's history, and their text.
#![tactic(auto)]

mod column;
pub mod laws;
mod numbers;
mod run_counts;
mod sight;
mod table_text;

pub use numbers::Numbers;
pub use run_counts::RunCounts;
pub use table_text::{print_statistics, print_totals};
