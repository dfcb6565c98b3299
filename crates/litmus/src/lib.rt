//! Litmus tests: their text, their runs by the rounds of a seed or by threads, each judged, and the tables of their outcomes.
#![tactic(auto)]

mod collecting;
mod ended;
mod ending;
mod header;
mod judging;
mod litmus_fault;
mod parsing;
mod run_cause;
mod run_fault;
mod seeded;
mod table;
mod table_text;
mod tally;
mod test;
mod threaded;
mod words;

pub use collecting::Collected;
pub use litmus_fault::LitmusFault;
pub use run_cause::RunCause;
pub use run_fault::CollectFault;
pub use seeded::collect_seeded;
pub use table::{Row, Table};
pub use table_text::write_table;
pub use test::{Litmus, Shown};
pub use threaded::collect_threaded;
