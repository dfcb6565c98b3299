//! The verdict on a set of logs.
#![tactic(auto)]

mod accesses;
mod answer;
mod basis;
mod cores;
mod counts;
mod examine_set;
mod examining;
mod fault;
mod judge_fault;
mod judging;
mod laws;
mod open_gate;
mod replay;
mod reporting;
mod rule;
mod run_judging;

pub use accesses::accesses_of;
pub use address_check::{Gate, Phase};
pub use answer::Verdict;
pub use basis::{Basis, Examined};
pub use counts::check_counts;
pub use examining::examine;
pub use fault::Fault;
pub use judge_fault::{Count, JudgeFault};
pub use judging::judge;
pub use laws::{key_order_is_sequential, texts_have_one_answer, yes_is_consistent};
pub use log_file::LogSet;
pub use open_gate::OpenGate;
pub use replay::replay_order;
pub use reporting::report;
pub use rule::Rule;
pub use run_judging::judge_run;
