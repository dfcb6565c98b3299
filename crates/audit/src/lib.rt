//! The audit of a run: whether the transcripts of its cores and the histories of its slices agree, and have one
//! order of all their entries.
#![tactic(auto)]

mod accepting;
mod auditing;
mod fault;
mod fronts;
pub mod laws;
mod lists;
mod machine_fault;
mod merging;
mod pairs;
mod threads_fault;

pub use accepting::accept_run;
pub use auditing::audit;
pub use fault::AuditFault;
pub use machine_fault::{Cause, MachineFault, RunEnd};
pub use threads_fault::ThreadsFault;
