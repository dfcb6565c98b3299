//! The machine: each core a thread that owns its unit, each slice under a lock of its own.
#![tactic(auto)]

mod core_thread;
mod ends;
mod gate;
mod pace;
mod running;

pub use audit::{AuditFault, Cause, MachineFault, RunEnd, ThreadsFault, audit};
pub use pace::{Go, Pace};
pub use running::run_threads;
