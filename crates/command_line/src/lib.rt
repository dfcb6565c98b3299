//! The command line of the program: what its words ask for.
#![tactic(auto)]

mod apart;
mod argument;
mod explaining;
mod grammar;
mod log_names;
mod misuse;
mod request;
mod subcommand;
mod words;

pub use misuse::Misuse;
pub use request::{
    Check, Confirm, Explain, FileKind, Inspect, Limits, LitmusRuns, Order, Replay, Request, Run,
    Search, Sim, TraceFiles, Upgrade,
};
pub use words::read;
