//! The slices that threads share, each under a lock of its own, and the ports by which a core's messages reach them.
#![tactic(auto)]

mod bank;
mod local;
mod port;
mod slices;

pub use bank::{BankPort, SliceBank};
pub use local::LocalPort;
pub use port::Port;
