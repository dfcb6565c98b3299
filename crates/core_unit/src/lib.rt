//! A core of the machine: its program, its private cache and the message in hand. Its transcript
//! leads to its state.
#![tactic(auto)]

mod entry;
mod fault;
mod give;
mod increment;
pub mod laws;
mod message;
mod operation;
mod outcome;
mod take;
mod transcript;
mod turn;
mod unit;

pub use entry::CoreEntry;
pub use fault::UnitFault;
pub use outcome::Outcome;
pub use transcript::Transcript;
pub use unit::CoreUnit;
