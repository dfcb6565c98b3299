//! The core machine: its events, and how each of them changes cores and slices. This crate has only its definitions, and the reasons
//! why an event is refused. The laws of the machine use these, and the crate that runs it uses both.
#![tactic(auto)]

mod event;
mod fault;

pub use event::Event;
pub use fault::CoreFault;
