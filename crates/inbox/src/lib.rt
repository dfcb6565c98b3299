//! The inbox of a core: a bounded queue of the recalls that threads have offered to it.
#![tactic(auto)]

mod recalls;

pub use recalls::Inbox;
