//! The laws of the core machine: over every list of events, its stamps and versions hold, and so the logs that it has made get Yes.
#![tactic(auto)]

pub mod examples;
pub mod invariants;
pub mod refusals;
pub mod verdicts;
