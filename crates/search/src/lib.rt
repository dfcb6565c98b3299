//! The search for an order of a trace's operations, or for a refutation.
#![tactic(auto)]

mod closing;
mod finding;
mod numbering;
mod searching;
mod states;

pub use numbered_trace::{SearchWatch, Unwatched};
pub use searching::{search, search_watched};
