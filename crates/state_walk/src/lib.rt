//! A walk over the states of a trace: how far each core is, and what memory holds. Each state is visited once.
#![tactic(auto)]

mod closed;
mod dead;
mod groups;
mod harm;
mod outlook;
mod state;
mod touches;
mod tree;
mod visited;
mod walk;

pub use closed::{ClosedSet, Precedence, Reached};
pub use groups::groups_of;
pub use walk::Walk;
