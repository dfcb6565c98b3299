//! Rounds: they perform a core's operations one after another, each by the events that are due.

mod draw;
mod fault;
mod hand;
mod ops;
mod stages;

pub use draw::pick;
pub use fault::{RoundCause, RoundFault};
pub use hand::has_next;
pub use ops::{MAX_ROUNDS_PER_OPERATION, finish, op, round};
