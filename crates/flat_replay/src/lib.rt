//! Operations without times, one memory on which they are performed, and whether an order of their ids replays on it.
#![tactic(auto)]

mod access;
mod memory;
mod replay;

pub use access::{Access, Address};
pub use memory::Memory;
pub use replay::{first_wrong_place, operation_at, replays};
