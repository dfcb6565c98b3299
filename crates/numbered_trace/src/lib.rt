//! What every search for an order stands on: a trace whose addresses and words are numbered, clocks, and a budget of steps.
#![tactic(auto)]

mod budget;
mod classes;
mod clocks;
mod core_set;
mod operations;
mod stop;

pub use budget::{Budget, SearchWatch, Unwatched};
pub use classes::{Classes, number};
pub use clocks::Clocks;
pub use core_set::CoreSet;
pub use operations::{Operation, Operations, id};
pub use stop::{Conflict, NONE, Place, START, Stop, Tried, at, part, put, short};
