//! What follows from the words that operations read: what is before what, or that there is no order. Nothing is promised of it.
#![tactic(auto)]

mod chains;
mod explanation;
mod facts;
mod knowledge;
mod proof;
mod rules;
mod saturation;
mod shrinking;
mod stores;

pub use facts::{Fact, Facts};
pub use knowledge::Knowledge;
pub use proof::{Derived, Line, Rule};
pub use shrinking::shrink;
