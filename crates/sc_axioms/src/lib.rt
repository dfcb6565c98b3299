//! The field's axiomatic definition of sequential consistency, and the law that it says the same as the definition by an order.
#![tactic(auto)]

mod arrows;
mod laws;

pub use arrows::has_arrow;
pub use laws::definitions_agree;
