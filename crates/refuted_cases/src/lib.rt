//! The cases of a refutation: what is known at each of its steps, where the cores stand in a state, and how points and addresses are named.
#![tactic(auto)]

mod names;
mod naming;
mod standing;
mod walk;

pub use names::{Name, Names, NamesFault};
pub use naming::{Givers, Named};
pub use standing::{Course, Stand, awaited, stands};
pub use walk::{Hop, Link, Walk, closes, hops, link_at, round};
