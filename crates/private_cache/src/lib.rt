//! The private cache of a core: its lines in order of use, and how each operation, eviction, recall
//! and reply changes them.
#![tactic(auto)]

mod answer;
mod cache;
mod fault;
mod held;

pub use answer::{Evicted, Read, Store};
pub use cache::PrivateCache;
pub use fault::FillFault;
pub use held::Held;
