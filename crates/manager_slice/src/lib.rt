//! The manager slices: they follow the second table of the protocol exactly, and each keeps a history.
#![tactic(auto)]

mod fault;
pub mod laws;
mod lines;
mod managed;
mod opening;
mod row;
mod slice;
mod state;

pub use fault::SliceFault;
pub use lines::ServedLines;
pub use managed::{HistoryEntry, ManagedLine};
pub use opening::new_slices;
pub use slice::ManagerSlice;
pub use state::SliceState;
