//! The check of reads against stores, address by address.
#![tactic(auto)]

mod addresses;
mod by_place;
mod fault;
mod gate;
mod group;
mod index;
mod local_check;
mod span;
mod workers;

pub use fault::{AddressFault, AddressRule};
pub use gate::{Gate, Phase};
pub use group::{broken_by, group_fault, is_store};
pub use index::AddressIndex;
pub use local_check::{LocalCheck, lesser_fault};
pub use span::AddrSpan;
pub use workers::fault_by_workers;
