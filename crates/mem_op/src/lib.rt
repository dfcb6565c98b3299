//! Addresses, cores, words and operations: what everything else speaks of, and the names of all faults.
#![tactic(auto)]

mod addr;
mod core_id;
mod fault;
mod fault_name;
mod id;
mod op_index;

pub use addr::Addr;
pub use core_id::CoreId;
pub use fault::RangeFault;
pub use fault_name::FaultName;
pub use id::{Op, OpId, Source, Word};
pub use op_index::OpIndex;
