//! Why a text isn't rows.

use std::alloc::{AllocError, AllocFailed};

/// Why a text isn't rows.
#[derive(Clone, Copy, Debug, PartialEq, Eq)]
pub enum RowFault {
    /// A line isn't a line of rows, or doesn't fit where it stands.
    BadLine,
    /// Memory was refused.
    OutOfMemory,
}

impl<T: Drop> From<AllocFailed<T>> for RowFault {
    fn from(_: AllocFailed<T>) -> RowFault {
        RowFault::OutOfMemory
    }
}

impl From<AllocError> for RowFault {
    fn from(_: AllocError) -> RowFault {
        RowFault::OutOfMemory
    }
}
