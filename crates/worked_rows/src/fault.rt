//! Why rows can't be replayed.

use rows::RowFault;
use std::alloc::{AllocError, AllocFailed};
use std::io;

/// Why rows can't be replayed.
#[derive(Clone, Copy, Debug, PartialEq, Eq)]
pub(crate) enum RowsFault {
    /// A line isn't a line of rows, or doesn't fit where it stands.
    BadLine,
    /// A file can't be read, or a line of this program can't be written.
    Device,
    /// A text isn't UTF-8.
    NotText,
    /// There is no memory.
    OutOfMemory,
    /// Some call did something else than its row says.
    Wrong,
}

impl From<RowFault> for RowsFault {
    fn from(fault: RowFault) -> RowsFault {
        match fault {
            RowFault::BadLine => RowsFault::BadLine,
            RowFault::OutOfMemory => RowsFault::OutOfMemory,
        }
    }
}

impl<T: Drop> From<AllocFailed<T>> for RowsFault {
    fn from(_failed: AllocFailed<T>) -> RowsFault {
        RowsFault::OutOfMemory
    }
}

impl From<AllocError> for RowsFault {
    fn from(_error: AllocError) -> RowsFault {
        RowsFault::OutOfMemory
    }
}

impl From<io::Error> for RowsFault {
    fn from(_error: io::Error) -> RowsFault {
        RowsFault::Device
    }
}

/// The text of bytes.
pub(crate) fn text_of(bytes: Vec<u8>) -> Result<String, RowsFault> {
    match String::from_utf8(bytes) {
        Ok(text) => Ok(text),
        Err(_) => Err(RowsFault::NotText),
    }
}
