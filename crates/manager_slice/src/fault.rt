//! Why a slice refuses a call.

ghost use Rattle.std.specs.Prelude.{◌≡◌};
ghost use Rattle.manager_slice.specs.declared.fault.SliceFault.TheVariants.{OutOfMemory};

use mem_op::FaultName;
use std::alloc::AllocError;
use std::fmt;
use std::fmt::Display;
use thiserror::Error;

/// Why a slice refuses a call.
#[derive(Clone, Copy, Debug, PartialEq, Eq, Error)]
pub enum SliceFault {
    /// A core gives a line back and isn't its owner.
    NotOwner,
    /// The reply would carry a stamp above 281,474,976,710,656, which is 2^48.
    StampLimit,
    /// The history would have more than 1,048,576 entries.
    HistoryFull,
    /// The host refused memory.
    OutOfMemory,
}

impl Display for SliceFault {
    ghost use Rattle.std.specs.Prelude.{Some};
    ghost use Rattle.manager_slice.specs.Faults.{fault_text};

    ghost output = { λ fault. Some (fault_text fault) };

    fn fmt<W: fmt::Write>(&self, f: &mut fmt::Formatter<W>) -> fmt::Result {
        let name = match self {
            SliceFault::NotOwner => FaultName::NotOwner,
            SliceFault::StampLimit => FaultName::StampLimit,
            SliceFault::HistoryFull => FaultName::HistoryFull,
            SliceFault::OutOfMemory => FaultName::OutOfMemory,
        };
        name.fmt(f)
    }
}

impl From<AllocError> for SliceFault {
    ghost from_gives = { λ _ fault. fault ≡ OutOfMemory };

    fn from(_refused: AllocError) -> SliceFault {
        SliceFault::OutOfMemory
    }
}
