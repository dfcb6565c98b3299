//! Why operations aren't a set of logs.

ghost use Rattle.std.specs.Prelude.{◌≡◌};
ghost use Rattle.tardis_c.specs.declared.operations_fault.OperationsFault.TheVariants.{OutOfMemory};

use std::alloc::AllocError;

/// Why operations aren't a set of logs.
#[derive(Clone, Copy)]
pub enum OperationsFault {
    /// A growth was refused.
    OutOfMemory,
    /// A core has too many operations.
    TooMany {
        /// The core.
        core: usize,
    },
    /// An operation has a number out of range.
    OutOfRange {
        /// Its core.
        core: usize,
        /// Its index in its core's part.
        index: usize,
    },
}

impl From<AllocError> for OperationsFault {
    ghost from_gives = { λ _ fault. fault ≡ OutOfMemory };

    fn from(_: AllocError) -> OperationsFault {
        OperationsFault::OutOfMemory
    }
}
