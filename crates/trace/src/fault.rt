//! Why bytes aren't a trace.

ghost use Rattle.std.specs.Prelude.{◌≡◌};
ghost use Rattle.trace.specs.declared.fault.TraceFault.TheVariants.{OutOfMemory};

use mem_op::FaultName;
use std::alloc::{AllocError, AllocFailed};
use std::fmt;
use std::fmt::Display;
use thiserror::Error;

/// Why bytes aren't a trace. Lines are counted from 1.
#[derive(Clone, Copy, Debug, PartialEq, Eq, Error)]
pub enum TraceFault {
    /// This line is the first that isn't a line of a trace.
    BadTraceLine { line: u64 },
    /// This line is the 1,048,577th operation of its core.
    TooMany { line: u64 },
    /// A growth was refused.
    OutOfMemory,
}

impl Display for TraceFault {
    ghost use Rattle.std.specs.Prelude.{Some};
    ghost use Rattle.trace.specs.FaultTexts.{fault_text};

    ghost output = { λ fault. Some (fault_text fault) };

    fn fmt<W: fmt::Write>(&self, f: &mut fmt::Formatter<W>) -> fmt::Result {
        match self {
            TraceFault::BadTraceLine { line } => write!(
                f,
                "line {line}: {}",
                FaultName::BadTraceLine
            ),
            TraceFault::TooMany { line } => write!(f, "line {line}: {}", FaultName::TooMany),
            TraceFault::OutOfMemory => write!(f, "{}", FaultName::OutOfMemory),
        }
    }
}

impl<T: Drop> From<AllocFailed<T>> for TraceFault {
    ghost from_gives = { λ _ fault. fault ≡ OutOfMemory };

    fn from(_: AllocFailed<T>) -> TraceFault {
        TraceFault::OutOfMemory
    }
}

impl From<AllocError> for TraceFault {
    ghost from_gives = { λ _ fault. fault ≡ OutOfMemory };

    fn from(_: AllocError) -> TraceFault {
        TraceFault::OutOfMemory
    }
}
