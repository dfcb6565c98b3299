//! Why an operation isn't added to a trace.

ghost use Rattle.std.specs.Prelude.{◌≡◌};
ghost use Rattle.trace.specs.declared.refusal.TraceFull.TheVariants.{OutOfMemory};

use mem_op::FaultName;
use std::alloc::{AllocError, AllocFailed};
use std::fmt;
use std::fmt::Display;
use thiserror::Error;

/// Why an operation isn't added to a trace.
#[derive(Clone, Copy, Debug, PartialEq, Eq, Error)]
pub enum TraceFull {
    /// Its core has 1,048,576 operations.
    TooMany,
    /// A growth was refused.
    OutOfMemory,
}

impl Display for TraceFull {
    ghost use Rattle.std.specs.Prelude.{Some};
    ghost use Rattle.trace.specs.FaultTexts.{refusal_text};

    ghost output = { λ refusal. Some (refusal_text refusal) };

    fn fmt<W: fmt::Write>(&self, f: &mut fmt::Formatter<W>) -> fmt::Result {
        match self {
            TraceFull::TooMany => write!(f, "{}", FaultName::TooMany),
            TraceFull::OutOfMemory => write!(f, "{}", FaultName::OutOfMemory),
        }
    }
}

impl<T: Drop> From<AllocFailed<T>> for TraceFull {
    ghost from_gives = { λ _ refusal. refusal ≡ OutOfMemory };

    fn from(_: AllocFailed<T>) -> TraceFull {
        TraceFull::OutOfMemory
    }
}

impl From<AllocError> for TraceFull {
    ghost from_gives = { λ _ refusal. refusal ≡ OutOfMemory };

    fn from(_: AllocError) -> TraceFull {
        TraceFull::OutOfMemory
    }
}
