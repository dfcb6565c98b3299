//! Why bytes aren't a schedule.

ghost use Rattle.std.specs.Prelude.{◌≡◌};
ghost use Rattle.simulation.specs.declared.schedule_fault.ScheduleFault.TheVariants.{OutOfMemory};

use mem_op::FaultName;
use std::alloc::{AllocError, AllocFailed};
use std::fmt;
use std::fmt::Display;
use thiserror::Error;

/// Why bytes aren't a schedule.
#[derive(Clone, Copy, Debug, PartialEq, Eq, Error)]
pub enum ScheduleFault {
    /// This line, counted from 1, is the first that is no command, that names a core that isn't there, or that has no line
    /// feed.
    BadScheduleLine { line: u64 },
    /// Memory was refused.
    OutOfMemory,
}

impl Display for ScheduleFault {
    ghost use Rattle.std.specs.Prelude.{Some};
    ghost use Rattle.simulation.specs.ScheduleFaultTexts.{fault_text};

    ghost output = { λ fault. Some (fault_text fault) };

    fn fmt<W: fmt::Write>(&self, f: &mut fmt::Formatter<W>) -> fmt::Result {
        match self {
            ScheduleFault::BadScheduleLine { line } => write!(
                f,
                "line {line}: {}",
                FaultName::BadScheduleLine
            ),
            ScheduleFault::OutOfMemory => write!(f, "{}", FaultName::OutOfMemory),
        }
    }
}

impl<T: Drop> From<AllocFailed<T>> for ScheduleFault {
    ghost from_gives = { λ _ fault. fault ≡ OutOfMemory };

    fn from(_: AllocFailed<T>) -> ScheduleFault {
        ScheduleFault::OutOfMemory
    }
}

impl From<AllocError> for ScheduleFault {
    ghost from_gives = { λ _ fault. fault ≡ OutOfMemory };

    fn from(_: AllocError) -> ScheduleFault {
        ScheduleFault::OutOfMemory
    }
}
