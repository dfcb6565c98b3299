//! Why a trace isn't replayed.

ghost use Rattle.std.specs.Prelude.{◌≡◌};
ghost use Rattle.trace_replay.specs.Texts.{fault_status};
ghost use Rattle.trace_replay.specs.declared.fault.ReplayFault.TheVariants.{OutOfMemory};

use mem_op::FaultName;
use std::alloc::AllocError;
use std::fmt;
use std::fmt::Display;
use thiserror::Error;

/// Why a trace isn't replayed. Lines are counted from 1.
#[derive(Clone, Copy, Debug, PartialEq, Eq, Error)]
pub enum ReplayFault {
    /// This line is the first that isn't a line of a trace.
    BadTraceLine { line: u64 },
    /// Memory was refused.
    OutOfMemory,
    /// A read failed.
    Read,
}

impl ReplayFault {
    /// The exit status of a program that answers so: 2 for a bad line, otherwise 4.
    pub fn status(&self) -> u8
        ensures { result ≡ fault_status self.now }
    {
        match self {
            ReplayFault::BadTraceLine { .. } => 2,
            ReplayFault::OutOfMemory | ReplayFault::Read => 4,
        }
    }
}

impl Display for ReplayFault {
    ghost use Rattle.std.specs.Prelude.{Some};
    ghost use Rattle.trace_replay.specs.Texts.{fault_text};

    ghost output = { λ fault. Some (fault_text fault) };

    fn fmt<W: fmt::Write>(&self, f: &mut fmt::Formatter<W>) -> fmt::Result {
        match self {
            ReplayFault::BadTraceLine { line } => {
                write!(f, "line {line}: {}", FaultName::BadTraceLine)
            }
            ReplayFault::OutOfMemory => write!(f, "{}", FaultName::OutOfMemory),
            ReplayFault::Read => write!(f, "{}", FaultName::Read),
        }
    }
}

impl From<AllocError> for ReplayFault {
    ghost from_gives = { λ _ fault. fault ≡ OutOfMemory };

    fn from(_: AllocError) -> ReplayFault {
        ReplayFault::OutOfMemory
    }
}
