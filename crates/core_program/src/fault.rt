//! Why bytes aren't a program or a set of programs.

ghost use Rattle.std.specs.Prelude.{◌≡◌};
ghost use Rattle.core_program.specs.declared.fault.ProgramFault.TheVariants.{OutOfMemory};

use mem_op::FaultName;
use std::alloc::{AllocError, AllocFailed};
use std::fmt;
use std::fmt::Display;
use thiserror::Error;

/// Why bytes aren't a program or a set of programs. Lines are counted from 1.
#[derive(Clone, Copy, Debug, PartialEq, Eq, Error)]
pub enum ProgramFault {
    /// This line isn't as the format says, or it is missing.
    BadLine(u64),
    /// This line is the 4,097th instruction of its section.
    TooLong(u64),
    /// This line jumps further than just past the last instruction of its program. No line is bad,
    /// and no section too long.
    SkipPastEnd(u64),
    /// A growth was refused.
    OutOfMemory,
}

impl Display for ProgramFault {
    ghost use Rattle.std.specs.Prelude.{Some};
    ghost use Rattle.core_program.specs.FaultTexts.{fault_text};

    ghost output = { λ fault. Some (fault_text fault) };

    fn fmt<W: fmt::Write>(&self, f: &mut fmt::Formatter<W>) -> fmt::Result {
        match self {
            ProgramFault::BadLine(line) => write!(f, "line {line}: {}", FaultName::BadProgramLine),
            ProgramFault::TooLong(line) => write!(f, "line {line}: {}", FaultName::TooLong),
            ProgramFault::SkipPastEnd(line) => write!(f, "line {line}: {}", FaultName::SkipPastEnd),
            ProgramFault::OutOfMemory => write!(f, "{}", FaultName::OutOfMemory),
        }
    }
}

impl<T: Drop> From<AllocFailed<T>> for ProgramFault {
    ghost from_gives = { λ _ fault. fault ≡ OutOfMemory };

    fn from(_: AllocFailed<T>) -> ProgramFault {
        ProgramFault::OutOfMemory
    }
}

impl From<AllocError> for ProgramFault {
    ghost from_gives = { λ _ fault. fault ≡ OutOfMemory };

    fn from(_: AllocError) -> ProgramFault {
        ProgramFault::OutOfMemory
    }
}
