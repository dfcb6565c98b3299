//! Why bytes aren't a litmus test.

ghost use Rattle.std.specs.Prelude.{◌≡◌};
ghost use Rattle.litmus.specs.declared.litmus_fault.LitmusFault.TheVariants.{OutOfMemory};
ghost use Rattle.litmus.specs.TestFaultTexts.{from_program};

use core_program::ProgramFault;
use mem_op::FaultName;
use std::alloc::{AllocError, AllocFailed};
use std::fmt;
use std::fmt::Display;
use thiserror::Error;

/// Why bytes aren't a litmus test. Lines are counted from 1.
#[derive(Clone, Copy, Debug, PartialEq, Eq, Error)]
pub enum LitmusFault {
    /// At this line: it is no instruction line, and isn't as the format says, or it is missing.
    BadLitmusLine(u64),
    /// At this line: it is an instruction line that spells no instruction.
    BadLine(u64),
    /// At this line: it is the 4,097th instruction of its section.
    TooLong(u64),
    /// At this line: it is a jump that goes further than just past the last instruction of its program. No line is bad or
    /// too long.
    SkipPastEnd(u64),
    /// Memory was refused.
    OutOfMemory,
}

impl Display for LitmusFault {
    ghost use Rattle.std.specs.Prelude.{Some};
    ghost use Rattle.litmus.specs.TestFaultTexts.{fault_text};

    ghost output = { λ fault. Some (fault_text fault) };

    fn fmt<W: fmt::Write>(&self, f: &mut fmt::Formatter<W>) -> fmt::Result {
        match self {
            LitmusFault::BadLitmusLine(line) => write!(
                f,
                "line {line}: {}",
                FaultName::BadLitmusLine
            ),
            LitmusFault::BadLine(line) => write!(f, "line {line}: {}", FaultName::BadProgramLine),
            LitmusFault::TooLong(line) => write!(f, "line {line}: {}", FaultName::TooLong),
            LitmusFault::SkipPastEnd(line) => write!(f, "line {line}: {}", FaultName::SkipPastEnd),
            LitmusFault::OutOfMemory => write!(f, "{}", FaultName::OutOfMemory),
        }
    }
}

impl From<ProgramFault> for LitmusFault {
    ghost from_gives = { λ found fault. fault ≡ from_program found };

    fn from(found: ProgramFault) -> LitmusFault {
        match found {
            ProgramFault::BadLine(line) => LitmusFault::BadLine(line),
            ProgramFault::TooLong(line) => LitmusFault::TooLong(line),
            ProgramFault::SkipPastEnd(line) => LitmusFault::SkipPastEnd(line),
            ProgramFault::OutOfMemory => LitmusFault::OutOfMemory,
        }
    }
}

impl<T: Drop> From<AllocFailed<T>> for LitmusFault {
    ghost from_gives = { λ _ fault. fault ≡ OutOfMemory };

    fn from(_: AllocFailed<T>) -> LitmusFault {
        LitmusFault::OutOfMemory
    }
}

impl From<AllocError> for LitmusFault {
    ghost from_gives = { λ _ fault. fault ≡ OutOfMemory };

    fn from(_: AllocError) -> LitmusFault {
        LitmusFault::OutOfMemory
    }
}
