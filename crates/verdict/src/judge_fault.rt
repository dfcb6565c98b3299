//! Why there is no verdict.

ghost use Rattle.std.specs.Prelude.{◌≡◌};
ghost use Rattle.verdict.specs.declared.judge_fault.JudgeFault.TheVariants.{OutOfMemory};
ghost use Rattle.verdict.specs.SetFaults.{from_set};
ghost use Rattle.verdict.specs.Statuses.{judge_fault_status};

use log_file::{FormatFault, LogFault, SetFault};
use mem_op::FaultName;
use std::alloc::AllocError;
use std::fmt;
use std::fmt::Display;
use thiserror::Error;

/// A count that has a range.
#[derive(Clone, Copy, Debug, PartialEq, Eq)]
pub enum Count {
    /// How many log files a set has.
    Files,
    /// How many workers judge it.
    Workers,
    /// How many programs there are: there have to be as many as files.
    Programs,
}

impl Display for Count {
    ghost use Rattle.std.specs.Prelude.{Some};
    ghost use Rattle.verdict.specs.Texts.{count_text};

    ghost output = { λ count. Some (count_text count) };

    fn fmt<W: fmt::Write>(&self, f: &mut fmt::Formatter<W>) -> fmt::Result {
        match self {
            Count::Files => f.write_str("files"),
            Count::Workers => f.write_str("workers"),
            Count::Programs => f.write_str("programs"),
        }
    }
}

/// Why there is no verdict. Files are numbered from 0.
#[derive(Clone, Copy, Debug, PartialEq, Eq, Error)]
pub enum JudgeFault {
    /// A count is out of range.
    BadConfig(Count),
    /// The first fault of a file, and at which line, counted from 1.
    Log {
        file: usize,
        line: u64,
        fault: FormatFault,
    },
    /// A growth was refused.
    OutOfMemory,
    /// A read of a file failed.
    Read {
        file: usize,
    },
}

impl JudgeFault {
    /// The exit status of a program that is refused so: 2 for the fault of a log, 3 for a count out of range, else 4.
    pub fn status(&self) -> u8
        ensures { result ≡ judge_fault_status self.now }
    {
        match self {
            JudgeFault::Log { .. } => 2,
            JudgeFault::BadConfig(_) => 3,
            JudgeFault::Read { .. } | JudgeFault::OutOfMemory => 4,
        }
    }
}

impl Display for JudgeFault {
    ghost use Rattle.std.specs.Prelude.{Some};
    ghost use Rattle.verdict.specs.Texts.{judge_fault_text};

    ghost output = { λ fault. Some (judge_fault_text fault) };

    fn fmt<W: fmt::Write>(&self, f: &mut fmt::Formatter<W>) -> fmt::Result {
        match self {
            JudgeFault::BadConfig(count) => write!(f, "{} {}", FaultName::BadConfig, count),
            JudgeFault::Log { file, line, fault } => {
                write!(f, "file {} line {}: {}", file, line, fault)
            }
            JudgeFault::OutOfMemory => write!(f, "{}", FaultName::OutOfMemory),
            JudgeFault::Read { file } => write!(f, "file {}: {}", file, FaultName::Read),
        }
    }
}

impl From<AllocError> for JudgeFault {
    ghost from_gives = { λ _ fault. fault ≡ OutOfMemory };

    fn from(_: AllocError) -> JudgeFault {
        JudgeFault::OutOfMemory
    }
}

impl From<SetFault> for JudgeFault {
    ghost from_gives = { λ found fault. fault ≡ from_set found.file found.fault };

    fn from(found: SetFault) -> JudgeFault {
        let file = found.file;
        match found.fault {
            LogFault::At(line, fault) => JudgeFault::Log { file, line, fault },
            LogFault::OutOfMemory => JudgeFault::OutOfMemory,
            LogFault::Read => JudgeFault::Read { file },
        }
    }
}
