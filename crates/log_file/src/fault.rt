//! What is wrong with a log, and with a set of logs.

use super::device_fault::ReadFailed;
use mem_op::FaultName;
use std::alloc::AllocError;
use std::fmt;
use std::fmt::Display;
use thiserror::Error;

/// What is wrong at a line of a log.
#[derive(Clone, Copy, Debug, PartialEq, Eq, Error)]
pub enum FormatFault {
    /// Line 1 is too long, or it is whole and isn't a header.
    BadHeader,
    /// A later line is too long, or it is whole and neither a record nor the end line.
    BadLine,
    /// A number of the header or of a record is out of range.
    OutOfRange,
    /// A record comes after 1,048,576 records.
    TooMany,
    /// The end line's number isn't the number of records.
    CountDiffers,
    /// A byte comes after the end line.
    TrailingBytes,
    /// The bytes end before the end line does.
    Truncated,
    /// The header names another core, or another number of cores.
    WrongCore,
}

impl Display for FormatFault {
    ghost use Rattle.std.specs.Prelude.{Some};
    ghost use Rattle.log_file.specs.Faults.{fault_text};

    ghost output = { λ fault. Some (fault_text fault) };

    fn fmt<W: fmt::Write>(&self, f: &mut fmt::Formatter<W>) -> fmt::Result {
        let name = match self {
            FormatFault::BadHeader => FaultName::BadHeader,
            FormatFault::BadLine => FaultName::BadLine,
            FormatFault::OutOfRange => FaultName::OutOfRange,
            FormatFault::TooMany => FaultName::TooMany,
            FormatFault::CountDiffers => FaultName::CountDiffers,
            FormatFault::TrailingBytes => FaultName::TrailingBytes,
            FormatFault::Truncated => FaultName::Truncated,
            FormatFault::WrongCore => FaultName::WrongCore,
        };
        name.fmt(f)
    }
}

/// Why a log wasn't read.
#[derive(Clone, Copy, Debug, PartialEq, Eq, Error)]
pub enum LogFault {
    /// What is wrong, and at which line, counted from 1.
    At(u64, FormatFault),
    /// A growth was refused.
    OutOfMemory,
    /// A read failed.
    Read,
}

impl Display for LogFault {
    ghost use Rattle.std.specs.Prelude.{Some};
    ghost use Rattle.log_file.specs.Faults.{log_fault_text};

    ghost output = { λ fault. Some (log_fault_text fault) };

    fn fmt<W: fmt::Write>(&self, f: &mut fmt::Formatter<W>) -> fmt::Result {
        match self {
            LogFault::At(line, fault) => write!(f, "line {}: {}", line, fault),
            LogFault::OutOfMemory => write!(f, "{}", FaultName::OutOfMemory),
            LogFault::Read => write!(f, "{}", FaultName::Read),
        }
    }
}

impl From<AllocError> for LogFault {
    ghost use Rattle.std.specs.Prelude.{◌≡◌};
    ghost use Rattle.log_file.specs.declared.fault.LogFault.TheVariants.{OutOfMemory};

    ghost from_gives = { λ _ fault. fault ≡ OutOfMemory };

    fn from(_: AllocError) -> LogFault {
        LogFault::OutOfMemory
    }
}

impl From<ReadFailed> for LogFault {
    ghost use Rattle.std.specs.Prelude.{◌≡◌};
    ghost use Rattle.log_file.specs.declared.fault.LogFault.TheVariants.{Read};

    ghost from_gives = { λ _ fault. fault ≡ Read };

    fn from(_: ReadFailed) -> LogFault {
        LogFault::Read
    }
}

/// Why a set of logs wasn't read: one of its files has a fault.
#[derive(Clone, Copy, Debug, PartialEq, Eq, Error)]
pub struct SetFault {
    /// The file's number, counted from 0.
    pub file: usize,
    /// Its fault.
    pub fault: LogFault,
}

impl Display for SetFault {
    ghost use Rattle.std.specs.Prelude.{Some};
    ghost use Rattle.log_file.specs.SetFaults.{set_fault_text};

    ghost output = { λ e. Some (set_fault_text e) };

    fn fmt<W: fmt::Write>(&self, f: &mut fmt::Formatter<W>) -> fmt::Result {
        match &self.fault {
            LogFault::At(line, fault) => write!(f, "file {} line {}: {}", self.file, line, fault),
            LogFault::Read => write!(f, "file {}: {}", self.file, FaultName::Read),
            LogFault::OutOfMemory => write!(f, "{}", FaultName::OutOfMemory),
        }
    }
}
