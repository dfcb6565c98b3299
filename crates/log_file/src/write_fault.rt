//! Why a log wasn't written.

use super::device_fault::WriteFailed;
use mem_op::FaultName;
use std::alloc::AllocError;
use std::fmt;
use std::fmt::Display;
use thiserror::Error;

/// Why a log wasn't written whole.
#[derive(Clone, Copy, Debug, PartialEq, Eq, Error)]
pub enum LogWriteFault {
    /// The log has a swap, and should be in format 1.
    SwapInFormatOne,
    /// A growth was refused.
    OutOfMemory,
    /// A write failed.
    Write,
}

impl Display for LogWriteFault {
    ghost use Rattle.std.specs.Prelude.{Some};
    ghost use Rattle.log_file.specs.WriteFaults.{log_write_fault_text};

    ghost output = { λ fault. Some (log_write_fault_text fault) };

    fn fmt<W: fmt::Write>(&self, f: &mut fmt::Formatter<W>) -> fmt::Result {
        match self {
            LogWriteFault::SwapInFormatOne => write!(f, "{}", FaultName::SwapInFormatOne),
            LogWriteFault::OutOfMemory => write!(f, "{}", FaultName::OutOfMemory),
            LogWriteFault::Write => write!(f, "{}", FaultName::Write),
        }
    }
}

impl From<AllocError> for LogWriteFault {
    ghost use Rattle.std.specs.Prelude.{◌≡◌};
    ghost use Rattle.log_file.specs.declared.write_fault.LogWriteFault.TheVariants.{OutOfMemory};

    ghost from_gives = { λ _ fault. fault ≡ OutOfMemory };

    fn from(_refused: AllocError) -> LogWriteFault {
        LogWriteFault::OutOfMemory
    }
}

impl From<WriteFailed> for LogWriteFault {
    ghost use Rattle.std.specs.Prelude.{◌≡◌};
    ghost use Rattle.log_file.specs.declared.write_fault.LogWriteFault.TheVariants.{Write};

    ghost from_gives = { λ _ fault. fault ≡ Write };

    fn from(_failed: WriteFailed) -> LogWriteFault {
        LogWriteFault::Write
    }
}
