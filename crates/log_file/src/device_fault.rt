//! How devices fail, and why bytes weren't read or written.

use mem_op::FaultName;
use std::alloc::AllocError;
use std::fmt;
use std::fmt::Display;
use thiserror::Error;

/// A read that failed.
#[derive(Clone, Copy, Debug, PartialEq, Eq, Error)]
pub struct ReadFailed;

impl Display for ReadFailed {
    ghost use Rattle.std.specs.Prelude.{Some};
    ghost use Rattle.mem_op.specs.Names.{name_text};
    ghost use Rattle.mem_op.specs.declared.fault_name.FaultName.TheVariants as named;

    ghost output = { λ fault. Some (name_text named.Read) };

    fn fmt<W: fmt::Write>(&self, f: &mut fmt::Formatter<W>) -> fmt::Result {
        write!(f, "{}", FaultName::Read)
    }
}

/// A write that failed.
#[derive(Clone, Copy, Debug, PartialEq, Eq, Error)]
pub struct WriteFailed;

impl Display for WriteFailed {
    ghost use Rattle.std.specs.Prelude.{Some};
    ghost use Rattle.mem_op.specs.Names.{name_text};
    ghost use Rattle.mem_op.specs.declared.fault_name.FaultName.TheVariants as named;

    ghost output = { λ fault. Some (name_text named.Write) };

    fn fmt<W: fmt::Write>(&self, f: &mut fmt::Formatter<W>) -> fmt::Result {
        write!(f, "{}", FaultName::Write)
    }
}

/// Why a device's bytes weren't read.
#[derive(Clone, Copy, Debug, PartialEq, Eq, Error)]
pub enum ReadFault {
    /// A growth was refused.
    OutOfMemory,
    /// A read failed.
    Read,
}

impl Display for ReadFault {
    ghost use Rattle.std.specs.Prelude.{Some};
    ghost use Rattle.log_file.specs.ReadFaults.{read_fault_text};

    ghost output = { λ fault. Some (read_fault_text fault) };

    fn fmt<W: fmt::Write>(&self, f: &mut fmt::Formatter<W>) -> fmt::Result {
        match self {
            ReadFault::OutOfMemory => write!(f, "{}", FaultName::OutOfMemory),
            ReadFault::Read => write!(f, "{}", FaultName::Read),
        }
    }
}

impl From<AllocError> for ReadFault {
    ghost use Rattle.std.specs.Prelude.{◌≡◌};
    ghost use Rattle.log_file.specs.declared.device_fault.ReadFault.TheVariants.{OutOfMemory};

    ghost from_gives = { λ _ fault. fault ≡ OutOfMemory };

    fn from(_refused: AllocError) -> ReadFault {
        ReadFault::OutOfMemory
    }
}

impl From<ReadFailed> for ReadFault {
    ghost use Rattle.std.specs.Prelude.{◌≡◌};
    ghost use Rattle.log_file.specs.declared.device_fault.ReadFault.TheVariants.{Read};

    ghost from_gives = { λ _ fault. fault ≡ Read };

    fn from(_failed: ReadFailed) -> ReadFault {
        ReadFault::Read
    }
}

/// Why bytes weren't written whole.
#[derive(Clone, Copy, Debug, PartialEq, Eq, Error)]
pub enum WriteFault {
    /// A growth was refused.
    OutOfMemory,
    /// A write failed.
    Write,
}

impl Display for WriteFault {
    ghost use Rattle.std.specs.Prelude.{Some};
    ghost use Rattle.log_file.specs.WriteFaults.{write_fault_text};

    ghost output = { λ fault. Some (write_fault_text fault) };

    fn fmt<W: fmt::Write>(&self, f: &mut fmt::Formatter<W>) -> fmt::Result {
        match self {
            WriteFault::OutOfMemory => write!(f, "{}", FaultName::OutOfMemory),
            WriteFault::Write => write!(f, "{}", FaultName::Write),
        }
    }
}

impl From<AllocError> for WriteFault {
    ghost use Rattle.std.specs.Prelude.{◌≡◌};
    ghost use Rattle.log_file.specs.declared.device_fault.WriteFault.TheVariants.{OutOfMemory};

    ghost from_gives = { λ _ fault. fault ≡ OutOfMemory };

    fn from(_refused: AllocError) -> WriteFault {
        WriteFault::OutOfMemory
    }
}

impl From<WriteFailed> for WriteFault {
    ghost use Rattle.std.specs.Prelude.{◌≡◌};
    ghost use Rattle.log_file.specs.declared.device_fault.WriteFault.TheVariants.{Write};

    ghost from_gives = { λ _ fault. fault ≡ Write };

    fn from(_failed: WriteFailed) -> WriteFault {
        WriteFault::Write
    }
}
