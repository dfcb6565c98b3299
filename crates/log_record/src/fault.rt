//! Why a line is refused as a record's.

use mem_op::FaultName;
use std::fmt;
use std::fmt::Display;
use thiserror::Error;

/// Why a line is refused as a record's.
#[derive(Clone, Copy, Debug, PartialEq, Eq, Error)]
pub enum LineFault {
    /// It doesn't have the shape of a record's line.
    BadLine,
    /// It has that shape, and one of its numbers is out of range.
    OutOfRange,
}

impl Display for LineFault {
    ghost use Rattle.std.specs.Prelude.{Some};
    ghost use Rattle.log_record.specs.Faults.{fault_text};

    ghost output = { λ fault. Some (fault_text fault) };

    fn fmt<W: fmt::Write>(&self, f: &mut fmt::Formatter<W>) -> fmt::Result {
        match self {
            LineFault::BadLine => write!(f, "{}", FaultName::BadLine),
            LineFault::OutOfRange => write!(f, "{}", FaultName::OutOfRange),
        }
    }
}
