//! Why a reply doesn't fill a line.

use mem_op::FaultName;
use std::fmt;
use std::fmt::Display;
use thiserror::Error;

/// Why a reply doesn't fill a line.
#[derive(Clone, Copy, Debug, PartialEq, Eq, Error)]
pub enum FillFault {
    /// Memory was refused for a line that isn't there yet.
    OutOfMemory,
    /// The reply doesn't fit the line, or there is no room for a new line.
    BadReply,
}

impl Display for FillFault {
    ghost use Rattle.std.specs.Prelude.{Some};
    ghost use Rattle.private_cache.specs.Faults.{fault_text};

    ghost output = { λ fault. Some (fault_text fault) };

    fn fmt<W: fmt::Write>(&self, f: &mut fmt::Formatter<W>) -> fmt::Result {
        match self {
            FillFault::OutOfMemory => write!(f, "{}", FaultName::OutOfMemory),
            FillFault::BadReply => write!(f, "{}", FaultName::BadReply),
        }
    }
}
