//! Why a number is out of range.

use super::fault_name::FaultName;
use std::fmt;
use std::fmt::Display;
use thiserror::Error;

/// Why a number isn't an address, a core or an index.
#[derive(Clone, Copy, Debug, PartialEq, Eq, Error)]
pub enum RangeFault {
    /// An address is at most 65,535.
    AddrRange,
    /// A core is at most 63.
    CoreRange,
    /// An index is at most 1,048,575.
    IndexRange,
}

impl Display for RangeFault {
    ghost use Rattle.std.specs.Prelude.{Some};
    ghost use Rattle.mem_op.specs.Faults.{fault_text};

    ghost output = { λ fault. Some (fault_text fault) };

    fn fmt<W: fmt::Write>(&self, f: &mut fmt::Formatter<W>) -> fmt::Result {
        let name = match self {
            RangeFault::AddrRange => FaultName::AddrRange,
            RangeFault::CoreRange => FaultName::CoreRange,
            RangeFault::IndexRange => FaultName::IndexRange,
        };
        name.fmt(f)
    }
}
