//! Why there is no such stamp or rank.

use mem_op::FaultName;
use std::fmt;
use std::fmt::Display;
use thiserror::Error;

/// Why there is no such stamp or rank.
#[derive(Clone, Copy, Debug, PartialEq, Eq, Error)]
pub enum StampFault {
    /// A stamp is at most 281,474,976,710,656, which is 2^48.
    StampLimit,
    /// A rank is at most 4,294,967,295.
    RankLimit,
}

impl Display for StampFault {
    ghost use Rattle.std.specs.Prelude.{Some};
    ghost use Rattle.line_stamps.specs.Faults.{fault_text};

    ghost output = { λ fault. Some (fault_text fault) };

    fn fmt<W: fmt::Write>(&self, f: &mut fmt::Formatter<W>) -> fmt::Result {
        let name = match self {
            StampFault::StampLimit => FaultName::StampLimit,
            StampFault::RankLimit => FaultName::RankLimit,
        };
        name.fmt(f)
    }
}
