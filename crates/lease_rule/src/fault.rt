//! Which number of a configuration is out of its range.

use mem_op::FaultName;
use std::fmt;
use std::fmt::Display;
use thiserror::Error;

/// Which number of a configuration is out of its range.
#[derive(Clone, Copy, Debug, PartialEq, Eq, Error)]
pub enum BadConfig {
    /// There are 1 to 16 slices.
    Slices,
    /// A lease is 1 to 1,000 stamps.
    Lease,
    /// A period is 1 to 1,000,000 operations.
    Period,
    /// A private cache has 1 to 4,096 lines.
    CacheLines,
    /// A slice has 1 to 65,536 lines.
    SliceLines,
    /// An inbox has room for 1 to 1,024 recalls.
    Inbox,
    /// A core has 1 to 10,000,000 turns for an operation.
    Turns,
}

impl Display for BadConfig {
    ghost use Rattle.std.specs.Prelude.{Some};
    ghost use Rattle.lease_rule.specs.Faults.{fault_text};

    ghost output = { λ fault. Some (fault_text fault) };

    fn fmt<W: fmt::Write>(&self, f: &mut fmt::Formatter<W>) -> fmt::Result {
        let field = match self {
            BadConfig::Slices => "slices",
            BadConfig::Lease => "lease",
            BadConfig::Period => "period",
            BadConfig::CacheLines => "cache_lines",
            BadConfig::SliceLines => "slice_lines",
            BadConfig::Inbox => "inbox",
            BadConfig::Turns => "turns",
        };
        write!(f, "{} {field}", FaultName::BadConfig)
    }
}
