//! Why a round, an operation or a program didn't end.

use core_machine::CoreFault;
use mem_op::{CoreId, FaultName};
use std::fmt;
use std::fmt::Display;
use thiserror::Error;

/// Why a round, an operation or a program didn't end.
#[derive(Clone, Copy, Debug, PartialEq, Eq, Error)]
pub enum RoundCause {
    /// The core made 1,000 rounds for one operation.
    GaveUp,
    /// The machine refused an event.
    Core(CoreFault),
}

impl Display for RoundCause {
    ghost use Rattle.std.specs.Prelude.{Some};
    ghost use Rattle.tardis_core.specs.RoundFaults.{cause_text};

    ghost output = { λ cause. Some (cause_text cause) };

    fn fmt<W: fmt::Write>(&self, f: &mut fmt::Formatter<W>) -> fmt::Result {
        match self {
            RoundCause::GaveUp => write!(f, "{}", FaultName::GaveUp),
            RoundCause::Core(fault) => write!(f, "{fault}"),
        }
    }
}

/// Whose event or operation didn't end, and why.
#[derive(Clone, Copy, Debug, PartialEq, Eq, Error)]
pub struct RoundFault {
    /// The core whose event was refused, or that gave up.
    pub core: CoreId,
    /// Why.
    pub fault: RoundCause,
}

impl Display for RoundFault {
    ghost use Rattle.std.specs.Prelude.{Some};
    ghost use Rattle.tardis_core.specs.RoundFaults.{fault_text};

    ghost output = { λ fault. Some (fault_text fault) };

    fn fmt<W: fmt::Write>(&self, f: &mut fmt::Formatter<W>) -> fmt::Result {
        write!(f, "core {}: {}", self.core.get(), self.fault)
    }
}
