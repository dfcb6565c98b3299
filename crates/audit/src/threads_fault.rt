//! Why a run of threads didn't end well, in words.

ghost use Rattle.std.specs.Prelude.{◌≡◌};

use super::machine_fault::{Cause, MachineFault};
use mem_op::FaultName;
use std::fmt;
use std::fmt::Display;
use thiserror::Error;

/// Why a run of threads didn't end well, without the units that it left.
#[derive(Clone, Copy, Debug, PartialEq, Eq, Error)]
pub struct ThreadsFault {
    /// The core with the fault; with 33, the core that the audit's fault names.
    pub core: usize,
    /// Why.
    pub cause: Cause,
}

impl ThreadsFault {
    /// Why the run that left this didn't end well.
    pub fn of(left: &MachineFault) -> ThreadsFault
        ensures core { result.core ≡ left.now.core }
        ensures cause { result.cause ≡ left.now.cause }
    {
        ThreadsFault {
            core: left.core,
            cause: left.cause,
        }
    }
}

impl Display for ThreadsFault {
    ghost use Rattle.std.specs.Prelude.{Some};
    ghost use Rattle.audit.specs.Faults.{fault_text};

    ghost output = { λ fault. Some (fault_text fault.core fault.cause) };

    fn fmt<W: fmt::Write>(&self, f: &mut fmt::Formatter<W>) -> fmt::Result {
        match &self.cause {
            Cause::GaveUp => write!(f, "core {}: {}", self.core, FaultName::GaveUp),
            Cause::Stopped => write!(f, "core {}: {}", self.core, FaultName::Stopped),
            Cause::Spawn => write!(f, "core {}: {}", self.core, FaultName::Spawn),
            Cause::Audit(fault) => write!(f, "{fault}"),
            Cause::Unit(fault) => write!(f, "core {}: {fault}", self.core),
            Cause::Slice(fault) => write!(f, "core {}: {fault}", self.core),
            Cause::OutOfMemory => write!(f, "{}", FaultName::OutOfMemory),
        }
    }
}
