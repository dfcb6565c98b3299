//! Why an event is refused.

ghost use Rattle.std.specs.Prelude.{◌≡◌};
ghost use Rattle.core_machine.specs.declared.fault.CoreFault.TheVariants.{Unit, Slice};
ghost use Rattle.core_unit.specs.declared.fault.UnitFault.TheVariants.{OutOfMemory};

use core_unit::UnitFault;
use manager_slice::SliceFault;
use std::alloc::AllocError;
use std::fmt;
use std::fmt::Display;
use thiserror::Error;

/// Why an event is refused.
#[derive(Clone, Copy, Debug, PartialEq, Eq, Error)]
pub enum CoreFault {
    /// A core refuses the event.
    Unit(UnitFault),
    /// A slice refuses the event.
    Slice(SliceFault),
}

impl Display for CoreFault {
    ghost use Rattle.std.specs.Prelude.{Some};
    ghost use Rattle.core_machine.specs.Faults.{fault_text};

    ghost output = { λ fault. Some (fault_text fault) };

    fn fmt<W: fmt::Write>(&self, f: &mut fmt::Formatter<W>) -> fmt::Result {
        match self {
            CoreFault::Unit(fault) => write!(f, "{fault}"),
            CoreFault::Slice(fault) => write!(f, "{fault}"),
        }
    }
}

impl From<UnitFault> for CoreFault {
    ghost from_gives = { λ cause fault. fault ≡ Unit cause };

    fn from(cause: UnitFault) -> CoreFault {
        CoreFault::Unit(cause)
    }
}

impl From<AllocError> for CoreFault {
    ghost from_gives = { λ _ fault. fault ≡ Unit OutOfMemory };

    fn from(refused: AllocError) -> CoreFault {
        CoreFault::Unit(UnitFault::from(refused))
    }
}

impl From<SliceFault> for CoreFault {
    ghost from_gives = { λ cause fault. fault ≡ Slice cause };

    fn from(cause: SliceFault) -> CoreFault {
        CoreFault::Slice(cause)
    }
}
