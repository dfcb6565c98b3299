//! Why a simulation doesn't come to its end.

ghost use Rattle.std.specs.Prelude.{◌≡◌};
ghost use Rattle.simulation.specs.declared.fault.SimulationFault.TheVariants.{Core, OutOfMemory};

use manager_slice::SliceFault;
use mem_op::FaultName;
use std::alloc::AllocError;
use std::fmt;
use std::fmt::Display;
use tardis_core::rounds::RoundFault;
use thiserror::Error;

/// Why a simulation doesn't come to its end.
#[derive(Clone, Copy, Debug, PartialEq, Eq, Error)]
pub enum SimulationFault {
    /// An event of a core is refused, or 30 GaveUp: 1,000 rounds of the core brought no operation.
    Core(RoundFault),
    /// A spill of the slice of this number is refused.
    Slice { number: usize, fault: SliceFault },
    /// Memory was refused outside of the machine.
    OutOfMemory,
}

impl Display for SimulationFault {
    ghost use Rattle.std.specs.Prelude.{Some};
    ghost use Rattle.simulation.specs.Faults.{fault_text};

    ghost output = { λ fault. Some (fault_text fault) };

    fn fmt<W: fmt::Write>(&self, f: &mut fmt::Formatter<W>) -> fmt::Result {
        match self {
            SimulationFault::Core(stopped) => {
                write!(f, "core {}: {}", stopped.core.get(), stopped.fault)
            }
            SimulationFault::Slice {
                fault: SliceFault::OutOfMemory,
                ..
            } => write!(f, "{}", FaultName::OutOfMemory),
            SimulationFault::Slice { number, fault } => write!(f, "slice {number}: {fault}"),
            SimulationFault::OutOfMemory => write!(f, "{}", FaultName::OutOfMemory),
        }
    }
}

impl From<RoundFault> for SimulationFault {
    ghost from_gives = { λ reason fault. fault ≡ Core reason };

    fn from(reason: RoundFault) -> SimulationFault {
        SimulationFault::Core(reason)
    }
}

impl From<AllocError> for SimulationFault {
    ghost from_gives = { λ _ fault. fault ≡ OutOfMemory };

    fn from(_refused: AllocError) -> SimulationFault {
        SimulationFault::OutOfMemory
    }
}
