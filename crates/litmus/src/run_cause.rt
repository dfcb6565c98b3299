//! Why a run has no outcome that counts.

ghost use Rattle.std.specs.Prelude.{◌≡◌};
ghost use Rattle.litmus.specs.declared.run_cause.RunCause.TheVariants.{OutOfMemory, Simulation};

use audit::ThreadsFault;
use simulation::SimulationFault;
use std::alloc::{AllocError, AllocFailed};
use verdict::Fault;

/// Why a run has no outcome that counts.
#[derive(Clone, Copy, Debug, PartialEq, Eq)]
pub enum RunCause {
    /// Its cores didn't come to their ends.
    Simulation(SimulationFault),
    /// Its threads didn't come to their ends.
    Threads(ThreadsFault),
    /// Its logs get No: this record breaks a rule.
    No(Fault),
    /// Memory was refused: in its run, or when its logs were written and judged.
    OutOfMemory,
}

impl From<SimulationFault> for RunCause {
    ghost from_gives = { λ reason cause. cause ≡ Simulation reason };

    fn from(reason: SimulationFault) -> RunCause {
        RunCause::Simulation(reason)
    }
}

impl<T: Drop> From<AllocFailed<T>> for RunCause {
    ghost from_gives = { λ _ cause. cause ≡ OutOfMemory };

    fn from(_: AllocFailed<T>) -> RunCause {
        RunCause::OutOfMemory
    }
}

impl From<AllocError> for RunCause {
    ghost from_gives = { λ _ cause. cause ≡ OutOfMemory };

    fn from(_: AllocError) -> RunCause {
        RunCause::OutOfMemory
    }
}
