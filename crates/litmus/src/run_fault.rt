//! Why there is no table.

ghost use Rattle.std.specs.Prelude.{◌≡◌};
ghost use Rattle.litmus.specs.declared.run_fault.CollectFault.TheVariants.{OutOfMemory};

use super::run_cause::RunCause;
use mem_op::FaultName;
use std::alloc::{AllocError, AllocFailed};
use std::fmt;
use std::fmt::Display;
use thiserror::Error;

/// Why there is no table. Runs are counted from 0.
#[derive(Clone, Copy, Debug, PartialEq, Eq, Error)]
pub enum CollectFault {
    /// The number of runs isn't 1..100,000.
    BadRuns,
    /// The first run that has no outcome that counts, and why.
    Run { run: u64, cause: RunCause },
    /// Memory was refused.
    OutOfMemory,
}

impl Display for CollectFault {
    ghost use Rattle.std.specs.Prelude.{Some};
    ghost use Rattle.litmus.specs.RunFaults.{fault_text};

    ghost output = { λ fault. Some (fault_text fault) };

    fn fmt<W: fmt::Write>(&self, f: &mut fmt::Formatter<W>) -> fmt::Result {
        match self {
            CollectFault::BadRuns => write!(f, "{} runs", FaultName::BadConfig),
            CollectFault::Run { run, cause } => match cause {
                RunCause::Simulation(fault) => write!(f, "{fault}"),
                RunCause::Threads(fault) => write!(f, "{fault}"),
                RunCause::No(fault) => write!(f, "run {run}: {fault}"),
                RunCause::OutOfMemory => write!(f, "{}", FaultName::OutOfMemory),
            },
            CollectFault::OutOfMemory => write!(f, "{}", FaultName::OutOfMemory),
        }
    }
}

impl<T: Drop> From<AllocFailed<T>> for CollectFault {
    ghost from_gives = { λ _ fault. fault ≡ OutOfMemory };

    fn from(_: AllocFailed<T>) -> CollectFault {
        CollectFault::OutOfMemory
    }
}

impl From<AllocError> for CollectFault {
    ghost from_gives = { λ _ fault. fault ≡ OutOfMemory };

    fn from(_: AllocError) -> CollectFault {
        CollectFault::OutOfMemory
    }
}
