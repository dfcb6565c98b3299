//! Why a run of threads didn't end well, and the units and slices that it left.

ghost use Rattle.std.specs.Prelude.{◌≡◌, ◌⊎◌, []};
ghost use Rattle.audit.specs.Runs.{IsUnitLog, kept_log};

use super::fault::AuditFault;
use super::threads_fault::ThreadsFault;
use core_unit::{CoreUnit, UnitFault};
use log_record::Record;
use manager_slice::{ManagerSlice, SliceFault};
use mem_op::CoreId;
use std::fmt;
use std::fmt::{Debug, Display};
use thiserror::Error;

/// Why a core of a run stopped, or why the run isn't accepted.
#[derive(Clone, Copy, Debug, PartialEq, Eq)]
pub enum Cause {
    /// 30 GaveUp: the core made as many turns as the configuration allows without an operation.
    GaveUp,
    /// 31 Stopped: the pace told the core to stop.
    Stopped,
    /// 32 Spawn: the host refused a thread.
    Spawn,
    /// 33 Audit: what the threads gave back isn't a whole run of the programs.
    Audit(AuditFault),
    /// The core's unit refused a call.
    Unit(UnitFault),
    /// A slice refused the core's message.
    Slice(SliceFault),
    /// 10 OutOfMemory: a growth was refused outside the cores' runs.
    OutOfMemory,
}

/// The end of a run of threads.
#[derive(Drop)]
pub struct RunEnd {
    /// The units, core 0's first.
    pub units: Vec<CoreUnit>,
    /// The slices, number 0 first.
    pub slices: Vec<ManagerSlice>,
}

/// Why a run of threads didn't end well, with the units that its threads gave back, and the slices.
#[derive(Drop, Error)]
pub struct MachineFault {
    /// The core with the fault; with 33, the core that the audit's fault names.
    pub core: usize,
    /// Why.
    pub cause: Cause,
    /// The units that threads gave back.
    pub units: Vec<CoreUnit>,
    /// The slices, number 0 first; empty if memory was refused before any thread was to start.
    pub slices: Vec<ManagerSlice>,
}

impl MachineFault {
    /// The log that a core has made so far: that of its unit, or empty if no thread gave its unit back. Takes no memory.
    pub fn log(&self, core: CoreId) -> &[Record]
        ensures kept { result.now ≡ kept_log self.now.units.items core }
        ensures whole { IsUnitLog core result.now ⊎ (result.now ≡ []) }
    {
        let Some(unit) = self.units.get(core.get() as usize) else {
            return &[];
        };
        if unit.core().get() != core.get() {
            return &[];
        }
        unit.replays();
        unit.log()
    }
}

// Doesn't show the units, which hold whole programs, caches and logs.
impl Debug for MachineFault {
    fn fmt<W: fmt::Write>(&self, f: &mut fmt::Formatter<W>) -> fmt::Result {
        f.debug_struct("MachineFault")
            .field("core", &self.core)
            .field("cause", &self.cause)
            .finish_non_exhaustive()
    }
}

impl Display for MachineFault {
    ghost use Rattle.std.specs.Prelude.{Some};
    ghost use Rattle.audit.specs.Faults.{fault_text};

    ghost output = { λ fault. Some (fault_text fault.core fault.cause) };

    fn fmt<W: fmt::Write>(&self, f: &mut fmt::Formatter<W>) -> fmt::Result {
        write!(f, "{}", ThreadsFault::of(self))
    }
}
