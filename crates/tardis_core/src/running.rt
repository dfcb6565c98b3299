//! Runs of the machine.

ghost use Rattle.std.specs.Prelude.{◌≡◌, false, Some, IfOk, IfErr};
ghost use Rattle.core_machine.specs.Machine.{Run, opening};
ghost use Rattle.core_machine.specs.Opening.{opening_parts};
ghost use Rattle.core_machine.specs.Parts.{world};
ghost use Rattle.core_machine.specs.Runs.{run_from};
ghost use Rattle.machine_laws.specs.Laws.{GetYes, GetYesBy, HaveEnded, logs_of};
ghost use Rattle.machine_laws.specs.Refusals.{is_protocol_fault};
ghost use Rattle.tardis_core.specs.RunFaults.{IsRunFault};

use super::machine::Core;
use core_machine::{CoreFault, Event};
use core_program::ProgramSet;
use lease_rule::Config;
use machine_laws::verdicts::{ended_runs_get_yes, runs_get_yes};
use std::alloc::Global;
use std::fmt;
use std::fmt::Display;
use thiserror::Error;

/// Which event of a run was refused, counted from 0, and why.
#[derive(Clone, Copy, Debug, PartialEq, Eq, Error)]
pub struct RunFault {
    /// The index of the event.
    pub at: usize,
    /// Why it was refused.
    pub fault: CoreFault,
}

impl Display for RunFault {
    ghost use Rattle.std.specs.Prelude.{Some};
    ghost use Rattle.tardis_core.specs.RunFaults.{fault_text};

    ghost output = { λ fault. Some (fault_text fault) };

    fn fmt<W: fmt::Write>(&self, f: &mut fmt::Formatter<W>) -> fmt::Result {
        write!(f, "event {}: {}", self.at, self.fault)
    }
}

/// Runs the machine from its start over these events. If one of them is refused, the fault has its
/// index and the cause; it has 0 and 10 OutOfMemory if there is no memory for the machine itself. The
/// logs that the machine has made get Yes, whatever the events were: their operations are sequentially
/// consistent.
pub fn run(
    alloc: Global,
    programs: &ProgramSet,
    config: &Config,
    events: &[Event],
) -> Result<Core, RunFault>
    ensures run { IfOk result
        (λ m. Run config.now (opening programs.now.programs config.now.slices) events.now (world m)) }
    ensures reached { IfOk result
        (λ m. run_from (opening_parts programs.now.programs config.now) events.now ≡ Some m) }
    ensures refused { IfErr result (λ r. IsRunFault programs.now.programs config.now events.now r) }
    // The logs get Yes, and, if all programs have ended, they get it against these too.
    ensures yes { IfOk result (λ m. GetYes (logs_of (world m))) }
    ensures ended { IfOk result (λ m. HaveEnded (world m) → GetYesBy programs.now.programs (logs_of (world m))) }
    // It refuses no event with 14 BadReply or 11 NotOwner.
    ensures passes { IfErr result (λ r. is_protocol_fault r.fault ≡ false) }
{
    runs_get_yes();
    ended_runs_get_yes();
    let mut machine = match Core::new(alloc, programs, config) {
        Ok(machine) => machine,
        Err(fault) => return Err(RunFault { at: 0, fault }),
    };
    for (at, event) in events.iter().enumerate() {
        if let Err(fault) = machine.step(*event) {
            return Err(RunFault { at, fault });
        }
    }
    Ok(machine)
}
