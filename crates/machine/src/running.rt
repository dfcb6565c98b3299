//! A run of the machine, with a thread for each core.

ghost use Rattle.std.specs.Prelude.{◌≡◌, ◌⊎◌, ℕ, [], All, IfOk, IfErr, length};
ghost use Rattle.core_unit.specs.Kept.{Replays};
ghost use Rattle.manager_slice.specs.Replay.{Replays as SliceReplays};
ghost use Rattle.audit.specs.Runs.{IsRun, IsRunFault, IsUnitLog, StoppedShort, kept_log};
ghost use Rattle.audit.specs.declared.fault.AuditFault.{AuditFault};
ghost use Rattle.audit.specs.declared.machine_fault.Cause.TheVariants.{Audit, GaveUp, Stopped};
ghost use Rattle.machine.specs.Runs.{AreSlices, AreSlicesLeft, IsMachineRun};
ghost use Rattle.machine_laws.specs.Laws.{GetYesBy, unit_logs};

use super::core_thread::run_behind;
use super::ends::Ends;
use super::gate::StartGate;
use super::pace::Pace;
use audit::laws::merges_are_runs;
use audit::{Cause, MachineFault, RunEnd, accept_run};
use core_program::ProgramSet;
use core_unit::CoreUnit;
use inbox::Inbox;
use lease_rule::Config;
use machine_laws::verdicts::merged_logs_get_yes;
use manager_slice::ManagerSlice;
use slice_bank::{BankPort, SliceBank};
use std::alloc::{AllocError, Global};
use std::sync::Wait;
use std::thread;
use std::thread::Threads;
use tardis_core::opening_units;

/// Runs each program to its end in a thread of its own, which owns its core's unit and asks the pace before each turn.
///
/// Ok has the units and slices of one whole run of the core machine, whatever the order of its steps. The logs of its units get Yes
/// against the programs: they are sequentially consistent. The fault is the least core's: 30 if as many turns as the configuration allows
/// brought no operation, 31 if the pace said Stop, 32 if its thread was refused, and then no core did anything, or the refusal of its unit
/// or of a slice. 33 comes if the threads didn't give back such a run, and 10 if a growth was refused outside the cores' runs. May wait
/// for its threads.
pub fn run_threads<P: Pace + Sync, R: Threads + Wait + Sync>(
    rt: &R,
    alloc: Global,
    programs: &ProgramSet,
    config: &Config,
    pace: &P,
) -> Result<RunEnd, MachineFault>
    ensures run { IfOk result (λ end. IsRun programs.now.programs config.now end.units.items end.slices.items) }
    ensures events { IfOk result (λ end. IsMachineRun programs.now.programs config.now end.units.items end.slices.items) }
    ensures yes { IfOk result (λ end. GetYesBy programs.now.programs (unit_logs end.units.items)) }
    ensures short { IfErr result (λ f. (f.cause ≡ GaveUp ⊎ f.cause ≡ Stopped) →
        StoppedShort programs.now.programs f.units.items f.core) }
    // 33 says why the units and slices that are left aren't those of a whole run.
    ensures refused { IfErr result (λ f. (fault : AuditFault) → f.cause ≡ Audit fault → (f.core ≡ fault.core)
        × IsRunFault programs.now.programs config.now f.units.items f.slices.items fault) }
    // Each log that is left is that of a unit of its core whose transcript replays, or empty.
    ensures logs { IfErr result (λ f. (c : ℕ) → IsUnitLog c (kept_log f.units.items c) ⊎ (kept_log f.units.items c ≡ [])) }
    // All slices are left, each with a state that is the replay of its history, or nothing if memory was refused outside the
    // cores' runs.
    ensures slices { IfErr result (λ f. AreSlicesLeft config.now.slices f.cause f.units.items f.slices.items) }
{
    let Ok(units) = opening_units(alloc, programs, config) else {
        return Err(no_memory(alloc));
    };
    let Ok(inboxes) = inboxes_of(alloc, programs.len(), config) else {
        return Err(no_memory(alloc));
    };
    let Ok(bank) = SliceBank::new(alloc, config) else {
        return Err(no_memory(alloc));
    };
    let Ok(ends) = run_units(rt, alloc, &bank, &inboxes, pace, units) else {
        return Err(no_memory(alloc));
    };
    accepted(programs, config, ends, bank.into_slices())
}

// Accepts what the threads gave back. With Ok, the units and slices are those of a run of some events, and the logs get Yes. With a
// fault, each log that is left is a unit's own or empty, and all slices are left.
fn accepted(
    programs: &ProgramSet,
    config: &Config,
    ends: Ends,
    slices: Vec<ManagerSlice>,
) -> Result<RunEnd, MachineFault>
    ensures run { IfOk result (λ end. IsRun programs.now.programs config.now end.units.items end.slices.items) }
    ensures events { IfOk result (λ end. IsMachineRun programs.now.programs config.now end.units.items end.slices.items) }
    ensures yes { IfOk result (λ end. GetYesBy programs.now.programs (unit_logs end.units.items)) }
    ensures short { IfErr result (λ f. (f.cause ≡ GaveUp ⊎ f.cause ≡ Stopped) →
        StoppedShort programs.now.programs f.units.items f.core) }
    ensures refused { IfErr result (λ f. (fault : AuditFault) → f.cause ≡ Audit fault → (f.core ≡ fault.core)
        × IsRunFault programs.now.programs config.now f.units.items f.slices.items fault) }
    ensures logs { IfErr result (λ f. (c : ℕ) → IsUnitLog c (kept_log f.units.items c) ⊎ (kept_log f.units.items c ≡ [])) }
    ensures slices { IfErr result (λ f. AreSlices (length slices.items) f.slices.items) }
{
    let Ends { units, faults } = ends;
    merges_are_runs();
    merged_logs_get_yes();
    each_replays(&units);
    each_slice_replays(&slices);
    accept_run(programs, config, units, &faults, slices)
}

// An empty inbox for each of so many cores.
fn inboxes_of(alloc: Global, cores: usize, config: &Config) -> Result<Vec<Inbox>, AllocError> {
    let mut inboxes = Vec::new(alloc);
    for _ in 0..cores {
        let inbox = Inbox::new(alloc, config.inbox())?;
        inboxes.reserve(1)?;
        inboxes.push_reserved(inbox);
    }
    Ok(inboxes)
}

// Does nothing: each unit has a state that is the replay of its transcript, by its type.
fn each_replays(units: &[CoreUnit])
    ensures { All Replays units.now }
{
    for unit in units {
        unit.replays();
    }
}

// Does nothing: each slice has a state that is the replay of its history, by its type.
fn each_slice_replays(slices: &[ManagerSlice])
    ensures { All SliceReplays slices.now }
{
    for slice in slices {
        slice.replays();
    }
}

// The fault if a growth was refused outside the cores' runs: no unit is left, and no slice.
fn no_memory(alloc: Global) -> MachineFault
    ensures cause { result.cause ≡ Cause.OutOfMemory }
    ensures units { result.units.items ≡ [] }
    ensures slices { result.slices.items ≡ [] }
{
    MachineFault {
        core: 0,
        cause: Cause::OutOfMemory,
        units: Vec::new(alloc),
        slices: Vec::new(alloc),
    }
}

// Starts a thread for each unit, lets them go once all are started, and waits for them.
fn run_units<P: Pace + Sync, R: Threads + Wait + Sync>(
    rt: &R,
    alloc: Global,
    bank: &SliceBank,
    inboxes: &[Inbox],
    pace: &P,
    units: Vec<CoreUnit>,
) -> Result<Ends, AllocError> {
    let mut ends = Ends::with_room(alloc, inboxes.len())?;
    let mut handles = Vec::with_capacity(alloc, inboxes.len())?;
    let gate = StartGate::new();
    let gate = &gate;
    thread::scope(
        thread::scope_env(),
        rt,
        |scope| -> Result<Ends, AllocError> {
            let mut refused = None;
            for unit in units {
                if handles.reserve(1).is_err() {
                    refused = Some(Cause::OutOfMemory);
                    break;
                }
                let port = BankPort { rt, bank };
                let run = move || run_behind(rt, gate, unit, port, inboxes, pace);
                match scope.spawn(run) {
                    Ok(handle) => handles.push_reserved(handle),
                    Err(_) => {
                        refused = Some(Cause::Spawn);
                        break;
                    }
                }
            }
            gate.open(rt, refused.is_none());
            for handle in handles {
                ends.keep(handle.join(rt))?;
            }
            if let Some(cause) = refused {
                ends.refuse(cause)?;
            }
            Ok(ends)
        },
    )
}
