//! Checks the units and slices that threads gave back.

ghost use Rattle.std.specs.Prelude.{◌≡◌, ◌<◌, ◌≤◌, ◌⊎◌, length, slice_get, Some, IfSome, IfOk, IfErr, OnOk, MatchBool, MatchOption, MatchResult};
ghost use Rattle.audit.specs.Runs.{AllEnded, AllNumbered, HasEnded, IsFirstReport, IsNumbered, IsRun, IsRunFault, IsShort, MayReport, NoneReports, RefusesRun, Reports, StoppedShort};
ghost use Rattle.audit.specs.declared.machine_fault.Cause.{Cause};
ghost use Rattle.audit.specs.declared.machine_fault.Cause.TheVariants.{GaveUp, Stopped};

use super::auditing::audit;
use super::fault::AuditFault;
use super::machine_fault::{Cause, MachineFault, RunEnd};
use core_program::{Program, ProgramSet};
use core_unit::CoreUnit;
use core_unit::laws::logs_are_fronts;
use lease_rule::Config;
use manager_slice::ManagerSlice;
use mem_op::CoreId;

// The program of a core that the set has.
fn program_at(programs: &ProgramSet, core: usize) -> &Program
    requires { core < length programs.now.programs }
    ensures { slice_get programs.now.programs core ≡ Some result.now }
{
    let _count = programs.len();
    programs.get(CoreId::new(core as u64).unwrap()).unwrap()
}

// Whether a unit has run a core's program to the end.
fn has_ended(unit: &CoreUnit, core: usize, programs: &ProgramSet, config: &Config) -> bool
    requires { core < length programs.now.programs }
    ensures { MatchBool result
        (HasEnded programs.now.programs config.now core unit.now)
        (¬ HasEnded programs.now.programs config.now core unit.now) }
{
    unit.replays();
    logs_are_fronts();
    let program = program_at(programs, core);
    let _shape = program.instructions();
    unit.core().get() as usize == core
        && unit.program().is_same(program)
        && unit.config() == config
        && unit.in_hand().is_none()
        && unit.program_state().next_op(program).is_none()
}

// Whether a unit is this core's, has its program, and has operations left.
fn is_short(unit: &CoreUnit, core: usize, programs: &ProgramSet) -> bool
    requires { core < length programs.now.programs }
    ensures { MatchBool result
        (IsShort programs.now.programs core unit.now)
        (¬ IsShort programs.now.programs core unit.now) }
{
    unit.replays();
    logs_are_fronts();
    let program = program_at(programs, core);
    let _shape = program.instructions();
    unit.core().get() as usize == core
        && unit.program().is_same(program)
        && unit.program_state().next_op(program).is_some()
}

// Whether a slice has this number and configuration.
fn is_numbered(slice: &ManagerSlice, number: usize, config: &Config) -> bool
    ensures { MatchBool result
        (IsNumbered config.now number slice.now)
        (¬ IsNumbered config.now number slice.now) }
{
    slice.replays();
    slice.number() == number && slice.config() == config
}

// Whether each unit has run its core's program to the end.
fn all_ended(units: &[CoreUnit], programs: &ProgramSet, config: &Config) -> bool
    requires { length units.now ≡ length programs.now.programs }
    ensures { MatchBool result
        (AllEnded programs.now.programs config.now units.now)
        (¬ AllEnded programs.now.programs config.now units.now) }
{
    for core in 0..units.len() {
        if !has_ended(&units[core], core, programs, config) {
            return false;
        }
    }
    true
}

// Whether each slice has its number and the configuration.
fn all_numbered(slices: &[ManagerSlice], config: &Config) -> bool
    ensures { MatchBool result
        (AllNumbered config.now slices.now)
        (¬ AllNumbered config.now slices.now) }
{
    for number in 0..slices.len() {
        if !is_numbered(&slices[number], number, config) {
            return false;
        }
    }
    true
}

// A difference without a place.
fn nowhere() -> AuditFault
    ensures { result ≡ record { core = 0; slice = 0; place = 0 } }
{
    AuditFault {
        core: 0,
        slice: 0,
        place: 0,
    }
}

// Whether these are the units and slices of one whole run of the programs.
fn check_run(
    programs: &ProgramSet,
    config: &Config,
    units: &[CoreUnit],
    slices: &[ManagerSlice],
) -> Result<(), AuditFault>
    ensures { MatchResult result
        (λ _. IsRun programs.now.programs config.now units.now slices.now)
        (λ fault. IsRunFault programs.now.programs config.now units.now slices.now fault) }
{
    if units.len() != programs.len() || slices.len() != config.slices() {
        return Err(nowhere());
    }
    if !all_ended(units, programs, config) || !all_numbered(slices, config) {
        return Err(nowhere());
    }
    audit(units, slices)
}

// Whether a core's unit has stopped before the end of the core's program.
fn stopped_short(programs: &ProgramSet, units: &[CoreUnit], core: usize) -> bool
    ensures { MatchBool result
        (StoppedShort programs.now.programs units.now core)
        (¬ StoppedShort programs.now.programs units.now core) }
{
    if core >= units.len() || core >= programs.len() {
        return false;
    }
    if !is_short(&units[core], core, programs) {
        return false;
    }
    true
}

// Whether a core's fault is one to report.
fn reports(programs: &ProgramSet, units: &[CoreUnit], core: usize, cause: Cause) -> bool
    ensures { MatchBool result
        (MayReport programs.now.programs units.now core cause)
        (¬ MayReport programs.now.programs units.now core cause) }
{
    match cause {
        Cause::GaveUp | Cause::Stopped => stopped_short(programs, units, core),
        Cause::Audit(_) => false,
        _ => true,
    }
}

// The fault that a core reports, if it has one to report.
fn report_of(
    programs: &ProgramSet,
    units: &[CoreUnit],
    faults: &[Option<Cause>],
    core: usize,
) -> Option<Cause>
    requires { core < length faults.now }
    ensures { MatchOption result
        ((cause : Cause) → ¬ Reports programs.now.programs units.now faults.now core cause)
        (λ cause. Reports programs.now.programs units.now faults.now core cause) }
{
    faults[core].filter(|cause| reports(programs, units, core, *cause))
}

// The least core that has a fault to report.
fn first_report(
    programs: &ProgramSet,
    units: &[CoreUnit],
    faults: &[Option<Cause>],
) -> Option<(usize, Cause)>
    ensures { MatchOption result
        (NoneReports programs.now.programs units.now faults.now)
        (λ r. IsFirstReport programs.now.programs units.now faults.now r.0 r.1) }
{
    for core in 0..faults.len() {
        if let Some(cause) = report_of(programs, units, faults, core) {
            return Some((core, cause));
        }
    }
    None
}

/// The end of a run of threads, from what its threads gave back: at index c of `units` the unit of core c, and at index c of
/// `faults` the fault that its thread met, if it met one.
///
/// The fault is that of the least core that has one. A 33 in `faults` doesn't count, and a 30 or a 31 counts only if the unit is
/// that core's, has its program, and hasn't ended. If no core has a fault, this compares cores, programs, numbers and
/// configurations; each hand must be empty, and each program must have ended. A difference there is 33 at core 0, slice 0, place
/// 0. Then comes the fault that `audit` finds. Takes no memory.
pub fn accept_run(
    programs: &ProgramSet,
    config: &Config,
    units: Vec<CoreUnit>,
    faults: &[Option<Cause>],
    slices: Vec<ManagerSlice>,
) -> Result<RunEnd, MachineFault>
    ensures run { IfOk result (λ end. IsRun programs.now.programs config.now end.units.items end.slices.items) }
    ensures none { OnOk result (NoneReports programs.now.programs units.items faults.now) }
    ensures kept { IfOk result (λ end. (end.units.items ≡ units.items) × (end.slices.items ≡ slices.items)) }
    ensures short { IfErr result (λ f. (f.cause ≡ GaveUp ⊎ f.cause ≡ Stopped) →
        StoppedShort programs.now.programs f.units.items f.core) }
    // Each refusal is the first report's, or, if there is none, 33, which says why these aren't a whole run.
    ensures refused { IfErr result (λ f.
        IsFirstReport programs.now.programs units.items faults.now f.core f.cause
        ⊎ (NoneReports programs.now.programs units.items faults.now
        × RefusesRun programs.now.programs config.now units.items slices.items f.core f.cause
        × (¬ IsRun programs.now.programs config.now units.items slices.items))) }
    ensures left { IfErr result (λ f. f.units.items ≡ units.items) }
    ensures slices { IfErr result (λ f. f.slices.items ≡ slices.items) }
{
    if let Some((core, cause)) = first_report(programs, &units, faults) {
        return Err(MachineFault {
            core,
            cause,
            units,
            slices,
        });
    }
    match check_run(programs, config, &units, &slices) {
        Ok(()) => Ok(RunEnd { units, slices }),
        Err(fault) => Err(MachineFault {
            core: fault.core,
            cause: Cause::Audit(fault),
            units,
            slices,
        }),
    }
}
