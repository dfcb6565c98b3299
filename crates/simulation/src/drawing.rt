//! Rounds of drawn cores, and commands that are drawn between them.

ghost use Rattle.std.specs.Prelude.{◌≡◌, ◌<◌, ◌≤◌, ◌⊎◌, if◌then◌else◌, length, slice_set, IfOk, IfErr, OnOk, MatchResult};
ghost use Rattle.simulation.specs.Drawing.{IsDrawFault, IsDrawnOut, cores_left, waited, without};
ghost use Rattle.core_machine.specs.Parts.{world};
ghost use Rattle.tardis_core.specs.Rounds.{IsRefusedRound, IsRound};
ghost use Rattle.core_machine.specs.Works.{has_next, log_at};
ghost use Rattle.tardis_core.specs.declared.rounds.fault.RoundCause.TheVariants.{GaveUp};

use super::disturbing::{disturb, generator_of};
use super::fault::SimulationFault;
use mem_op::CoreId;
use rand_core::SeedableRng;
use rand_pcg::Pcg32;
use std::alloc::{AllocError, Global};
use tardis_core::Core;
use tardis_core::rounds::{
    MAX_ROUNDS_PER_OPERATION, RoundCause, RoundFault, has_next, pick, round,
};

/// Draws a core with an operation left for each round, until none is left, and before each round a
/// command where a seed for stress is given.
pub(crate) fn draw_out(
    alloc: Global,
    machine: &mut Core,
    seed: u64,
    stress: Option<u64>,
) -> Result<(), SimulationFault>
    ensures { MatchResult result
        (λ _. IsDrawnOut seed stress machine.old machine.new)
        (λ fault. IsDrawFault seed stress machine.old machine.new fault) }
{
    let mut generator = Pcg32::seed_from_u64(seed);
    let mut between = generator_of(stress);
    let mut waits = [0; 64];
    let mut left = list_cores_left(alloc, machine)?;
    while !left.is_empty() {
        let cores = left.as_slice();
        disturb(machine, &mut between, cores)?;
        let core = pick(&mut generator, cores);
        drawn_round(machine, core, &mut waits)?;
        strike_if_ended(machine, core, &mut left);
    }
    Ok(())
}

/// Makes a round of a core that was drawn: 30 GaveUp if it is the core's 1,000th since its last operation, and brings none.
fn drawn_round(machine: &mut Core, core: CoreId, waits: &mut [u16; 64]) -> Result<(), RoundFault>
    ensures round { OnOk result (IsRound core machine.old machine.new) }
    ensures waits { OnOk result
        (waits.new ≡ slice_set waits.old core (waited waits.old core machine.old machine.new)) }
    ensures few { OnOk result (waited waits.old core machine.old machine.new < 1000) }
    ensures fault { IfErr result (λ fault. IsRefusedRound core machine.old machine.new fault
        ⊎ (IsRound core machine.old machine.new
        × (1000 ≤ waited waits.old core machine.old machine.new)
        × (fault ≡ record { core = core; fault = GaveUp }))) }
{
    let before = performed(machine, core);
    round(machine, core)?;
    let wait = &mut waits[core.get() as usize];
    if before < performed(machine, core) {
        *wait = 0;
        return Ok(());
    }
    if *wait >= MAX_ROUNDS_PER_OPERATION - 1 {
        return Err(RoundFault {
            core,
            fault: RoundCause::GaveUp,
        });
    }
    *wait += 1;
    Ok(())
}

/// How many operations a core has performed.
fn performed(machine: &Core, core: CoreId) -> usize
    ensures { result ≡ length (log_at (world machine.now) core) }
{
    let Some(unit) = machine.unit(core) else {
        return 0;
    };
    unit.log().len()
}

/// The cores that haven't ended, in ascending order.
fn list_cores_left(alloc: Global, machine: &Core) -> Result<Vec<CoreId>, AllocError>
    ensures { IfOk result (λ left. left.items ≡ cores_left (world machine.now)) }
{
    let mut left = Vec::new(alloc);
    for number in 0..64 {
        let core = CoreId::at(number);
        if has_next(machine, core) {
            left.push(core)?;
        }
    }
    Ok(left)
}

/// Strikes a core off a list if it has ended.
fn strike_if_ended(machine: &Core, core: CoreId, left: &mut Vec<CoreId>)
    ensures { left.new.items ≡ (if has_next (world machine.now) core then left.old.items
        else without core left.old.items) }
{
    if !has_next(machine, core) {
        left.retain(|other| *other != core);
    }
}
