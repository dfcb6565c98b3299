//! A whole simulation.

ghost use Rattle.std.specs.Prelude.{MatchResult, OnOk};
ghost use Rattle.simulation.specs.Events.{IsSimulatedByRun};
ghost use Rattle.core_machine.specs.Parts.{world};
ghost use Rattle.simulation.specs.Simulating.{IsEnded, IsSimulated, IsSimulationFault, IsUnended, NoneIsLeft};
ghost use Rattle.tardis_core.specs.Rounds.{IsRunTo};

use super::command::Command;
use super::commands::follow;
use super::drawing::draw_out;
use super::fault::SimulationFault;
use super::finishing::finish_all;
use std::alloc::Global;
use tardis_core::Core;

/// Does what the commands say, and then takes all cores to the ends of their programs: with a seed by rounds of drawn cores,
/// and without one core 0 first, then core 1, and so on. A seed for stress draws a command before each round, and the rounds
/// too if it is the only seed. The first refusal ends it, and what was done before stays done.
pub fn simulate(
    alloc: Global,
    machine: &mut Core,
    commands: &[Command],
    seed: Option<u64>,
    stress: Option<u64>,
) -> Result<(), SimulationFault>
    ensures simulated { MatchResult result
        (λ _. IsSimulated commands.now seed stress machine.old machine.new)
        (λ fault. IsSimulationFault commands.now seed stress machine.old machine.new fault) }
    ensures ended { OnOk result (NoneIsLeft (world machine.new)) }
    // What was done is one run of the core machine, made of just the events of the commands and the rounds.
    ensures events { OnOk result (IsSimulatedByRun commands.now seed stress machine.old machine.new) }
    // What was done before a refusal is one too.
    ensures run { IsRunTo machine.old machine.new }
{
    follow(machine, commands)?;
    end_all(alloc, machine, seed, stress)
}

/// Takes all cores to the ends of their programs.
fn end_all(
    alloc: Global,
    machine: &mut Core,
    seed: Option<u64>,
    stress: Option<u64>,
) -> Result<(), SimulationFault>
    ensures { MatchResult result
        (λ _. IsEnded seed stress machine.old machine.new)
        (λ fault. IsUnended seed stress machine.old machine.new fault) }
{
    match seed {
        Some(seed) => draw_out(alloc, machine, seed, stress),
        None => match stress {
            Some(both) => draw_out(alloc, machine, both, stress),
            None => finish_all(machine),
        },
    }
}
