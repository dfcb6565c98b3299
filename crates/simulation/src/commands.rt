//! The commands of a schedule.

ghost use Rattle.std.specs.Prelude.{◌≡◌, Some, MatchResult};
ghost use Rattle.simulation.specs.Commands.{Follows, EventLeadsAnyhow, IsRefusedAt, IsRefusedCommand, IsRefusedSpill, IsUnfollowed, CommandLeads};
ghost use Rattle.core_machine.specs.Machine.{core_event};

use super::command::Command;
use super::fault::SimulationFault;
use mem_op::{Addr, CoreId};
use tardis_core::rounds::{RoundCause, RoundFault, finish, op, round};
use tardis_core::{Core, CoreFault, Event};

/// Does what the commands say, one after the other, up to the first that is refused.
pub(crate) fn follow(machine: &mut Core, commands: &[Command]) -> Result<(), SimulationFault>
    ensures { MatchResult result
        (λ _. Follows machine.old commands.now machine.new)
        (λ fault. IsUnfollowed machine.old commands.now machine.new fault) }
{
    for command in commands {
        obey(machine, command)?;
    }
    Ok(())
}

/// Does what a command says.
pub(crate) fn obey(machine: &mut Core, command: &Command) -> Result<(), SimulationFault>
    ensures { MatchResult result
        (λ _. CommandLeads machine.old command.now machine.new)
        (λ fault. IsRefusedCommand machine.old command.now machine.new fault) }
{
    match command {
        Command::Turn(core) => step_core(machine, *core, Event::Turn(*core)),
        Command::Serve(core) => step_core(machine, *core, Event::Serve(*core)),
        Command::Take(core) => step_core(machine, *core, Event::Take(*core)),
        Command::Recall(recall) => {
            step_core(machine, recall.owner, Event::Recall(recall.owner, *recall))
        }
        Command::Evict(core, addr) => step_core(machine, *core, Event::Evict(*core, *addr)),
        Command::Spill(addr) => spill(machine, *addr),
        Command::Bump(core) => step_core(machine, *core, Event::Increment(*core)),
        Command::Round(core) => Ok(round(machine, *core)?),
        Command::Op(core) => Ok(op(machine, *core)?),
        Command::Finish(core) => Ok(finish(machine, *core)?),
    }
}

/// Makes an event of a core. A refusal names the core.
fn step_core(machine: &mut Core, core: CoreId, event: Event) -> Result<(), SimulationFault>
    requires own { core_event event ≡ Some core }
    ensures { MatchResult result
        (λ _. EventLeadsAnyhow machine.old event machine.new)
        (λ fault. IsRefusedAt machine.old event core machine.new fault) }
{
    match machine.step(event) {
        Ok(_) => Ok(()),
        Err(fault) => Err(SimulationFault::Core(RoundFault {
            core,
            fault: RoundCause::Core(fault),
        })),
    }
}

/// Spills the line of an address, if it is Shared.
fn spill(machine: &mut Core, addr: Addr) -> Result<(), SimulationFault>
    ensures { MatchResult result
        (λ _. EventLeadsAnyhow machine.old (Event.Spill addr) machine.new)
        (λ fault. (machine.new ≡ machine.old) × IsRefusedSpill machine.old addr fault) }
{
    let number = machine.config().slice_of(addr);
    match machine.step(Event::Spill(addr)) {
        Ok(_) => Ok(()),
        Err(CoreFault::Slice(fault)) => Err(SimulationFault::Slice { number, fault }),
        Err(CoreFault::Unit(_)) => unreachable!(),
    }
}
