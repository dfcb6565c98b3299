//! Commands that are drawn between rounds.

ghost use Rattle.std.specs.Prelude.{◌≡◌, ◌%◌, ◌<◌, Some, length, slice_get, MatchResult};
ghost use Rattle.std.specs.Option.{option_map};
ghost use Rattle.core_machine.specs.Parts.{world};
ghost use Rattle.core_unit.specs.Core.{op_addr};
ghost use Rattle.simulation.specs.Drawing.{Disturbs, IsDrawnCommand, IsUndisturbed, after_command, commands_at, cores_left, generator_of, next_address, recall_at};
ghost use Rattle.tardis_core.specs.Picks.{one_word_on, word};

use super::command::Command;
use super::commands::obey;
use super::fault::SimulationFault;
use line_stamps::{Recall, RecallKind, Stamp};
use mem_op::{Addr, CoreId, Op};
use rand_core::SeedableRng;
use rand_core::utils::NextWord;
use rand_pcg::Pcg32;
use tardis_core::Core;
use tardis_core::rounds::pick;

/// What draws the commands, if a seed is given for them.
pub(crate) fn generator_of(stress: Option<u64>) -> Option<Pcg32>
    ensures { result ≡ option_map generator_of stress }
{
    match stress {
        Some(seed) => Some(Pcg32::seed_from_u64(seed)),
        None => None,
    }
}

/// Does a command that is drawn for these cores, which are all that haven't ended; nothing where none
/// is drawn.
pub(crate) fn disturb(
    machine: &mut Core,
    between: &mut Option<Pcg32>,
    left: &[CoreId],
) -> Result<(), SimulationFault>
    requires some { 0 < length left.now }
    requires all { left.now ≡ cores_left (world machine.old) }
    ensures did { MatchResult result
        (λ _. Disturbs between.old machine.old machine.new)
        (λ fault. IsUndisturbed between.old machine.old machine.new fault) }
    ensures moves { between.new ≡ option_map after_command between.old }
{
    match between {
        Some(generator) => {
            let command = draw_command(generator, machine, left);
            obey(machine, &command)
        }
        None => Ok(()),
    }
}

/// Draws a command of one of these cores, at the address of the next operation of one of them.
fn draw_command(generator: &mut Pcg32, machine: &Core, left: &[CoreId]) -> Command
    requires some { 0 < length left.now }
    requires all { left.now ≡ cores_left (world machine.now) }
    ensures command { IsDrawnCommand generator.old (world machine.now) result }
    ensures moves { generator.new ≡ after_command generator.old }
{
    let core = pick(generator, left);
    let other = pick(generator, left);
    let Some(addr) = next_address(machine, other) else {
        unreachable!();
    };
    draw_of(generator, core, addr)
}

/// Draws one of the commands of a core and an address.
fn draw_of(generator: &mut Pcg32, core: CoreId, addr: Addr) -> Command
    ensures command { slice_get (commands_at core addr) (word generator.old % 5) ≡ Some result }
    ensures moves { generator.new ≡ one_word_on generator.old }
{
    let commands = [
        Command::Evict(core, addr),
        Command::Spill(addr),
        Command::Bump(core),
        recall_at(RecallKind::WriteBack, core, addr),
        recall_at(RecallKind::Flush, core, addr),
    ];
    let at = generator.next_word() as usize % commands.len();
    commands[at]
}

/// A recall to a core of the line of an address.
fn recall_at(kind: RecallKind, core: CoreId, addr: Addr) -> Command
    ensures { result ≡ recall_at kind core addr }
{
    Command::Recall(Recall {
        rts: Stamp::ZERO,
        addr,
        owner: core,
        kind,
    })
}

/// The address of the next operation of a core. None is where it has ended or isn't there.
fn next_address(machine: &Core, core: CoreId) -> Option<Addr>
    ensures { result ≡ next_address (world machine.now) core }
{
    let Some(unit) = machine.unit(core) else {
        return None;
    };
    unit.replays();
    match &unit.program_state().next_op(unit.program()) {
        Some(op) => Some(op_addr(op)),
        None => None,
    }
}

/// The address of an operation.
fn op_addr(op: &Op) -> Addr
    ensures { result ≡ op_addr op.now }
{
    match op {
        Op::Load(addr) => *addr,
        Op::Store(addr, _) => *addr,
        Op::Swap(addr, _) => *addr,
    }
}
