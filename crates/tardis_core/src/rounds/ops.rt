//! Rounds until a core has performed an operation, or all of them.

ghost use Rattle.std.specs.Prelude.{◌≡◌, true, MatchResult};
ghost use Rattle.core_machine.specs.Parts.{world};
ghost use Rattle.tardis_core.specs.Rounds.{IsFinishFault, IsFinished, IsOp, IsOpFault, IsOpIfLeft, IsRefusedRound, IsRound, IsRunTo};
ghost use Rattle.core_machine.specs.Works.{has_next};

use super::fault::{RoundCause, RoundFault};
use super::hand::has_next;
use super::stages::make_round;
use crate::machine::Core;
use mem_op::CoreId;

/// The most rounds for one operation.
pub const MAX_ROUNDS_PER_OPERATION: u16 = 1_000;

/// Makes a round of a core. If it has no message in hand, it makes a turn. Then, if it has a message
/// without a reply, the slice serves it. Then, if it has a message with its reply, it takes the
/// reply. If that was Busy, the recall goes to the owner, which may be this core too. If the owner
/// gives the line back, the slice serves that, and the owner takes the reply. Each stage looks at
/// the state after the one before, so after a turn that performs an operation nothing more happens.
/// A core that isn't there does nothing.
///
/// If an event is refused, the fault names the core whose event it was, and the cause. The machine
/// is where the events before led.
pub fn round(machine: &mut Core, core: CoreId) -> Result<(), RoundFault>
    ensures round { MatchResult result
        (λ _. IsRound core machine.old machine.new)
        (λ fault. IsRefusedRound core machine.old machine.new fault) }
    ensures run { IsRunTo machine.old machine.new }
{
    make_round(machine, core)?;
    Ok(())
}

/// Makes rounds of a core until it has performed one more operation. Does nothing if the core's
/// program has ended, even if a give-back is in hand, or if the core isn't there.
///
/// If 1,000 rounds weren't enough, the fault is 30 GaveUp with this core. If an event is refused, it
/// names the core whose event it was, and the cause. The machine is where the events before led.
pub fn op(machine: &mut Core, core: CoreId) -> Result<(), RoundFault>
    ensures op { MatchResult result
        (λ _. IsOpIfLeft core machine.old machine.new)
        (λ fault. IsOpFault core machine.old machine.new fault) }
    ensures run { IsRunTo machine.old machine.new }
{
    if !has_next(machine, core) {
        return Ok(());
    }
    perform_next(machine, core)
}

/// Makes rounds of a core until its program has ended, which takes at most 4,096 operations.
/// Its refusals are those of one of its operations, 30 GaveUp among them.
pub fn finish(machine: &mut Core, core: CoreId) -> Result<(), RoundFault>
    ensures finish { MatchResult result
        (λ _. IsFinished core machine.old machine.new)
        (λ fault. IsFinishFault core machine.old machine.new fault) }
    ensures run { IsRunTo machine.old machine.new }
{
    while has_next(machine, core) {
        perform_next(machine, core)?;
    }
    Ok(())
}

// Makes rounds of a core, which has an operation left, until it has performed that.
fn perform_next(machine: &mut Core, core: CoreId) -> Result<(), RoundFault>
    requires { has_next (world machine.old) core ≡ true }
    ensures op { MatchResult result
        (λ _. IsOp core machine.old machine.new)
        (λ fault. IsOpFault core machine.old machine.new fault) }
    ensures run { IsRunTo machine.old machine.new }
{
    for _ in 0..MAX_ROUNDS_PER_OPERATION {
        if make_round(machine, core)? {
            return Ok(());
        }
    }
    Err(RoundFault {
        core,
        fault: RoundCause::GaveUp,
    })
}
