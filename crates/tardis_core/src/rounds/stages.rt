//! The stages of a round.

ghost use Rattle.std.specs.Prelude.{◌≡◌, ℕ, Some, MatchResult};
ghost use Rattle.core_machine.specs.Machine.{core_event};
ghost use Rattle.core_machine.specs.Parts.{world};
ghost use Rattle.tardis_core.specs.Rounds.{IsCauseOf, EventLeadsTelling, IsPart, IsRefusedRound, IsRound, IsStopped, Over, ToRecall, ToServe, ToTake, ToTurn, stage_of, told_by};
ghost use Rattle.core_machine.specs.Steps.{step_outcome};
ghost use Rattle.tardis_core.specs.Hands.{Worked};

use super::fault::{RoundCause, RoundFault};
use super::hand::{Hand, hand_at};
use crate::machine::Core;
use core_machine::Event;
use core_unit::Outcome;
use line_stamps::Recall;
use mem_op::CoreId;

/// The part of an outcome that a round uses.
#[derive(Clone, Copy, Debug, PartialEq, Eq)]
pub(crate) enum Told {
    /// The core performed an operation.
    Performed,
    /// The slice can't serve the request yet, and the round should offer this recall.
    Busy(Recall),
    /// The core gave a line back.
    Gave,
    /// Any other outcome.
    Other,
}

// The part of an outcome that a round uses.
fn told_by(outcome: &Outcome) -> Told
    ensures { result ≡ told_by outcome.now }
{
    match outcome {
        Outcome::Performed(_) => Told::Performed,
        Outcome::Busy(recall) => Told::Busy(*recall),
        Outcome::Gave(_) => Told::Gave,
        _ => Told::Other,
    }
}

// Makes an event of a core, and answers the part of its outcome that a round uses.
#[inline(always)]
fn step_told(machine: &mut Core, core: CoreId, event: Event) -> Result<Told, RoundFault>
    requires own { core_event event ≡ Some core }
    ensures { MatchResult result
        (λ told. EventLeadsTelling machine.old event told machine.new)
        (λ fault. (machine.new ≡ machine.old) × (fault.core ≡ core)
        × IsCauseOf (step_outcome machine.old event) fault.fault) }
{
    match &machine.step(event) {
        Ok(outcome) => Ok(told_by(outcome)),
        Err(fault) => Err(RoundFault {
            core,
            fault: RoundCause::Core(*fault),
        }),
    }
}

// Makes a turn if no message is in hand, otherwise does nothing. Answers whether the core performed an operation.
fn turn(machine: &mut Core, core: CoreId) -> Result<bool, RoundFault>
    ensures { MatchResult result
        (λ performed. IsPart core ToTurn machine.old machine.new ToServe
        × Worked core performed (world machine.old) (world machine.new))
        (λ fault. IsStopped core ToTurn machine.old machine.new fault) }
{
    match hand_at(machine, core) {
        Hand::Empty => {
            let told = step_told(machine, core, Event::Turn(core))?;
            Ok(matches!(told, Told::Performed))
        }
        _ => Ok(false),
    }
}

// Has the slice serve the message in hand if it has no reply yet, otherwise does nothing.
fn serve(machine: &mut Core, core: CoreId) -> Result<(), RoundFault>
    ensures { MatchResult result
        (λ _. IsPart core ToServe machine.old machine.new ToTake)
        (λ fault. IsStopped core ToServe machine.old machine.new fault) }
{
    match hand_at(machine, core) {
        Hand::Asking => {
            step_told(machine, core, Event::Serve(core))?;
            Ok(())
        }
        _ => Ok(()),
    }
}

// Takes the reply to the message in hand if it has one, otherwise does nothing.
fn take(machine: &mut Core, core: CoreId) -> Result<Told, RoundFault>
    ensures { MatchResult result
        (λ told. IsPart core ToTake machine.old machine.new (stage_of told))
        (λ fault. IsStopped core ToTake machine.old machine.new fault) }
{
    match hand_at(machine, core) {
        Hand::Answered => {
            let told = step_told(machine, core, Event::Take(core))?;
            Ok(told)
        }
        _ => Ok(Told::Other),
    }
}

// Offers the recall to its owner, in whichever core's round. If the owner gives the line back, the slice serves that, and the
// owner takes the reply.
fn offer(machine: &mut Core, recall: &Recall) -> Result<(), RoundFault>
    ensures { MatchResult result
        (λ _. (c : ℕ) → IsPart c (ToRecall recall.now) machine.old machine.new Over)
        (λ fault. (c : ℕ) → IsStopped c (ToRecall recall.now) machine.old machine.new fault) }
{
    let owner = recall.owner;
    match step_told(machine, owner, Event::Recall(owner, *recall))? {
        Told::Gave => {
            step_told(machine, owner, Event::Serve(owner))?;
            step_told(machine, owner, Event::Take(owner))?;
            Ok(())
        }
        _ => Ok(()),
    }
}

/// Makes a round of a core. Answers whether it performed an operation. That ends the round, since no
/// message is in hand then.
pub(crate) fn make_round(machine: &mut Core, core: CoreId) -> Result<bool, RoundFault>
    ensures { MatchResult result
        (λ performed. IsRound core machine.old machine.new
        × Worked core performed (world machine.old) (world machine.new))
        (λ fault. IsRefusedRound core machine.old machine.new fault) }
{
    if turn(machine, core)? {
        return Ok(true);
    }
    serve(machine, core)?;
    if let Told::Busy(recall) = &take(machine, core)? {
        offer(machine, recall)?;
    }
    Ok(false)
}
