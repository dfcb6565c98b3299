//! What events make of a core and of the reply to its message in hand, which is kept for it once a slice has served that.

ghost use Rattle.std.specs.Prelude.{◌≡◌, true, None, Some};
ghost use Rattle.std.specs.Option.{option_copied};
ghost use Rattle.core_unit.specs.Parts.{SameUnit};
ghost use Rattle.core_machine.specs.Machine.{core_event, is_alone};
ghost use Rattle.core_machine.specs.Seats.{SeatOutcomeLeads, SeatLeads, asked_by, seat_outcome};
ghost use Rattle.tardis_core.specs.inner.Seating.{seat};

use core_machine::Event;
use core_unit::{CoreUnit, Outcome, UnitFault};
use line_stamps::{Message, Reply};

/// Performs an event of the core alone.
#[inline(always)]
pub(crate) fn perform(
    unit: &mut CoreUnit,
    kept: &mut Option<Reply>,
    event: &Event,
) -> Result<Outcome, UnitFault>
    requires own { core_event event.now ≡ Some unit.old.core }
    requires alone { is_alone event.now ≡ true }
    requires free { unit.old.hand ≡ None → kept.old ≡ None }
    ensures outcome { SeatOutcomeLeads (seat_outcome event.now (seat unit.old kept.old))
        result (seat unit.old kept.old) (seat unit.new kept.new) }
    ensures same { SameUnit unit.old unit.new }
    ensures leads { SeatLeads event.now (seat unit.old kept.old) result (seat unit.new kept.new) }
{
    match event {
        Event::Turn(_) => {
            unit.replays();
            unit.turn()
        }
        Event::Take(_) => take(unit, kept),
        Event::Recall(_, recall) => unit.recall(recall),
        Event::Evict(_, addr) => unit.evict(*addr),
        Event::Increment(_) => unit.increment(),
        Event::Serve(_) | Event::Spill(_) => Ok(Outcome::NoEffect),
    }
}

/// The message in the core's hand, if it has no reply yet.
pub(crate) fn asking<'a>(unit: &'a CoreUnit, kept: &Option<Reply>) -> Option<&'a Message>
    ensures { option_copied result ≡ asked_by unit.now.hand kept.now }
{
    match kept {
        None => unit.in_hand(),
        Some(_) => None,
    }
}

// The core takes its kept reply, if there is one.
#[inline(always)]
fn take(unit: &mut CoreUnit, kept: &mut Option<Reply>) -> Result<Outcome, UnitFault>
    ensures outcome { SeatOutcomeLeads (seat_outcome (Event.Take unit.old.core) (seat unit.old kept.old))
        result (seat unit.old kept.old) (seat unit.new kept.new) }
    ensures same { SameUnit unit.old unit.new }
    ensures leads { SeatLeads (Event.Take unit.old.core) (seat unit.old kept.old) result (seat unit.new kept.new) }
{
    let Some(reply) = kept else {
        return Ok(Outcome::NoEffect);
    };
    unit.replays();
    let outcome = unit.take(reply)?;
    *kept = None;
    Ok(outcome)
}
