//! What a core has in hand, and whether it has operations left.

ghost use Rattle.std.specs.Prelude.{◌≡◌};
ghost use Rattle.core_machine.specs.Parts.{world};
ghost use Rattle.core_machine.specs.Works.{has_next};
ghost use Rattle.tardis_core.specs.Hands.{hand_at};

use crate::machine::Core;
use mem_op::CoreId;

/// The state of a core's hand.
#[derive(Clone, Copy, Debug, PartialEq, Eq)]
pub(crate) enum Hand {
    /// The core isn't there.
    Absent,
    /// No message.
    Empty,
    /// A message that has no reply yet.
    Asking,
    /// A message whose reply is kept.
    Answered,
}

/// The state of a core's hand.
pub(crate) fn hand_at(machine: &Core, core: CoreId) -> Hand
    ensures { result ≡ hand_at (world machine.now) core }
{
    let Some(unit) = machine.unit(core) else {
        return Hand::Absent;
    };
    if unit.in_hand().is_none() {
        return Hand::Empty;
    }
    if machine.kept(core).is_none() {
        Hand::Asking
    } else {
        Hand::Answered
    }
}

/// Whether a core has an operation left. It has none if its program has ended or the core isn't there.
pub fn has_next(machine: &Core, core: CoreId) -> bool
    ensures { result ≡ has_next (world machine.now) core }
{
    let Some(unit) = machine.unit(core) else {
        return false;
    };
    unit.replays();
    unit.program_state().next_op(unit.program()).is_some()
}
