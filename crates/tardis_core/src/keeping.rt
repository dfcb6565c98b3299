//! The events that a machine keeps.

ghost use Rattle.std.specs.Prelude.{◌≡◌, ◌∷◌, ◌++◌, [], IfSome, IsSomeAnd};
ghost use Rattle.tardis_core.specs.Keeping.{LeadTo};

use super::machine::Core;
use core_machine::Event;

impl Core {
    /// The events that it has performed since its start, in order, those without effect among them; none
    /// if it wasn't asked to keep them, or if memory for one of them was refused.
    pub fn events(&self) -> Option<&[Event]>
        ensures { IfSome result (λ events. LeadTo events.now self.now) }
    {
        match &self.events {
            Some(events) => Some(events.as_slice()),
            None => None,
        }
    }
}

/// Keeps an event behind those before it, if events are kept. A refused growth ends the keeping, since it may
/// not refuse the event.
pub(crate) fn keep(kept: &mut Option<Vec<Event>>, event: &Event)
    ensures { IfSome kept.new (λ events. IsSomeAnd kept.old
        (λ before. events.items ≡ before.items ++ event.now ∷ [])) }
{
    let Some(mut events) = kept.take() else {
        return;
    };
    if events.push(*event).is_ok() {
        *kept = Some(events);
    }
}
