//! Refusals that no event of the core machine meets. Each function does nothing: its contract is the law.

ghost use Rattle.machine_laws.specs.Laws.{RepliesAlwaysFit};
ghost use Rattle.machine_laws.specs.Refusals.{NoProtocolFault, NoRunMeetsOne};

/// No event is refused with 14 BadReply or 11 NotOwner: after any events a kept reply fits the message in hand, and only its owner
/// gives a line back.
pub fn never_refused()
    ensures fits { RepliesAlwaysFit }
    ensures passes { NoProtocolFault }
    ensures runs { NoRunMeetsOne }
{}
