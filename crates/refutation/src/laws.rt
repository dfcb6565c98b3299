//! Laws of refutations. Each function does nothing: its contract is the law.

ghost use Rattle.refutation.specs.Laws.{Complete, RefutationsHold};
ghost use Rattle.refutation.specs.TextLaws.{AtMostOneFault, SpelledIsRead};

/// A trace that has a refutation isn't consistent.
#[tactic(auto, using(crate::proofs::Sound::refutations_hold))]
pub fn refutations_hold()
    ensures { RefutationsHold }
{}

/// A trace that isn't consistent has a refutation: no rule is missing.
#[tactic(auto, using(crate::proofs::ReachedSets::is_complete))]
pub fn complete()
    ensures { Complete }
{}

/// The text of a refutation belongs to no other, and it has no fault: parsing gives that refutation, and refuses it only for
/// lack of memory.
#[tactic(auto, using(crate::proofs::OneText::spelled))]
pub fn spelled_is_read()
    ensures { SpelledIsRead }
{}

/// Bytes have at most one fault, lack of memory aside: one first bad line.
#[tactic(auto, using(crate::proofs::OneText::at_most_one))]
pub fn one_fault()
    ensures { AtMostOneFault }
{}
