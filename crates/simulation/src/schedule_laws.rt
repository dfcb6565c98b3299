//! Laws of the texts. Each function does nothing: its contract is the law.

ghost use Rattle.simulation.specs.ScheduleLaws.{SpelledIsRead, AtMostOneFault};

/// The text of a schedule belongs to no other, and it has no fault: `parse` gives that schedule, and refuses it only for
/// lack of memory.
pub fn spelled_is_read()
    ensures { SpelledIsRead }
{}

/// Bytes have at most one fault, lack of memory aside: one first bad line.
pub fn one_fault()
    ensures { AtMostOneFault }
{}
