//! Laws of the texts of traces. Each function does nothing: its contract is the law.

ghost use Rattle.trace.specs.Laws.{AtMostOneFault, SpelledIsRead, SpellsOne};

/// Bytes are the text of at most one trace: the one that `Trace::parse` gives.
pub fn spells_one()
    ensures { SpellsOne }
{}

/// A trace's text has no fault: `Trace::parse` gives the trace, and refuses it only for lack of memory.
pub fn spelled_is_read()
    ensures { SpelledIsRead }
{}

/// Bytes that aren't a trace's text have exactly one first fault.
pub fn one_fault()
    ensures { AtMostOneFault }
{}
