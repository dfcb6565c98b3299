//! The law. The function does nothing: its contract is the law.

ghost use Rattle.sc_axioms.specs.Laws.{DefinitionsAgree};

/// A trace has an order in which each load answers the last earlier store exactly if it has a candidate execution in which
/// program order, reads-from, coherence order and from-read have no cycle.
pub fn definitions_agree()
    ensures both_ways { DefinitionsAgree }
{}
