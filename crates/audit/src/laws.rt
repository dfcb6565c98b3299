//! Laws of merges. Each function does nothing: its contract is the law.

ghost use Rattle.audit.specs.Events.{MergesAreRuns, WholeRunsAreRuns};

/// If the whole lists of the units and slices of a machine have a merge, the events in it lead from the start of the programs
/// to the states of these units and slices.
pub fn merges_are_runs()
    ensures merges { MergesAreRuns }
    ensures whole { WholeRunsAreRuns }
{}
