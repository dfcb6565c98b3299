//! Laws of programs. Each function does nothing: its contract is the law.

ghost use Rattle.core_program.specs.Laws.{ConformingIsNoFault, FaultIsWhereLogDiffers};
ghost use Rattle.core_program.specs.Laws.{FewOperations, NoSwapsInFormatOne, RunsArePaths};

/// Between states at rest, operations lead to a state exactly if a path of the program does.
pub fn runs_are_paths()
    ensures { RunsArePaths }
{}

/// A log conforms to a program exactly if it has no PROGRAM fault.
pub fn conforming_is_no_fault()
    ensures { ConformingIsNoFault }
{}

/// The PROGRAM fault of a log is the one index at which it differs from the operations that the program issues.
pub fn fault_is_where_log_differs()
    ensures { FaultIsWhereLogDiffers }
{}

/// A program issues at most 4,096 operations.
pub fn few_operations()
    ensures { FewOperations }
{}

/// A program of format 1 performs no swap.
pub fn no_swaps_in_format_one()
    ensures { NoSwapsInFormatOne }
{}
