//! Laws of the numbers. Each function does nothing: its contract is the law.

ghost use Rattle.statistics.specs.Laws.{LogsAreCounted, SumsAgree};

/// A core has as many operations as its log has records, and each is a load, a store or a swap.
pub fn logs_are_counted()
    ensures { LogsAreCounted }
{}

/// If transcripts and histories agree, which an audit checks for a run, a core took as many replies of any kind from a slice as that slice
/// served messages of the core with such replies.
pub fn sums_agree()
    ensures { SumsAgree }
{}
