//! Laws of replays. Each function does nothing: its contract is the law.

ghost use Rattle.trace_replay.specs.Laws.{AtMostOneAnswer, IsOfTrace};

/// Bytes have at most one verdict, and none if a bad line comes before any wrong load.
pub fn one_answer()
    ensures { AtMostOneAnswer }
{}

/// The steps that lines tell have the operations of the lines' trace.
pub fn same_trace()
    ensures { IsOfTrace }
{}
