//! The search. What it finds is shown to be right before it is answered.

ghost use Rattle.std.specs.Prelude.{IfOk};
ghost use Rattle.refutation.specs.Answers.{IsRight, IsShown};

use super::finding::guess;
use numbered_trace::{SearchWatch, Unwatched};
use refutation::{Answer, confirm};
use std::alloc::{AllocError, Global};
use trace::Trace;

/// Whether a trace is consistent, with what shows it: an order, or a refutation. Undecided if the search found neither in so many steps. It
/// tries the order as written first, for no step. The answer depends only on the trace, on how it was written, and on the budget. Err if
/// memory was refused.
pub fn search(alloc: Global, trace: &Trace, budget: u64) -> Result<Answer, AllocError>
    ensures right { IfOk result (IsRight trace.now) }
    ensures shown { IfOk result (IsShown trace.now) }
{
    search_watched(alloc, trace, budget, &Unwatched)
}

/// The same. The watch hears how far the search is, and may stop it.
pub fn search_watched<W: SearchWatch>(
    alloc: Global,
    trace: &Trace,
    budget: u64,
    watch: &W,
) -> Result<Answer, AllocError>
    ensures right { IfOk result (IsRight trace.now) }
    ensures shown { IfOk result (IsShown trace.now) }
{
    let written = Answer::Order(trace.as_written(alloc)?);
    let confirmed = confirm(alloc, trace, written)?;
    if !matches!(confirmed, Answer::Undecided) {
        watch.found();
        return Ok(confirmed);
    }
    let found = guess(alloc, trace, budget, watch);
    watch.found();
    confirm(alloc, trace, found?)
}
