//! Answers, each with what shows it.

ghost use Rattle.std.specs.Prelude.{◌≡◌, IfOk};
ghost use Rattle.refutation.specs.Answers.{IsRight, IsShown};

use super::refuting::refutes;
use super::step::Refutation;
use mem_op::OpId;
use std::alloc::{AllocError, Global};
use trace::{Trace, replays};

/// Whether a trace is consistent, with what shows it.
#[derive(Debug, Drop)]
pub enum Answer {
    /// It is, by this order of its operations.
    Order(Vec<OpId>),
    /// It isn't, by this refutation.
    Refutation(Refutation),
    /// Nothing shows either.
    Undecided,
}

/// The answer, if what comes with it shows it; otherwise Undecided. This doesn't trust whoever made the answer. Err if
/// memory was refused.
pub fn confirm(alloc: Global, trace: &Trace, claim: Answer) -> Result<Answer, AllocError>
    ensures right { IfOk result (IsRight trace.now) }
    ensures shown { IfOk result (IsShown trace.now) }
    ensures kept { IfOk result (λ answer. IsShown trace.now claim → answer ≡ claim) }
    ensures undecided { IfOk result (λ answer. ¬ IsShown trace.now claim → answer ≡ Answer.Undecided) }
{
    let shown = match &claim {
        Answer::Order(order) => replays(alloc, trace.cores(), order)?,
        Answer::Refutation(refutation) => refutes(alloc, trace, refutation)?,
        Answer::Undecided => true,
    };
    Ok(if shown { claim } else { Answer::Undecided })
}
