//! The check of a refutation.

ghost use Rattle.std.specs.Prelude.{◌<◌, ◌^◌, ◌↔◌, IsTrue, IfOk, IfSome, MatchOption};
ghost use Rattle.mem_op.specs.Consistency.{IsConsistent};
ghost use Rattle.refutation.specs.Refuting.{IsRefutation, IsFirstWrong};

use super::cases::Cases;
use super::rules::given;
use super::step::Refutation;
use std::alloc::{AllocError, Global};
use trace::Trace;

/// The place of the first step that isn't right or comes after the last case was closed; the number of steps if cases are
/// left after the last step; None if the steps are a refutation of the trace. This doesn't trust whoever made them. Err if
/// memory was refused.
#[tactic(auto, using(crate::proofs::Leaving::right_next))]
pub fn first_wrong_step(
    alloc: Global,
    trace: &Trace,
    refutation: &Refutation,
) -> Result<Option<usize>, AllocError>
    ensures first { IfOk result (λ wrong. MatchOption wrong
        (IsRefutation trace.now refutation.now)
        (λ place. IsFirstWrong trace.now refutation.now place)) }
    ensures in_range { IfOk result (λ wrong. IfSome wrong (λ place. place < 2 ^ 63)) }
{
    let steps = refutation.as_slice();
    let mut cases = Cases::new(alloc);
    for (place, step) in steps.iter().enumerate() {
        let Some(given) = given(alloc, trace, cases.facts(), step)? else {
            return Ok(Some(place));
        };
        let Some(left) = cases.split(given)? else {
            let next = place + 1;
            return Ok((next < steps.len()).then_some(next));
        };
        cases = left;
    }
    Ok(Some(steps.len()))
}

/// Whether the steps are a refutation of the trace. If they are, the trace isn't consistent. This doesn't trust whoever made
/// the steps. Err if memory was refused.
#[tactic(auto, using(crate::proofs::Leaving::wrong_none, crate::proofs::Sound::refutations_hold))]
pub fn refutes(alloc: Global, trace: &Trace, refutation: &Refutation) -> Result<bool, AllocError>
    ensures exact { IfOk result (λ refuted. IsTrue refuted ↔ IsRefutation trace.now refutation.now) }
    ensures sound { IfOk result (λ refuted. IsTrue refuted → ¬ IsConsistent trace.now) }
{
    Ok(first_wrong_step(alloc, trace, refutation)?.is_none())
}
