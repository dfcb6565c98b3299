//! Whether a set of states is closed.

ghost use Rattle.std.specs.Prelude.{◌≡◌, ◌↔◌, ◌+◌, ℕ, IsTrue, IfOk, MatchBool, slice_set, map};
ghost use Rattle.mem_op.specs.Consistency.{word_left};
ghost use Rattle.flat_replay.specs.Accesses.{address_of};
ghost use Rattle.refutation.specs.States.{put_word, next_of, words_of, LeadsBack, IsRightState, IsClosedSet};
ghost use Rattle.refutation.specs.inner.Seen.{is_among_settled, IsAmong};

use super::dead::is_dead;
use super::fact::Fact;
use super::indexed::Indexed;
use super::moves::{may_go, next_operation, put_word, settle, step};
use super::seen::Seen;
use super::state::{State, StateSet};
use mem_op::{OpId, Word};
use std::alloc::{AllocError, Global};
use trace::{Access, Address, Trace};

/// Whether the state of these indices and words is seen, once everything that passes is performed.
fn is_in(
    alloc: Global,
    trace: &Trace,
    addresses: &[Address],
    seen: &Seen,
    next: &[u64],
    words: Vec<Word>,
) -> Result<bool, AllocError>
    ensures { IfOk result (λ is. is ≡ is_among_settled trace.now addresses.now seen.now.keys next.now words.items) }
{
    let far = settle(alloc, trace, addresses, &words, next)?;
    Ok(seen.has(far, words))
}

/// Whether the state after an operation is seen.
fn leads_into(
    alloc: Global,
    trace: &Trace,
    addresses: &[Address],
    seen: &Seen,
    state: &State,
    found: &(OpId, Access),
) -> Result<bool, AllocError>
    ensures { IfOk result (λ is. is ≡ is_among_settled trace.now addresses.now seen.now.keys
        (slice_set (next_of state.now) found.now.0.core (found.now.0.index + 1))
        (put_word addresses.now (words_of state.now) (address_of found.now.1) (word_left found.now.1))) }
{
    let (id, access) = found;
    let next = step(alloc, state.next(), id)?;
    let words = put_word(
        alloc,
        addresses,
        state.words(),
        access.addr(),
        access.word_left(),
    )?;
    is_in(alloc, trace, addresses, seen, &next, words)
}

/// Whether some core has an operation left, and each that a core may perform next leads to a state that is seen.
fn leads_back(
    alloc: Global,
    trace: &Trace,
    facts: &[Fact],
    addresses: &[Address],
    seen: &Seen,
    state: &State,
) -> Result<bool, AllocError>
    ensures { IfOk result (λ leads. MatchBool leads
        (LeadsBack trace.now facts.now addresses.now (IsAmong seen.now.keys) (next_of state.now) (words_of state.now))
        (¬ LeadsBack trace.now facts.now addresses.now (IsAmong seen.now.keys) (next_of state.now) (words_of state.now))) }
{
    let mut is_left = false;
    for core in 0..trace.cores().len() {
        if let Some(found) = next_operation(trace, state.next(), core) {
            is_left = true;
            if may_go(facts, addresses, state, &found.0, &found.1)
                && !leads_into(alloc, trace, addresses, seen, state, &found)?
            {
                return Ok(false);
            }
        }
    }
    Ok(is_left)
}

/// Whether a state is right: each move from it leads to one that is seen, or it is dead.
fn is_right(
    alloc: Global,
    trace: &Indexed,
    facts: &[Fact],
    addresses: &[Address],
    seen: &Seen,
    state: &State,
) -> Result<bool, AllocError>
    ensures { IfOk result (λ right. MatchBool right
        (IsRightState trace.now facts.now addresses.now (IsAmong seen.now.keys) state.now)
        (¬ IsRightState trace.now facts.now addresses.now (IsAmong seen.now.keys) state.now)) }
{
    match state {
        State::Open { .. } => leads_back(alloc, trace.trace(), facts, addresses, seen, state),
        State::Dead {
            next,
            words,
            limits,
        } => Ok(is_dead(
            trace,
            addresses,
            next.as_slice(),
            words.as_slice(),
            limits.as_slice(),
        )),
    }
}

/// Whether the first state is seen.
fn has_first(
    alloc: Global,
    trace: &Trace,
    addresses: &[Address],
    seen: &Seen,
) -> Result<bool, AllocError>
    ensures { IfOk result (λ has. has ≡ is_among_settled trace.now addresses.now seen.now.keys (map (λ _. 0) trace.now) (map (λ _. 0) addresses.now)) }
{
    let next = vec![in alloc; 0; trace.cores().len()]?;
    let words = vec![in alloc; 0; addresses.len()]?;
    is_in(alloc, trace, addresses, seen, &next, words)
}

/// Whether a set of states has the first one, is closed under every move that the facts allow, and has none in which
/// all is performed.
pub(crate) fn is_closed(
    alloc: Global,
    trace: &Trace,
    facts: &[Fact],
    addresses: &[Address],
    set: &StateSet,
) -> Result<bool, AllocError>
    ensures { IfOk result (λ closed. IsTrue closed ↔ IsClosedSet trace.now facts.now addresses.now set.now) }
{
    let seen = Seen::of(alloc, set.as_slice())?;
    if !has_first(alloc, trace, addresses, &seen)? {
        return Ok(false);
    }
    let indexed = Indexed::of(alloc, trace)?;
    for state in set.as_slice() {
        if !is_right(alloc, &indexed, facts, addresses, &seen, state)? {
            return Ok(false);
        }
    }
    Ok(true)
}
