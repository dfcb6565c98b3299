//! Reads the line of a set of states.

ghost use Rattle.std.specs.Prelude.{codes, IfOk, MatchOption};
ghost use Rattle.refutation.specs.inner.StateLines.{PartInFront, NoPartInFront, StateInFront, NoStateInFront};
ghost use Rattle.refutation.specs.inner.Telling.{TellsStep};

use super::state::{Numbers, State, StateSet};
use super::step::Step;
use decimal_text::after_text;
use std::alloc::{AllocError, Global};
use text_lines::{ends_word, read_spaced};

/// The numbers after a sign, each with a space before it, and the bytes after them; None if the bytes don't begin with the
/// sign, or a word goes on after the numbers.
#[tactic(auto, using(text_lines::proofs::SpacedWords::numbers_are_words, text_lines::proofs::SpacedWords::word_shorter))]
fn read_part<'a>(
    alloc: Global,
    sign: &[u8],
    bytes: &'a [u8],
) -> Result<Option<(Numbers, &'a [u8])>, AllocError>
    ensures { IfOk result (λ found. MatchOption found
        (NoPartInFront sign.now bytes.now)
        (λ x. PartInFront sign.now bytes.now x.0 x.1.now)) }
{
    let Some(fields) = after_text(sign, bytes) else {
        return Ok(None);
    };
    let mut numbers = Vec::new(alloc);
    let mut rest = fields;
    while let Some((number, behind)) = read_spaced(rest) {
        numbers.push(number)?;
        rest = behind;
    }
    if !ends_word(rest) {
        return Ok(None);
    }
    Ok(Some((Numbers::new(numbers), rest)))
}

/// The state that the bytes begin with, and the bytes after it.
fn read_state(alloc: Global, bytes: &[u8]) -> Result<Option<(State, &[u8])>, AllocError>
    ensures { IfOk result (λ found. MatchOption found
        (NoStateInFront bytes.now)
        (λ x. StateInFront x.0 bytes.now x.1.now)) }
{
    if let Some((next, rest)) = read_part(alloc, b" |", bytes)? {
        let Some((words, rest)) = read_part(alloc, b" :", rest)? else {
            return Ok(None);
        };
        return Ok(Some((State::Open { next, words }, rest)));
    }
    let Some((next, rest)) = read_part(alloc, b" !", bytes)? else {
        return Ok(None);
    };
    let Some((words, rest)) = read_part(alloc, b" :", rest)? else {
        return Ok(None);
    };
    let Some((limits, rest)) = read_part(alloc, b" :", rest)? else {
        return Ok(None);
    };
    let state = State::Dead {
        next,
        words,
        limits,
    };
    Ok(Some((state, rest)))
}

/// The step that closes a case by a set of states and has these fields; None if there is no such step.
pub(crate) fn read_states(alloc: Global, fields: &[u8]) -> Result<Option<Step>, AllocError>
    ensures { IfOk result (TellsStep (codes "states") fields.now) }
{
    let Some((addresses, behind)) = read_part(alloc, b"", fields)? else {
        return Ok(None);
    };
    let mut states = Vec::new(alloc);
    let mut rest = behind;
    while let Some((state, behind)) = read_state(alloc, rest)? {
        states.push(state)?;
        rest = behind;
    }
    if !rest.is_empty() {
        return Ok(None);
    }
    let set = StateSet::new(states);
    Ok(Some(Step::States { addresses, set }))
}
