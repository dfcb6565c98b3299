//! Reads the lines that are made of words.

ghost use Rattle.std.specs.Prelude.{◌≡◌, ◌≢◌, ◌≤◌, List, [], ◌∷◌, ◌++◌, None, Some, min, IfOk, MatchBool, MatchOption};
ghost use Rattle.litmus.specs.TestGrammar.{AreShown, IsOutcome, forbid_text, show_text};
ghost use Rattle.litmus.specs.Parts.{ShownParts};
ghost use Rattle.litmus.specs.inner.Reading.{shown_at, shown_now};
ghost use Rattle.text_lines.specs.Fields.{below};
ghost use Rattle.text_lines.specs.Items.{ItemInFront, NoItemInFront};

use super::test::Shown;
use core_program::Register;
use decimal_text::{after_text, read_number};
use mem_op::CoreId;
use std::alloc::{AllocError, Global};
use text_lines::{ends_word, next_line, read_spaced};

/// The most registers that a test shows.
const SHOWN_LIMIT: usize = 8;

/// The core of this number, if it is below `cores`, and below 64.
fn core_of(cores: u64, number: u64) -> Option<CoreId>
    ensures { result ≡ below (min cores 64) number }
{
    let core = CoreId::new(number).ok()?;
    if number < cores { Some(core) } else { None }
}

/// A space and then a register of one of `cores` cores, and the bytes after them.
#[tactic(auto, unfolding(crate::specs::inner::Reading::shown_at))]
fn shown_field(cores: u64, bytes: &[u8]) -> Option<(CoreId, Register, &[u8])>
    ensures { shown_now result ≡ shown_at cores bytes.now }
{
    let (core, rest) = read_number(after_text(b" ", bytes)?)?;
    let (register, rest) = read_number(after_text(b".r", rest)?)?;
    let core = core_of(cores, core?)?;
    let register = Register::new(register?)?;
    ends_word(rest).then_some((core, register, rest))
}

/// Adds the register that the bytes begin with, if they begin with one, and gives the bytes after it.
fn push_shown<'a>(
    cores: u64,
    shown: &mut Vec<Shown>,
    bytes: &'a [u8],
) -> Result<Option<&'a [u8]>, AllocError>
    ensures { IfOk result (λ found. MatchOption found
        ((shown_at cores bytes.now ≡ None) × (shown.new.items ≡ shown.old.items))
        (λ rest. (one : ShownParts) × (shown_at cores bytes.now ≡ Some (one, rest.now))
        × (shown.new.items ≡ shown.old.items ++ one ∷ []))) }
{
    let Some((core, register, rest)) = shown_field(cores, bytes) else {
        return Ok(None);
    };
    shown.push(Shown { core, register })?;
    Ok(Some(rest))
}

/// Whether no bytes are left, and a test may show this many registers.
fn are_registers(rest: &[u8], found: usize) -> bool
    ensures { MatchBool result
        ((rest.now ≡ []) × (1 ≤ found) × (found ≤ 8))
        (rest.now ≡ [] → 1 ≤ found → found ≤ 8 → ⊥) }
{
    rest.is_empty() && found >= 1 && found <= SHOWN_LIMIT
}

/// Whether no bytes are left, and there are as many values as there should be.
fn are_values(rest: &[u8], found: usize, count: usize) -> bool
    ensures { MatchBool result ((rest.now ≡ []) × (found ≡ count)) (rest.now ≡ [] → found ≢ count) }
{
    rest.is_empty() && found == count
}

/// The registers whose line this is; none if it isn't such a line.
pub(crate) fn read_show(
    alloc: Global,
    cores: u64,
    line: &[u8],
) -> Result<Option<Vec<Shown>>, AllocError>
    requires { cores ≤ 64 }
    ensures { IfOk result (λ found. MatchOption found
        ((shown : List ShownParts) → AreShown cores shown → line.now ≢ show_text shown)
        (λ shown. AreShown cores shown.items × (line.now ≡ show_text shown.items))) }
{
    let Some(words) = after_text(b"show", line) else {
        return Ok(None);
    };
    let mut shown = Vec::new(alloc);
    let mut rest = words;
    while let Some(behind) = push_shown(cores, &mut shown, rest)? {
        rest = behind;
    }
    if are_registers(rest, shown.len()) {
        Ok(Some(shown))
    } else {
        Ok(None)
    }
}

/// The outcome of this many registers that the first line tells, and the bytes after that line; none if it isn't such a line.
pub(crate) fn read_forbid<'a>(
    alloc: Global,
    count: usize,
    text: &'a [u8],
) -> Result<Option<(Vec<u64>, &'a [u8])>, AllocError>
    ensures { IfOk result (λ found. MatchOption found
        (NoItemInFront forbid_text (IsOutcome count) text.now)
        (λ read. ItemInFront forbid_text (IsOutcome count) read.0.items text.now read.1.now)) }
{
    let Some((line, behind)) = next_line(text) else {
        return Ok(None);
    };
    let Some(words) = after_text(b"forbid", line) else {
        return Ok(None);
    };
    let mut values = Vec::new(alloc);
    let mut rest = words;
    while let Some((value, more)) = read_spaced(rest) {
        values.push(value)?;
        rest = more;
    }
    if are_values(rest, values.len(), count) {
        Ok(Some((values, behind)))
    } else {
        Ok(None)
    }
}
