//! Reads a line of a trace from left to right.

ghost use Rattle.std.specs.Prelude.{◌≡◌, option_map};
ghost use Rattle.decimal_text.specs.Reading.{front_now};
ghost use Rattle.trace.specs.inner.Reading.{skip, mark_at, cell_at, word_at, access_at, swap_at, operation_at_front};
ghost use Rattle.trace.specs.inner.Reading.{is_over, after_time, is_ended, said_of, core_at, line_of};

use super::numeral::number;
use decimal_text::after_text;
use flat_replay::{Access, Address};
use mem_op::{CoreId, Word};
use memchr::memchr;

/// What a line of a trace says.
#[derive(Clone, Copy, Debug, PartialEq, Eq)]
pub enum TraceLine {
    /// Nothing: it has blanks and a comment at most, or is a fence of a core.
    Nothing,
    /// An operation of a core.
    Performs(CoreId, Access),
}

/// The bytes after the spaces and tabs at the front.
#[inline(always)]
pub(crate) fn skip_blanks(bytes: &[u8]) -> &[u8]
    ensures { result.now ≡ skip bytes.now }
{
    let mut rest = bytes;
    while let [b' ' | b'\t', tail @ ..] = rest {
        rest = tail;
    }
    rest
}

/// The bytes after a mark.
#[tactic(auto, unfolding(crate::specs::inner::Reading::mark_at))]
fn mark<'a>(text: &[u8], bytes: &'a [u8]) -> Option<&'a [u8]>
    ensures { option_map (λ x. x.now) result ≡ mark_at text.now bytes.now }
{
    after_text(text, skip_blanks(bytes))
}

/// `M[A]`: the address.
#[tactic(auto, unfolding(crate::specs::inner::Reading::cell_at))]
fn cell(bytes: &[u8]) -> Option<(Address, &[u8])>
    ensures { front_now result ≡ cell_at bytes.now }
{
    let open = mark(b"[", mark(b"M", bytes)?)?;
    let (addr, rest) = number(open)?;
    Some((addr, mark(b"]", rest)?))
}

/// `== V` or `:= V`: the word.
#[tactic(auto, unfolding(crate::specs::inner::Reading::word_at))]
fn word<'a>(sign: &[u8], bytes: &'a [u8]) -> Option<(Word, &'a [u8])>
    ensures { front_now result ≡ word_at sign.now bytes.now }
{
    number(mark(sign, bytes)?)
}

/// `M[A] == V` or `M[A] := V`.
#[tactic(auto, unfolding(crate::specs::inner::Reading::access_at))]
fn access(bytes: &[u8]) -> Option<(Access, &[u8])>
    ensures { front_now result ≡ access_at bytes.now }
{
    let (addr, rest) = cell(bytes)?;
    if mark(b"==", rest).is_some() {
        let (read, rest) = word(b"==", rest)?;
        Some((Access::load(addr, read), rest))
    } else {
        let (stored, rest) = word(b":=", rest)?;
        Some((Access::store(addr, stored), rest))
    }
}

/// `M[A] == V; M[A] := W }`, twice of one address.
#[tactic(auto, unfolding(crate::specs::inner::Reading::swap_at))]
fn swap(bytes: &[u8]) -> Option<(Access, &[u8])>
    ensures { front_now result ≡ swap_at bytes.now }
{
    let (addr, rest) = cell(bytes)?;
    let (read, rest) = word(b"==", rest)?;
    let (again, rest) = cell(mark(b";", rest)?)?;
    let (stored, rest) = word(b":=", rest)?;
    let rest = mark(b"}", rest)?;
    (addr == again).then_some((Access::swap(addr, read, stored), rest))
}

/// A load, a store or a swap.
#[tactic(auto, unfolding(crate::specs::inner::Reading::operation_at_front))]
fn operation(bytes: &[u8]) -> Option<(Access, &[u8])>
    ensures { front_now result ≡ operation_at_front bytes.now }
{
    match mark(b"{", bytes) {
        Some(rest) => swap(rest),
        None => access(bytes),
    }
}

/// Whether nothing more is said: blanks come, and then a comment at most.
#[tactic(auto, unfolding(crate::specs::inner::Reading::is_over))]
fn is_over(bytes: &[u8]) -> bool
    ensures { result ≡ is_over bytes.now }
{
    matches!(skip_blanks(bytes), [] | [b'#', ..])
}

/// The bytes after a time, or all if there is none.
#[tactic(auto, unfolding(crate::specs::inner::Reading::after_time))]
fn after_time(bytes: &[u8]) -> &[u8]
    ensures { result.now ≡ after_time bytes.now }
{
    match number(bytes) {
        Some((_, rest)) => rest,
        None => bytes,
    }
}

/// Whether the line ends there, with times `@ b:e` at most.
#[tactic(auto, unfolding(crate::specs::inner::Reading::is_ended))]
fn is_ended(bytes: &[u8]) -> bool
    ensures { result ≡ is_ended bytes.now }
{
    if is_over(bytes) {
        return true;
    }
    let Some(begin) = mark(b"@", bytes) else {
        return false;
    };
    match mark(b":", after_time(begin)) {
        Some(end) => is_over(after_time(end)),
        None => false,
    }
}

/// What is said of a core.
#[tactic(auto, unfolding(crate::specs::inner::Reading::said_of))]
fn said_of(core: CoreId, bytes: &[u8]) -> Option<TraceLine>
    ensures { result ≡ said_of core bytes.now }
{
    if let Some(rest) = mark(b"sync", bytes) {
        return is_ended(rest).then_some(TraceLine::Nothing);
    }
    let Some((access, rest)) = operation(bytes) else {
        return None;
    };
    is_ended(rest).then_some(TraceLine::Performs(core, access))
}

/// `T:`: the core.
#[tactic(auto, unfolding(crate::specs::inner::Reading::core_at))]
fn core(bytes: &[u8]) -> Option<(CoreId, &[u8])>
    ensures { front_now result ≡ core_at bytes.now }
{
    let (number, rest) = number(bytes)?;
    let rest = mark(b":", rest)?;
    Some((CoreId::new(number).ok()?, rest))
}

/// What a line says, without its line feed; None if it isn't a line of a trace.
#[tactic(auto, unfolding(crate::specs::inner::Reading::line_of))]
pub(crate) fn read_line(line: &[u8]) -> Option<TraceLine>
    ensures { result ≡ line_of line.now }
{
    if is_over(line) {
        return Some(TraceLine::Nothing);
    }
    let Some((core, rest)) = core(line) else {
        return None;
    };
    said_of(core, rest)
}

/// When the operation of a line ended, if its times tell that.
pub(crate) fn end_of(line: &[u8]) -> Option<u64> {
    let at = memchr(b'@', line)?;
    if memchr(b'#', &line[..at]).is_some() {
        return None;
    }
    let (end, _) = number(mark(b":", after_time(&line[at + 1..]))?)?;
    Some(end)
}
