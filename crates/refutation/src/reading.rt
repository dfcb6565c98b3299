//! Reads the parts of a step's line, from left to right.

ghost use Rattle.std.specs.Prelude.{◌≡◌, ◌^◌};
ghost use Rattle.decimal_text.specs.Reading.{front_now};
ghost use Rattle.refutation.specs.Grammar.{is_same_point};
ghost use Rattle.refutation.specs.inner.Reading.{id_at, point_at, last_at, range_at, named_at, source_at};

use super::step::{Point, Range};
use decimal_text::{after_text, read_field, read_number};
use mem_op::{CoreId, OpId, OpIndex};
use text_lines::ends_word;

/// An id, and the bytes after it.
#[tactic(auto, unfolding(crate::specs::inner::Reading::id_at))]
fn id(bytes: &[u8]) -> Option<(OpId, &[u8])>
    ensures { front_now result ≡ id_at bytes.now }
{
    let (core, rest) = read_field(b'.', bytes)?;
    let (index, rest) = read_number(rest)?;
    let core = CoreId::new(core?).ok()?;
    let index = OpIndex::new(index?).ok()?;
    Some((OpId { core, index }, rest))
}

/// A point, and the bytes after it.
#[tactic(auto, unfolding(crate::specs::inner::Reading::point_at))]
fn point(bytes: &[u8]) -> Option<(Point, &[u8])>
    ensures { front_now result ≡ point_at bytes.now }
{
    if let Some(rest) = after_text(b"init", bytes) {
        return Some((Point::Init, rest));
    }
    let Some((id, rest)) = id(bytes) else {
        return None;
    };
    Some((Point::At(id), rest))
}

/// Whether one point is the other.
pub(crate) fn is_same(one: &Point, other: &Point) -> bool
    ensures { result ≡ is_same_point one.now other.now }
{
    match (one, other) {
        (Point::Init, Point::Init) => true,
        (Point::At(a), Point::At(b)) => a.core == b.core && a.index == b.index,
        _ => false,
    }
}

/// The range from a point to a different one, which the bytes begin with, and the bytes after it.
#[tactic(auto, unfolding(crate::specs::inner::Reading::last_at))]
fn last(first: Point, bytes: &[u8]) -> Option<(Range, &[u8])>
    ensures { front_now result ≡ last_at first bytes.now }
{
    let Some((last, rest)) = point(bytes) else {
        return None;
    };
    if is_same(&first, &last) || !ends_word(rest) {
        return None;
    }
    Some((Range { first, last }, rest))
}

/// A space and then a range, and the bytes after them.
#[tactic(auto, unfolding(crate::specs::inner::Reading::range_at))]
pub(crate) fn range(bytes: &[u8]) -> Option<(Range, &[u8])>
    ensures { front_now result ≡ range_at bytes.now }
{
    let Some((first, rest)) = point(after_text(b" ", bytes)?) else {
        return None;
    };
    if let Some(behind) = after_text(b"..", rest) {
        return last(first, behind);
    }
    let last = first;
    ends_word(rest).then_some((Range { first, last }, rest))
}

/// An id with ` :` after it, and the bytes after them.
#[tactic(auto, unfolding(crate::specs::inner::Reading::named_at))]
pub(crate) fn named(bytes: &[u8]) -> Option<(OpId, &[u8])>
    ensures { front_now result ≡ named_at bytes.now }
{
    let Some((id, rest)) = id(bytes) else {
        return None;
    };
    Some((id, after_text(b" :", rest)?))
}

/// The number of a fact with a space after it, and the bytes after them.
#[tactic(auto, unfolding(text_lines::specs::Fields::field_below))]
pub(crate) fn source(bytes: &[u8]) -> Option<(u64, &[u8])>
    ensures { front_now result ≡ source_at bytes.now }
{
    let (number, rest) = read_field(b' ', bytes)?;
    Some((number?, rest))
}
