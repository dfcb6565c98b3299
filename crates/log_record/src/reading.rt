//! Reads a record's line from left to right. All of it is inlined into one function, so that the parts of a line
//! stay in registers. What has a number out of range is None, and the reading goes on, since the line may yet not
//! have a record's shape.

ghost use Rattle.std.specs.Prelude.{◌≡◌, ℕ, option_and_then, option_map};
ghost use Rattle.decimal_text.specs.Numbers.{as_u64};
ghost use Rattle.decimal_text.specs.Reading.{front_now, front_map};
ghost use Rattle.mem_op.specs.declared.id.Source.{Source};
ghost use Rattle.log_record.specs.declared.act.Act.TheVariants.{Load, Swap};
ghost use Rattle.log_record.specs.declared.record.Record.{Record};
ghost use Rattle.log_record.specs.inner.Kept.{source_kept, act_kept, record_kept};
ghost use Rattle.log_record.specs.inner.Reading.{store_source_at, source_at, letter_at, act_at, lettered_at, record_of};

use super::act::{Act, PackedAct};
use super::record::Record;
use decimal_text::{after_text, read_field, read_number};
use line_stamps::{Rank, Stamp};
use mem_op::{Addr, CoreId, OpId, OpIndex, Source};

/// Which kind of act.
#[derive(Clone, Copy, Debug, PartialEq, Eq)]
enum Kind {
    Load,
    Store,
    Swap,
}

/// The store of this core and index, if they are in range.
#[inline(always)]
#[tactic(auto, unfolding(crate::specs::inner::Kept::source_kept))]
fn store_in_range(core: Option<u64>, index: Option<u64>) -> Option<Source>
    ensures { (c i : ℕ) → core ≡ as_u64 c → index ≡ as_u64 i
        → result ≡ source_kept (Source.Store (record { core = c; index = i })) }
{
    Some(Source::Store(OpId {
        core: CoreId::new(core?).ok()?,
        index: OpIndex::new(index?).ok()?,
    }))
}

/// A core, a dot and an index.
#[inline(always)]
#[tactic(auto, unfolding(crate::specs::inner::Reading::store_source_at))]
fn store_source(bytes: &[u8]) -> Option<(Option<Source>, &[u8])>
    ensures { front_now result ≡ front_map source_kept (store_source_at bytes.now) }
{
    let (core, rest) = read_field(b'.', bytes)?;
    let (index, rest) = read_number(rest)?;
    Some((store_in_range(core, index), rest))
}

/// A source, and the bytes after it.
#[inline(always)]
#[tactic(auto, unfolding(crate::specs::inner::Reading::source_at, crate::specs::inner::Kept::source_kept, decimal_text::specs::Reading::after))]
fn source(bytes: &[u8]) -> Option<(Option<Source>, &[u8])>
    ensures { front_now result ≡ front_map source_kept (source_at bytes.now) }
{
    match bytes {
        [b'i', b'n', b'i', b't', rest @ ..] => Some((Some(Source::Init), rest)),
        _ => store_source(bytes),
    }
}

/// The kind that a record's first letter tells, and the bytes after its space.
#[inline(always)]
#[tactic(auto, unfolding(crate::specs::inner::Reading::letter_at, crate::specs::inner::Reading::reading_letter_at, decimal_text::specs::Reading::after))]
fn first_letter(bytes: &[u8]) -> Option<(Kind, &[u8])>
    ensures { front_now result ≡ letter_at bytes.now }
{
    match bytes {
        [b'S', b' ', rest @ ..] => Some((Kind::Store, rest)),
        [b'L', b' ', rest @ ..] => Some((Kind::Load, rest)),
        [b'X', b' ', rest @ ..] => Some((Kind::Swap, rest)),
        _ => None,
    }
}

/// A load with this source, if it is in range.
#[inline(always)]
fn load(source: Option<Source>) -> Option<PackedAct>
    ensures { result ≡ option_map (λ s. Load s) source }
{
    Some(PackedAct::of(Act::Load(source?)))
}

/// A swap with this source and the word that it read, if they are in range.
#[inline(always)]
fn swap(source: Option<Source>, read: Option<u64>) -> Option<PackedAct>
    ensures { result ≡ option_and_then (λ s. option_map (λ word. Swap s word) read) source }
{
    Some(PackedAct::of(Act::Swap(source?, read?)))
}

/// The act, from the bytes after the rank: of a load or a swap the source, and then the word that a
/// swap read.
#[inline(always)]
#[tactic(auto, unfolding(crate::specs::inner::Reading::act_at, crate::specs::inner::Kept::act_kept))]
fn act(letter: Kind, bytes: &[u8]) -> Option<(Option<PackedAct>, &[u8])>
    ensures { front_now result ≡ front_map act_kept (act_at letter bytes.now) }
{
    if letter == Kind::Store {
        return Some((Some(PackedAct::of(Act::Store)), bytes));
    }
    let Some((source, rest)) = source(after_text(b" ", bytes)?) else {
        return None;
    };
    if letter == Kind::Load {
        return Some((load(source), rest));
    }
    let (read, rest) = read_number(after_text(b" ", rest)?)?;
    Some((swap(source, read), rest))
}

/// The record of these parts, if they are in range.
#[inline(always)]
#[tactic(auto, unfolding(crate::specs::inner::Kept::record_kept))]
fn in_range(
    addr: Option<u64>,
    value: Option<u64>,
    ts: Option<u64>,
    rank: Option<u64>,
    act: Option<PackedAct>,
) -> Option<Record>
    ensures { (r : Record) → addr ≡ as_u64 r.addr → value ≡ as_u64 r.value → ts ≡ as_u64 r.ts
        → rank ≡ as_u64 r.rank → act ≡ act_kept r.act → result ≡ record_kept r }
{
    let value = value?;
    let ts = Stamp::new(ts?).ok()?;
    let rank = Rank::new(rank?).ok()?;
    let addr = Addr::new(addr?).ok()?;
    Some(Record {
        value,
        ts,
        act: act?,
        rank,
        addr,
    })
}

/// A record from its letter on, and the bytes after it.
#[inline(always)]
#[tactic(auto, unfolding(crate::specs::inner::Reading::lettered_at, crate::specs::inner::Reading::fields_at))]
fn lettered(bytes: &[u8]) -> Option<(Option<Record>, &[u8])>
    ensures { front_now result ≡ front_map record_kept (lettered_at bytes.now) }
{
    let (letter, rest) = first_letter(bytes)?;
    let (addr, rest) = read_field(b' ', rest)?;
    let (value, rest) = read_field(b' ', rest)?;
    let (ts, rest) = read_field(b' ', rest)?;
    let (rank, rest) = read_number(rest)?;
    let Some((act, rest)) = act(letter, rest) else {
        return None;
    };
    Some((in_range(addr, value, ts, rank, act), rest))
}

/// The record on this line, if its numbers are in range.
#[inline(always)]
#[tactic(auto, unfolding(crate::specs::inner::Reading::record_of))]
pub(crate) fn whole_record(line: &[u8]) -> Option<Option<Record>>
    ensures { result ≡ option_map record_kept (record_of line.now) }
{
    let Some((read, rest)) = lettered(line) else {
        return None;
    };
    if rest.is_empty() { Some(read) } else { None }
}
