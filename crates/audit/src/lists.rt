//! The lists of a run, and their entries.

ghost use Rattle.std.specs.Prelude.{◌≡◌, ◌≢◌, ◌<◌, ◌≤◌, get_or, length, MatchBool, slice_get};
ghost use Rattle.std.specs.Option.{option_copied};
ghost use Rattle.core_unit.specs.declared.entry.CoreEntry.TheVariants.{Got};
ghost use Rattle.audit.specs.Lists.{transcripts, histories, transcript_of, history_of};
ghost use Rattle.audit.specs.Pairs.{slice_of};

use core_unit::{CoreEntry, CoreUnit};
use line_stamps::{Message, Reply};
use manager_slice::{HistoryEntry, ManagerSlice};
use mem_op::Addr;

/// The greatest number of cores.
pub(crate) const MAX_CORES: usize = 64;

/// The greatest number of slices.
pub(crate) const MAX_SLICES: usize = 16;

/// The slice of an address, of so many slices.
pub(crate) fn slice_of(count: usize, addr: Addr) -> usize
    requires { 0 < count }
    ensures value { result ≡ slice_of count addr }
    ensures in_range { result < count }
{
    addr.get() as usize % count
}

/// How many entries a core has: none if it has no unit.
pub(crate) fn entry_count(units: &[CoreUnit], core: usize) -> usize
    ensures { result ≡ length (transcript_of (transcripts units.now) core) }
{
    match units.get(core) {
        Some(unit) => unit.transcript().len(),
        None => 0,
    }
}

/// The history of a slice; empty if there is no such slice.
pub(crate) fn history_at(slices: &[ManagerSlice], slice: usize) -> &[HistoryEntry]
    ensures { result.now ≡ history_of (histories slices.now) slice }
{
    match slices.get(slice) {
        Some(slice) => slice.history(),
        None => &[],
    }
}

/// The entry of a core at a place, if there is one.
pub(crate) fn entry_at(units: &[CoreUnit], core: usize, at: usize) -> Option<CoreEntry>
    ensures { result ≡ slice_get (transcript_of (transcripts units.now) core) at }
{
    units.get(core)?.transcript().get(at)
}

/// The entry of a core at a place within its transcript.
pub(crate) fn entry_there(units: &[CoreUnit], core: usize, at: usize) -> CoreEntry
    requires { at < length (transcript_of (transcripts units.now) core) }
    ensures { result ≡ get_or (transcript_of (transcripts units.now) core) at result }
{
    match entry_at(units, core, at) {
        Some(entry) => entry,
        None => unreachable!(),
    }
}

/// The entry at a place of a history, if there is one.
pub(crate) fn served_entry(history: &[HistoryEntry], at: usize) -> Option<&HistoryEntry>
    ensures { option_copied result ≡ slice_get history.now at }
{
    history.get(at)
}

// Whether two messages are the same.
fn is_message(one: &Message, other: &Message) -> bool
    ensures { MatchBool result (one.now ≡ other.now) (one.now ≢ other.now) }
{
    one == other
}

// Whether two replies are the same.
fn is_reply(one: &Reply, other: &Reply) -> bool
    ensures { MatchBool result (one.now ≡ other.now) (one.now ≢ other.now) }
{
    one == other
}

/// Whether two messages with their replies are the same.
pub(crate) fn is_same(asked: &Message, answer: &Reply, message: &Message, reply: &Reply) -> bool
    ensures { MatchBool result
        (Got asked.now answer.now ≡ Got message.now reply.now)
        (Got asked.now answer.now ≢ Got message.now reply.now) }
{
    is_message(asked, message) && is_reply(answer, reply)
}
