//! Compares the messages of each core with those of each slice.

ghost use Rattle.std.specs.Prelude.{◌≡◌, ◌<◌, ◌≤◌, ◌≢◌, ℕ, [], drop, length, is_some, true, option_and_then, MatchOption, MatchBool, slice_get};
ghost use Rattle.audit.specs.Lists.{transcripts, histories, transcript_of, history_of};
ghost use Rattle.audit.specs.Pairs.{PairAgrees, Agrees, IsFirstDifference, gots, serveds, got_at, served_at, DiffersAt};
ghost use Rattle.audit.specs.inner.Words.{got_in, served_in, IsNextServed};

use super::fault::AuditFault;
use super::lists::{
    MAX_CORES, entry_count, entry_there, history_at, is_same, served_entry, slice_of,
};
use core_unit::{CoreEntry, CoreUnit};
use manager_slice::{HistoryEntry, ManagerSlice};

/// Whether an entry of a core is a reply from this slice, of so many.
pub(crate) fn is_of_slice(entry: &CoreEntry, count: usize, slice: usize) -> bool
    requires { 0 < count }
    ensures { result ≡ is_some (got_at count slice entry.now) }
{
    match entry {
        CoreEntry::Got(message, _) => slice_of(count, message.addr()) == slice,
        _ => false,
    }
}

// Whether an entry of a slice is a reply to this core.
fn is_of_core(entry: &HistoryEntry, core: usize) -> bool
    ensures { result ≡ is_some (served_at core entry.now) }
{
    match entry {
        HistoryEntry::Served(by, _, _) => by.get() as usize == core,
        HistoryEntry::Evicted(_) => false,
    }
}

// Whether a slice's entry at a place serves the message of a core's entry with the same reply.
fn is_served(history: &[HistoryEntry], at: usize, entry: &CoreEntry) -> bool
    requires { is_some (got_in entry.now) ≡ true }
    ensures { MatchBool result
        (option_and_then served_in (slice_get history.now at) ≡ got_in entry.now)
        (option_and_then served_in (slice_get history.now at) ≢ got_in entry.now) }
{
    match entry {
        CoreEntry::Got(message, reply) => match served_entry(history, at) {
            Some(HistoryEntry::Served(_, asked, answer)) => is_same(asked, answer, message, reply),
            Some(HistoryEntry::Evicted(_)) => false,
            None => false,
        },
        _ => unreachable!(),
    }
}

// The first place from this one on at which the slice served the core.
fn next_served(history: &[HistoryEntry], core: usize, from: usize) -> Option<usize>
    requires { from ≤ length history.now }
    ensures { MatchOption result
        (serveds core (drop from history.now) ≡ [])
        (λ at. IsNextServed core history.now from at) }
{
    for at in from..history.len() {
        if is_of_core(&history[at], core) {
            return Some(at);
        }
    }
    None
}

// The first place at which the messages that the slice served for the core differ from those to
// which the core took replies, if they differ.
fn pair_fault(
    units: &[CoreUnit],
    history: &[HistoryEntry],
    count: usize,
    core: usize,
    slice: usize,
) -> Option<usize>
    requires { 0 < count }
    ensures { MatchOption result
        (serveds core history.now ≡ gots count slice (transcript_of (transcripts units.now) core))
        (λ k. DiffersAt (serveds core history.now) (gots count slice (transcript_of (transcripts units.now) core)) k) }
{
    let mut seen = 0;
    let mut place = 0;
    for k in 0..entry_count(units, core) {
        let entry = entry_there(units, core, k);
        if !is_of_slice(&entry, count, slice) {
            continue;
        }
        let Some(at) = next_served(history, core, seen) else {
            return Some(place);
        };
        if !is_served(history, at, &entry) {
            return Some(place);
        }
        seen = at + 1;
        place += 1;
    }
    match next_served(history, core, seen) {
        Some(_) => Some(place),
        None => None,
    }
}

// The first slice from which a core differs.
fn core_fault(units: &[CoreUnit], slices: &[ManagerSlice], core: usize) -> Option<AuditFault>
    requires some { 0 < length slices.now }
    requires core { core < 64 }
    ensures { MatchOption result
        ((s : ℕ) → s < length slices.now → PairAgrees (transcripts units.now) (histories slices.now) core s)
        (λ f. (f.core ≡ core) × (f.slice < length slices.now)
        × DiffersAt (serveds core (history_of (histories slices.now) f.slice))
        (gots (length slices.now) f.slice (transcript_of (transcripts units.now) core)) f.place
        × ((s : ℕ) → s < f.slice → PairAgrees (transcripts units.now) (histories slices.now) core s)) }
{
    for slice in 0..slices.len() {
        let history = history_at(slices, slice);
        if let Some(place) = pair_fault(units, history, slices.len(), core, slice) {
            return Some(AuditFault { core, slice, place });
        }
    }
    None
}

/// The first difference of a core and a slice, if there is one. It goes through each history for each
/// core, and through each transcript for each slice.
pub(crate) fn pairs_fault(units: &[CoreUnit], slices: &[ManagerSlice]) -> Option<AuditFault>
    requires { 0 < length slices.now }
    ensures { MatchOption result
        (Agrees (transcripts units.now) (histories slices.now))
        (λ f. IsFirstDifference (transcripts units.now) (histories slices.now) f.core f.slice f.place) }
{
    for core in 0..MAX_CORES {
        if let Some(fault) = core_fault(units, slices, core) {
            return Some(fault);
        }
    }
    None
}
