//! Moves along all lists as far as one order of their entries goes.

ghost use Rattle.std.specs.Prelude.{◌≡◌, ◌<◌, ◌≤◌, ℕ, MatchOption, false, is_some, length, slice_index, take};
ghost use Rattle.audit.specs.Lists.{transcripts, histories, transcript_of, history_of};
ghost use Rattle.audit.specs.Merges.{IsFirstUnmerged};
ghost use Rattle.audit.specs.Pairs.{gots};
ghost use Rattle.audit.specs.inner.Fronts.{AreFronts, IsDue, Merging, Reached, Small, Stuck, goes_alone};

use super::fault::AuditFault;
use super::fronts::{Places, core_on, move_slice};
use super::lists::{
    MAX_CORES, MAX_SLICES, entry_at, entry_count, entry_there, history_at, slice_of,
};
use super::pairs::is_of_slice;
use core_unit::{CoreEntry, CoreUnit};
use manager_slice::ManagerSlice;

// Does nothing: its contract says that transcripts and histories are short, by the types of units and slices.
fn lengths(units: &[CoreUnit], slices: &[ManagerSlice])
    requires units { length units.now ≤ 64 }
    requires slices { length slices.now ≤ 16 }
    ensures { Small (transcripts units.now) (histories slices.now) }
{
    for core in 0..MAX_CORES {
        let _ = entry_count(units, core);
    }
    for slice in 0..MAX_SLICES {
        let _ = history_at(slices, slice).len();
    }
}

// The first slice that is due for a look.
fn next_due(due: &[usize]) -> Option<usize>
    requires { length due.now ≡ 16 }
    ensures { MatchOption result
        ((s : ℕ) → s < 16 → slice_index due.now s ≡ 0)
        (λ s. IsDue due.now s) }
{
    for slice in 0..MAX_SLICES {
        if due[slice] != 0 {
            return Some(slice);
        }
    }
    None
}

// Moves each core on over the entries that it makes alone.
fn cores_on(units: &[CoreUnit], slices: &[ManagerSlice], places: &mut Places)
    requires units { length units.now ≤ 64 }
    requires fronts { AreFronts (transcripts units.now) (histories slices.now) places.old.cores places.old.slices }
    requires small { Small (transcripts units.now) (histories slices.now) }
    ensures fronts { AreFronts (transcripts units.now) (histories slices.now) places.new.cores places.new.slices }
    ensures alone { (c : ℕ) → goes_alone (transcript_of (transcripts units.now) c) (slice_index places.new.cores c) ≡ false }
{
    for core in 0..MAX_CORES {
        core_on(units, slices, places, core);
    }
}

/// Moves all cores and slices on as far as one order goes. It looks at each entry a bounded number of times: at
/// an entry that a core makes alone once, and at a slice's once for each core that comes to wait for it.
pub(crate) fn advance(units: &[CoreUnit], slices: &[ManagerSlice], places: &mut Places)
    requires units { length units.now ≤ 64 }
    requires some { 0 < length slices.now }
    requires most { length slices.now ≤ 16 }
    requires fronts { AreFronts (transcripts units.now) (histories slices.now) places.old.cores places.old.slices }
    ensures fronts { AreFronts (transcripts units.now) (histories slices.now) places.new.cores places.new.slices }
    ensures stuck { Stuck (transcripts units.now) (histories slices.now) places.new.cores places.new.slices }
{
    lengths(units, slices);
    cores_on(units, slices, places);
    let mut due = [1usize; 16];
    while let Some(slice) = next_due(&due) {
        move_slice(units, slices, places, &mut due, slice);
    }
}

/// The first core whose transcript isn't used up.
pub(crate) fn core_left(units: &[CoreUnit], cores: &[usize]) -> Option<usize>
    requires { length cores.now ≡ 64 }
    ensures { MatchOption result
        ((c : ℕ) → c < 64 → length (transcript_of (transcripts units.now) c) ≤ slice_index cores.now c)
        (λ c. (c < 64) × (slice_index cores.now c < length (transcript_of (transcripts units.now) c))
        × ((d : ℕ) → d < c → length (transcript_of (transcripts units.now) d) ≤ slice_index cores.now d)) }
{
    for core in 0..MAX_CORES {
        if cores[core] < entry_count(units, core) {
            return Some(core);
        }
    }
    None
}

/// The first slice whose history isn't used up.
pub(crate) fn slice_left(slices: &[ManagerSlice], fronts: &[usize]) -> Option<usize>
    requires { length fronts.now ≡ 16 }
    ensures { MatchOption result
        ((s : ℕ) → s < 16 → length (history_of (histories slices.now) s) ≤ slice_index fronts.now s)
        (λ s. (s < 16) × (slice_index fronts.now s < length (history_of (histories slices.now) s))) }
{
    for slice in 0..MAX_SLICES {
        if fronts[slice] < history_at(slices, slice).len() {
            return Some(slice);
        }
    }
    None
}

// How many replies a core took from a slice before a place.
fn gots_before(units: &[CoreUnit], core: usize, count: usize, slice: usize, at: usize) -> usize
    requires some { 0 < count }
    requires within { at ≤ length (transcript_of (transcripts units.now) core) }
    ensures { result ≡ length (gots count slice (take at (transcript_of (transcripts units.now) core))) }
{
    let mut taken = 0;
    for k in 0..at {
        let entry = entry_there(units, core, k);
        if !is_of_slice(&entry, count, slice) {
            continue;
        }
        taken += 1;
    }
    taken
}

/// The fault of a core that can't go on. The transcripts of the cores before it are used up.
pub(crate) fn unmerged_at(
    units: &[CoreUnit],
    slices: &[ManagerSlice],
    places: &Places,
    core: usize,
) -> AuditFault
    requires some { 0 < length slices.now }
    requires core { core < 64 }
    requires left { slice_index places.now.cores core < length (transcript_of (transcripts units.now) core) }
    requires earlier { (d : ℕ) → d < core → length (transcript_of (transcripts units.now) d) ≤ slice_index places.now.cores d }
    requires reached { Reached (transcripts units.now) (histories slices.now) places.now.cores places.now.slices }
    requires stuck { Stuck (transcripts units.now) (histories slices.now) places.now.cores places.now.slices }
    ensures { IsFirstUnmerged (transcripts units.now) (histories slices.now) result.core result.slice result.place }
{
    let at = places.cores[core];
    let Some(CoreEntry::Got(message, _)) = entry_at(units, core, at) else {
        unreachable!()
    };
    let slice = slice_of(slices.len(), message.addr());
    let place = gots_before(units, core, slices.len(), slice, at);
    AuditFault { core, slice, place }
}
