//! Fronts of all lists, which move on as far as one order of their entries goes.

ghost use Rattle.std.specs.Prelude.{◌≡◌, ◌≢◌, ◌<◌, ◌≤◌, ◌+◌, ◌*◌, ◌^◌, ℕ, Some, IfSome, MatchBool, MatchOption, false, length, slice_get, slice_index, slice_set, sum};
ghost use Rattle.std.specs.Option.{option_copied};
ghost use Rattle.core_unit.specs.declared.entry.CoreEntry.TheVariants.{Got};
ghost use Rattle.audit.specs.Lists.{transcripts, histories, transcript_of, history_of};
ghost use Rattle.audit.specs.inner.Fronts.{AreFronts, IsDue, IsOneOn, Merging, SliceStuck, Small, goes_alone, waits_for};
ghost use Rattle.audit.specs.inner.Steps.{Enabled};

use super::lists::{entry_at, history_at, is_same, served_entry, slice_of};
use core_unit::{CoreEntry, CoreUnit};
use line_stamps::{Message, Reply};
use manager_slice::{HistoryEntry, ManagerSlice};

/// How many entries of each core and of each slice an order has so far.
#[derive(Clone, Copy)]
pub(crate) struct Places {
    pub(crate) cores: [usize; 64],
    pub(crate) slices: [usize; 16],
}

// The next step of a slice.
#[derive(Clone, Copy)]
enum SliceStep {
    // It evicts a line.
    Evicts,
    // It serves this core, which takes the reply.
    Passes(usize),
}

// Moves one place on by one entry.
fn bump(places: &mut [usize], at: usize)
    requires within { at < length places.old }
    requires fits { slice_index places.old at + 1 < 2 ^ 64 }
    ensures { places.new ≡ slice_set places.old at (slice_index places.old at + 1) }
{
    places[at] += 1;
}

// Sets whether a slice is due for a look: 1 or 0.
fn set_due(due: &mut [usize], slice: usize, value: usize)
    requires { slice < length due.old }
    ensures { due.new ≡ slice_set due.old slice value }
{
    due[slice] = value;
}

// Whether the entry at a place is one that the core makes alone.
fn is_alone(units: &[CoreUnit], core: usize, at: usize) -> bool
    ensures { result ≡ goes_alone (transcript_of (transcripts units.now) core) at }
{
    !matches!(entry_at(units, core, at), None | Some(CoreEntry::Got(..)))
}

// Whether a core takes this reply to this message at a place.
fn is_got(units: &[CoreUnit], core: usize, at: usize, message: &Message, reply: &Reply) -> bool
    ensures { MatchBool result
        (slice_get (transcript_of (transcripts units.now) core) at ≡ Some (Got message.now reply.now))
        (slice_get (transcript_of (transcripts units.now) core) at ≢ Some (Got message.now reply.now)) }
{
    match &entry_at(units, core, at) {
        Some(CoreEntry::Got(asked, answer)) => is_same(asked, answer, message, reply),
        _ => false,
    }
}

// The slice, of so many, whose reply a core takes at a place, if it takes one there.
fn waited_for(units: &[CoreUnit], core: usize, at: usize, count: usize) -> Option<usize>
    requires { 0 < count }
    ensures value { result ≡ waits_for count (slice_get (transcript_of (transcripts units.now) core) at) }
    ensures in_range { IfSome result (λ slice. slice < count) }
{
    match entry_at(units, core, at) {
        Some(CoreEntry::Got(message, _)) => Some(slice_of(count, message.addr())),
        _ => None,
    }
}

// The step that a slice can make next, if it can make one.
fn slice_step(
    units: &[CoreUnit],
    slices: &[ManagerSlice],
    places: &Places,
    slice: usize,
) -> Option<SliceStep>
    requires some { 0 < length slices.now }
    requires slice { slice < 16 }
    ensures { MatchOption result
        (SliceStuck (transcripts units.now) (histories slices.now) places.now.cores places.now.slices slice)
        (λ step. Enabled (transcripts units.now) (histories slices.now) places.now.cores places.now.slices slice step) }
{
    let history = history_at(slices, slice);
    match served_entry(history, places.slices[slice]) {
        None => None,
        Some(HistoryEntry::Evicted(_)) => Some(SliceStep::Evicts),
        Some(HistoryEntry::Served(by, message, reply)) => {
            let core = by.get() as usize;
            let passes = is_got(units, core, places.cores[core], message, reply)
                && slice_of(slices.len(), message.addr()) == slice;
            passes.then_some(SliceStep::Passes(core))
        }
    }
}

/// Moves a core on over the entries that it makes alone.
pub(crate) fn core_on(units: &[CoreUnit], slices: &[ManagerSlice], places: &mut Places, core: usize)
    requires core { core < 64 }
    requires fronts { AreFronts (transcripts units.now) (histories slices.now) places.old.cores places.old.slices }
    requires small { Small (transcripts units.now) (histories slices.now) }
    ensures fronts { AreFronts (transcripts units.now) (histories slices.now) places.new.cores places.new.slices }
    ensures on { IsOneOn core places.old.cores places.new.cores }
    ensures still { places.new.slices ≡ places.old.slices }
    ensures alone { goes_alone (transcript_of (transcripts units.now) core) (slice_index places.new.cores core) ≡ false }
{
    while is_alone(units, core, places.cores[core]) {
        bump(&mut places.cores, core);
    }
}

// A slice serves a core. The core takes the reply and goes on over the entries that it makes alone. The slice for
// which it waits then is due for a look.
fn pass(
    units: &[CoreUnit],
    slices: &[ManagerSlice],
    places: &mut Places,
    due: &mut [usize],
    slice: usize,
    core: usize,
)
    requires some { 0 < length slices.now }
    requires most { length slices.now ≤ 16 }
    requires due { IsDue due.old slice }
    requires small { Small (transcripts units.now) (histories slices.now) }
    requires merging { Merging (transcripts units.now) (histories slices.now) places.old.cores places.old.slices due.old }
    requires enabled { Enabled (transcripts units.now) (histories slices.now) places.old.cores places.old.slices slice (SliceStep.Passes core) }
    ensures merging { Merging (transcripts units.now) (histories slices.now) places.new.cores places.new.slices due.new }
    ensures less { sum due.new + 2 * (sum places.old.cores + sum places.old.slices)
        < sum due.old + 2 * (sum places.new.cores + sum places.new.slices) }
{
    bump(&mut places.cores, core);
    bump(&mut places.slices, slice);
    core_on(units, slices, places, core);
    let Some(waited) = waited_for(units, core, places.cores[core], slices.len()) else {
        return;
    };
    set_due(due, waited, 1);
}

/// Moves a slice that is due for a look on by one step. If it can't go on, it is no longer due. If the
/// core that it served then waits for a slice, that slice is due.
pub(crate) fn move_slice(
    units: &[CoreUnit],
    slices: &[ManagerSlice],
    places: &mut Places,
    due: &mut [usize],
    slice: usize,
)
    requires some { 0 < length slices.now }
    requires most { length slices.now ≤ 16 }
    requires due { IsDue due.old slice }
    requires small { Small (transcripts units.now) (histories slices.now) }
    requires merging { Merging (transcripts units.now) (histories slices.now) places.old.cores places.old.slices due.old }
    ensures merging { Merging (transcripts units.now) (histories slices.now) places.new.cores places.new.slices due.new }
    ensures less { sum due.new + 2 * (sum places.old.cores + sum places.old.slices)
        < sum due.old + 2 * (sum places.new.cores + sum places.new.slices) }
{
    match slice_step(units, slices, places, slice) {
        None => set_due(due, slice, 0),
        Some(SliceStep::Evicts) => bump(&mut places.slices, slice),
        Some(SliceStep::Passes(core)) => pass(units, slices, places, due, slice, core),
    }
}
