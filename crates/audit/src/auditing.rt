//! The audit.

ghost use Rattle.std.specs.Prelude.{◌≡◌, ◌<◌, ◌≤◌, ℕ, Some, length, slice_get, slice_index, MatchResult};
ghost use Rattle.line_stamps.specs.declared.message.Message.{Message};
ghost use Rattle.line_stamps.specs.declared.message.Reply.{Reply};
ghost use Rattle.manager_slice.specs.declared.managed.HistoryEntry.TheVariants.{Served};
ghost use Rattle.audit.specs.Lists.{transcripts, histories, transcript_of};
ghost use Rattle.audit.specs.Merges.{HasMerge, IsAuditFault};
ghost use Rattle.audit.specs.Pairs.{Agrees};
ghost use Rattle.audit.specs.inner.Fronts.{AreFronts, Stuck};

use super::fault::AuditFault;
use super::fronts::Places;
use super::lists::{history_at, served_entry};
use super::merging::{advance, core_left, slice_left, unmerged_at};
use super::pairs::pairs_fault;
use core_unit::CoreUnit;
use manager_slice::{HistoryEntry, ManagerSlice};

// Does nothing: by its type, the core served at a place of a history is one of 64.
fn server_in_range(history: &[HistoryEntry], at: usize)
    ensures { (c : ℕ) → (m : Message) → (r : Reply) → slice_get history.now at ≡ Some (Served c m r) → c < 64 }
{
    if let Some(HistoryEntry::Served(by, ..)) = served_entry(history, at) {
        let _ = by.get();
    }
}

// The fault of slices that served more than the cores took, or none if they didn't. All transcripts are used up.
fn slices_fault(
    units: &[CoreUnit],
    slices: &[ManagerSlice],
    places: &Places,
) -> Result<(), AuditFault>
    requires units { length units.now ≤ 64 }
    requires some { 1 ≤ length slices.now }
    requires most { length slices.now ≤ 16 }
    requires fronts { AreFronts (transcripts units.now) (histories slices.now) places.now.cores places.now.slices }
    requires stuck { Stuck (transcripts units.now) (histories slices.now) places.now.cores places.now.slices }
    requires used { (c : ℕ) → c < 64 → length (transcript_of (transcripts units.now) c) ≤ slice_index places.now.cores c }
    ensures { MatchResult result
        (λ _. Agrees (transcripts units.now) (histories slices.now) × HasMerge (transcripts units.now) (histories slices.now))
        (λ fault. IsAuditFault (transcripts units.now) (histories slices.now) fault.core fault.slice fault.place) }
{
    let Some(slice) = slice_left(slices, &places.slices) else {
        return Ok(());
    };
    server_in_range(history_at(slices, slice), places.slices[slice]);
    match pairs_fault(units, slices) {
        Some(fault) => Err(fault),
        None => unreachable!(),
    }
}

/// Whether the transcripts of cores and the histories of slices agree, and have one order of all their entries in which the
/// slice gives each reply just before the core takes it. The unit at index c is core c's. The slice at index s has the
/// addresses that leave s when divided by the number of slices. A core without a unit did nothing.
///
/// The fault is the first difference, by core, then slice, then place. If there is none, it is the first reply, by
/// core and then in its transcript, that no order reaches. Takes no memory.
pub fn audit(units: &[CoreUnit], slices: &[ManagerSlice]) -> Result<(), AuditFault>
    requires cores { length units.now ≤ 64 }
    requires some { 1 ≤ length slices.now }
    requires most { length slices.now ≤ 16 }
    ensures { MatchResult result
        (λ _. Agrees (transcripts units.now) (histories slices.now) × HasMerge (transcripts units.now) (histories slices.now))
        (λ fault. IsAuditFault (transcripts units.now) (histories slices.now) fault.core fault.slice fault.place) }
{
    let mut places = Places {
        cores: [0; 64],
        slices: [0; 16],
    };
    advance(units, slices, &mut places);
    let Some(core) = core_left(units, &places.cores) else {
        return slices_fault(units, slices, &places);
    };
    match pairs_fault(units, slices) {
        Some(fault) => Err(fault),
        None => Err(unmerged_at(units, slices, &places, core)),
    }
}
