//! The explanation of a load or a swap that breaks a rule.

ghost use Rattle.std.specs.Prelude.{◌≡◌, ◌<◌, None, IfOk, IfSome, IsNone, length, option_and_then, slice_get};
ghost use Rattle.mem_op.specs.Consistency.{is_same_id};
ghost use Rattle.explain.specs.Culprits.{named_id};
ghost use Rattle.explain.specs.WrongReads.{IsWrongRead, of_id};

use super::acts::named_id;
use super::around::{entries_around, start_of};
use super::context::{around, last_of_core};
use super::culprit::{culprit, same_word};
use super::explanation::WrongRead;
use super::faults::fault_counts;
use super::times::{is_right_after, is_right_before, right_store, store_after};
use address_check::AddressIndex;
use log_record::Entry;
use mem_op::OpId;
use std::alloc::{AllocError, Global};
use verdict::Rule;

/// Whether a record has an id.
fn has_id(entry: &Entry, id: OpId) -> bool
    ensures { result ≡ is_same_id entry.now.id id }
{
    entry.id == id
}

/// The place of the first record of an id.
pub fn place_of(entries: &[Entry], id: OpId) -> Option<usize>
    ensures found { IfSome result (λ place. (place < length entries.now)
        × (slice_get entries.now place ≡ of_id entries.now id)) }
    ensures none { IsNone result → of_id entries.now id ≡ None }
{
    for (place, entry) in entries.iter().enumerate() {
        if has_id(entry, id) {
            return Some(place);
        }
    }
    None
}

/// The first record of an id.
fn entry_of(entries: &[Entry], id: OpId) -> Option<Entry>
    ensures { result ≡ of_id entries.now id }
{
    match place_of(entries, id) {
        Some(place) => Some(entries[place]),
        None => None,
    }
}

/// The record that the source of a load or a swap names.
fn named(entries: &[Entry], load: &Entry) -> Option<Entry>
    ensures { result ≡ option_and_then (of_id entries.now) (named_id load.now.logged.act) }
{
    match named_id(load) {
        Some(id) => entry_of(entries, id),
        None => None,
    }
}

/// What a core did around an operation, if there is one.
fn rows_of(
    alloc: Global,
    entries: &[Entry],
    entry: &Option<Entry>,
) -> Result<Vec<Entry>, AllocError> {
    match entry {
        Some(entry) => around(alloc, entries, entry.id),
        None => Ok(Vec::new(alloc)),
    }
}

/// Why the load or the swap of this id breaks a rule; none if no record has the id.
pub(crate) fn wrong_read(
    alloc: Global,
    index: &AddressIndex,
    id: OpId,
    rule: Rule,
) -> Result<Option<WrongRead>, AllocError>
    ensures found { IfOk result (λ o. IfSome o (IsWrongRead index.now id rule)) }
    ensures none { IfOk result (λ o. IsNone o → of_id index.now id ≡ None) }
{
    let all = index.all();
    let found = entry_of(all, id);
    let Some(load) = &found else {
        return Ok(None);
    };
    let group = index.group(load.logged.addr);
    let Some(place) = place_of(group, id) else {
        return Ok(None);
    };
    let right = right_store(group, load);
    let next = store_after(group, place);
    let named = named(all, load);
    Ok(Some(WrongRead {
        rule,
        load: *load,
        right,
        named,
        culprit: culprit(group, place, load, &named),
        same_word: same_word(group, place, load),
        rows: entries_around(alloc, group, place)?,
        place: place - start_of(place),
        is_right_earlier: is_right_before(group, load, &right),
        next,
        is_right_later: is_right_after(load, &next),
        own_last: last_of_core(group, place, id.core),
        own_rows: around(alloc, all, id)?,
        right_rows: rows_of(alloc, all, &right)?,
        faults: fault_counts(alloc, index)?,
    }))
}
