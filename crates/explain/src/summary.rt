//! What is in a set that gets Yes.

ghost use Rattle.std.specs.Prelude.{◌≡◌, ◌≤◌, ◌↔◌, IfOk, IfSome, IsSome, IsPermutation, IsSorted, length};
ghost use Rattle.log_record.specs.Entries.{entry_cmp};
ghost use Rattle.explain.specs.Explanations.{IsSummary};
ghost use Rattle.explain.specs.Pictures.{most_drawn};

use super::acts::count_of;
use super::explanation::{Summary, Use};
use address_check::AddressIndex;
use line_stamps::Stamp;
use log_record::Entry;
use std::alloc::{AllocError, Global};
use std::cmp::Reverse;

/// The most operations that are drawn all at once.
const MAX_DRAWN_OPERATIONS: usize = 200;

/// How many addresses an explanation names as the most used.
const MOST_USED_ADDRESSES: usize = 5;

/// How often each address is used, where the entries stand by address.
pub(crate) fn uses(alloc: Global, entries: &[Entry]) -> Result<Vec<Use>, AllocError> {
    let mut uses = Vec::new(alloc);
    for group in entries.chunk_by(|one, other| one.logged.addr == other.logged.addr) {
        if let Some(first) = group.first() {
            uses.push(Use {
                addr: first.logged.addr,
                operations: group.len(),
            })?;
        }
    }
    Ok(uses)
}

/// The stamps of the entries, ascending.
fn stamps(alloc: Global, entries: &[Entry]) -> Result<Vec<Stamp>, AllocError> {
    let mut stamps: Vec<Stamp> = entries.iter().map(|entry| entry.key().ts).collect(alloc)?;
    stamps.sort_unstable();
    Ok(stamps)
}

/// How many of the stamps, which ascend, stand beside one that is the same.
fn sharing(stamps: &[Stamp]) -> usize {
    let mut sharing = 0usize;
    for same in stamps.chunk_by(|one, other| one == other) {
        if same.len() > 1 {
            sharing = sharing.saturating_add(same.len());
        }
    }
    sharing
}

/// The least and the greatest of the stamps, which ascend; none if there are none.
fn range_of(stamps: &[Stamp]) -> Option<(Stamp, Stamp)> {
    Some((*stamps.first()?, *stamps.last()?))
}

/// These entries in the order of their keys. Err if there is no memory.
pub fn by_key(alloc: Global, entries: &[Entry]) -> Result<Vec<Entry>, AllocError>
    ensures same { IfOk result (λ rows. IsPermutation entries.now rows.items) }
    ensures sorted { IfOk result (λ rows. IsSorted entry_cmp rows.items) }
{
    let mut rows = Vec::from_slice(alloc, entries)?;
    rows.sort_unstable_by_key(|entry| entry.key());
    Ok(rows)
}

/// All entries in the order of their keys, if they are few enough to be drawn.
fn rows(alloc: Global, entries: &[Entry]) -> Result<Option<Vec<Entry>>, AllocError>
    ensures all { IfOk result (λ rows. IfSome rows (λ rows. IsPermutation entries.now rows.items)) }
    ensures sorted { IfOk result (λ rows. IfSome rows (λ rows. IsSorted entry_cmp rows.items)) }
    ensures told { IfOk result (λ rows. IsSome rows ↔ (length entries.now ≤ most_drawn)) }
{
    if entries.len() > MAX_DRAWN_OPERATIONS {
        return Ok(None);
    }
    Ok(Some(by_key(alloc, entries)?))
}

/// The most used of the addresses, the most used first.
pub(crate) fn most_used(uses: Vec<Use>) -> Result<Vec<Use>, AllocError> {
    let mut most = uses;
    most.sort_by_key(|it| Reverse(it.operations))?;
    most.truncate(MOST_USED_ADDRESSES);
    Ok(most)
}

/// What the records of a set of this number of cores have.
pub(crate) fn summary(
    alloc: Global,
    cores: usize,
    index: &AddressIndex,
) -> Result<Summary, AllocError>
    ensures { IfOk result (IsSummary index.now) }
{
    let entries = index.all();
    let uses = uses(alloc, entries)?;
    let stamps = stamps(alloc, entries)?;
    Ok(Summary {
        cores,
        loads: count_of(entries, "load"),
        stores: count_of(entries, "store"),
        swaps: count_of(entries, "swap"),
        addresses: uses.len(),
        most_used: most_used(uses)?,
        stamps: range_of(stamps.as_slice()),
        sharing: sharing(stamps.as_slice()),
        rows: rows(alloc, entries)?,
    })
}
