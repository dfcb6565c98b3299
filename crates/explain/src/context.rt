//! What a core did around one of its operations.

use super::around::{ROWS_EACH_SIDE, start_of};
use log_record::Entry;
use mem_op::{CoreId, OpId};
use std::alloc::{AllocError, Global};

/// Whether an operation is of the core of an id, and near it in program order.
fn is_near(entry: &Entry, id: OpId) -> bool {
    let (index, middle) = (entry.id.index.get() as usize, id.index.get() as usize);
    entry.id.core == id.core && start_of(middle) <= index && index <= middle + ROWS_EACH_SIDE
}

/// What the core of an id did around it, in program order.
pub(crate) fn around(alloc: Global, entries: &[Entry], id: OpId) -> Result<Vec<Entry>, AllocError> {
    let mut rows = Vec::new(alloc);
    for entry in entries {
        if is_near(entry, id) {
            rows.push(*entry)?;
        }
    }
    rows.sort_unstable_by_key(|entry| entry.id.index);
    Ok(rows)
}

/// The last operation of a core among those of an address before a place.
pub(crate) fn last_of_core(group: &[Entry], place: usize, core: CoreId) -> Option<Entry> {
    let before = group.iter().take(place);
    before.filter(|entry| entry.id.core == core).last().copied()
}
