//! What stands around a place.

ghost use Rattle.std.specs.Prelude.{◌≡◌, ◌≤◌, IfOk, length};
ghost use Rattle.explain.specs.Windows.{window, window_start};

use log_record::Entry;
use std::alloc::{AllocError, Global};

/// How many rows an explanation has to each side of a place.
pub(crate) const ROWS_EACH_SIDE: usize = 8;

/// The first place that is told of.
pub(crate) fn start_of(place: usize) -> usize
    ensures { result ≡ window_start place }
{
    place.saturating_sub(ROWS_EACH_SIDE)
}

/// The entries around a place.
pub(crate) fn entries_around(
    alloc: Global,
    entries: &[Entry],
    place: usize,
) -> Result<Vec<Entry>, AllocError>
    requires { place ≤ length entries.now }
    ensures { IfOk result (λ rows. rows.items ≡ window entries.now place) }
{
    let end = place.saturating_add(ROWS_EACH_SIDE + 1).min(entries.len());
    Vec::from_slice(alloc, &entries[start_of(place)..end])
}
