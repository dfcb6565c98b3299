//! The order in which the operations of a refutation are shown.

use super::scene::Arrow;
use std::alloc::{AllocError, Global};

/// The row of each of this many operations: each has its own, below the operations from which arrows lead to it, as far as that can be.
pub(crate) fn rows_of(
    alloc: Global,
    count: usize,
    arrows: &[Arrow],
) -> Result<Vec<usize>, AllocError> {
    // An operation without a row has the number after the last row.
    let mut rows = vec![in alloc; count; count]?;
    for row in 0..count {
        let next = next(&rows, arrows);
        if let Some(there) = rows.get_mut(next) {
            *there = row;
        }
    }
    Ok(rows)
}

/// The first operation without a row to which no arrow comes from one without a row; if there is none, the first without a row.
fn next(rows: &[usize], arrows: &[Arrow]) -> usize {
    let mut first = rows.len();
    for (place, row) in rows.iter().enumerate() {
        if *row == rows.len() {
            if !waits(rows, arrows, place) {
                return place;
            }
            first = first.min(place);
        }
    }
    first
}

/// Whether an arrow comes to an operation from one without a row.
fn waits(rows: &[usize], arrows: &[Arrow], place: usize) -> bool {
    let none = rows.len();
    arrows.iter().any(|arrow| arrow.to == place && rows.get(arrow.from) == Some(&none))
}
