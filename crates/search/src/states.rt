//! The states of a closed set as a refutation has them.

use numbered_trace::{Classes, Operations, Place, Tried};
use refutation::{Numbers, State};
use state_walk::Reached;
use std::alloc::Global;

/// These states as a refutation has them: with indices for places, and words for classes.
pub(crate) fn states_of(
    alloc: Global,
    operations: &Operations,
    classes: &Classes,
    reached: &[Reached],
) -> Tried<Vec<State>> {
    let mut states = Vec::with_capacity(alloc, reached.len())?;
    for state in reached {
        states.push(state_of(alloc, operations, classes, state)?)?;
    }
    Ok(states)
}

/// A state as a refutation has it.
fn state_of(
    alloc: Global,
    operations: &Operations,
    classes: &Classes,
    reached: &Reached,
) -> Tried<State> {
    let next = indices(alloc, operations, &reached.next)?;
    let words = numbers_of(alloc, &classes.words, &reached.words)?;
    let Some(limits) = &reached.limits else {
        return Ok(State::Open { next, words });
    };
    let limits = indices(alloc, operations, limits)?;
    Ok(State::Dead {
        next,
        words,
        limits,
    })
}

/// What these numbers stand for in a list.
pub(crate) fn numbers_of(alloc: Global, list: &[u64], numbers: &[u32]) -> Tried<Numbers> {
    let mut named = Vec::with_capacity(alloc, numbers.len())?;
    for number in numbers {
        named.push(list.get(*number as usize).copied().unwrap_or(0))?;
    }
    Ok(Numbers::new(named))
}

/// For each core, the index of its operation at its place in a list.
fn indices(alloc: Global, operations: &Operations, places: &[Place]) -> Tried<Numbers> {
    let mut indices = Vec::with_capacity(alloc, places.len())?;
    for (place, start) in places.iter().zip(&operations.starts) {
        indices.push(u64::from(place.saturating_sub(*start)))?;
    }
    Ok(Numbers::new(indices))
}
