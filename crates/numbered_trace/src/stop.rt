//! Why a search stops; places, and lists by place.

use std::alloc::{AllocError, AllocFailed};

/// The place of an operation among those of all cores: core 0's come first, each core's in program order.
pub type Place = u32;

/// The place of what comes before every operation and stores a 0 to each address. It counts as the first of core 0.
pub const START: Place = 0;

/// The number that stands for no fact, or for no class.
pub const NONE: u32 = u32::MAX;

/// Why no order agrees with all that is known.
#[derive(Clone, Copy)]
pub enum Conflict {
    /// The fact of this number leads from one operation to another that is before it.
    Cycle(u32),
    /// Nothing can have given this read its word.
    NoSource(Place),
}

/// Why a step of a search wasn't made.
#[derive(Clone, Copy)]
pub enum Stop {
    /// The case that the search looks at is closed.
    Closed(Conflict),
    /// The search gives up.
    GivenUp,
    /// Memory was refused.
    Refused,
}

/// What a step of a search gives, or why it wasn't made.
pub type Tried<T> = Result<T, Stop>;

impl From<AllocError> for Stop {
    fn from(_error: AllocError) -> Stop {
        Stop::Refused
    }
}

impl<T: Drop> From<AllocFailed<T>> for Stop {
    fn from(_error: AllocFailed<T>) -> Stop {
        Stop::Refused
    }
}

/// The entry of a list at a place; NONE if there is none.
pub fn at(list: &[u32], place: u32) -> u32 {
    list.get(place as usize).copied().unwrap_or(NONE)
}

/// Writes the entry of a list at a place. The search gives up if there is none.
pub fn put(list: &mut [u32], place: u32, entry: u32) -> Tried<()> {
    *list.get_mut(place as usize).ok_or(Stop::GivenUp)? = entry;
    Ok(())
}

/// The entries of a list from one place up to another; none if the list doesn't have them all.
pub fn part(list: &[u32], from: u32, to: u32) -> &[u32] {
    list.get(from as usize..to as usize).unwrap_or(&[])
}

/// A length as a place. The search gives up if it doesn't fit in 32 bits.
pub fn short(length: usize) -> Tried<u32> {
    u32::try_from(length).ok().ok_or(Stop::GivenUp)
}
