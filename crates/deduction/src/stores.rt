//! The stores to each address, core by core.

use numbered_trace::{Operations, Place, Tried, at, part, put, short};
use std::alloc::Global;

/// The stores of each core to each address, in program order. Those of operations that have come in are active.
#[derive(Drop)]
pub(crate) struct Stores {
    cores: u32,
    /// Where the stores of each slot begin, and where the last ones end; a slot is an address and a core.
    starts: Vec<u32>,
    /// Where the active ones of each slot end.
    ends: Vec<u32>,
    places: Vec<Place>,
}

impl Stores {
    /// The stores of these operations, to this many addresses. None is active.
    pub(crate) fn new(alloc: Global, operations: &Operations, addresses: u32) -> Tried<Stores> {
        let mut places = Vec::new(alloc);
        for (operation, place) in operations.all.iter().zip(0..=u32::MAX) {
            if operation.stored().is_some() {
                places.push(place)?;
            }
        }
        places.sort_unstable_by_key(|place| (operations.get(*place).address, *place));
        let cores = operations.cores().end;
        let mut starts = Vec::new(alloc);
        for (start, place) in (0..=u32::MAX).zip(&places) {
            let operation = operations.get(*place);
            let slot = slot(cores, operation.address, operation.core());
            starts.resize((slot as usize).saturating_add(1), start)?;
        }
        let slots = (slot(cores, addresses, 0) as usize).saturating_add(1);
        starts.resize(slots, short(places.len())?)?;
        Ok(Stores {
            cores,
            ends: starts.to_vec(alloc)?,
            starts,
            places,
        })
    }

    /// All stores of a core to an address.
    pub(crate) fn all(&self, address: u32, core: u32) -> &[Place] {
        let (starts, slot) = (&self.starts, slot(self.cores, address, core));
        let next = slot.saturating_add(1);
        part(&self.places, at(starts, slot), at(starts, next))
    }

    /// The active stores of a core to an address.
    pub(crate) fn active(&self, address: u32, core: u32) -> &[Place] {
        let slot = slot(self.cores, address, core);
        part(&self.places, at(&self.starts, slot), at(&self.ends, slot))
    }

    /// Makes one more store of a core to an address active.
    pub(crate) fn activate(&mut self, address: u32, core: u32) -> Tried<()> {
        let slot = slot(self.cores, address, core);
        let end = at(&self.ends, slot);
        put(&mut self.ends, slot, end.saturating_add(1))
    }
}

/// The slot of an address and a core, if there are this many cores.
fn slot(cores: u32, address: u32, core: u32) -> u32 {
    address.saturating_mul(cores).saturating_add(core)
}

/// How many of these places are such, if those that are stand first. Looks from the end on.
pub(crate) fn count_first<F: Fn(Place) -> bool>(places: &[Place], is_such: F) -> usize
    requires { F.IsAlwaysCallable is_such }
{
    let mut high = places.len();
    for doubling in 0..usize::BITS {
        let low = high.saturating_sub(1usize.wrapping_shl(doubling));
        let part = places.get(low..high).unwrap_or(&[]);
        match part.first() {
            Some(first) if !is_such(*first) => high = low,
            _ => return low.saturating_add(part.partition_point(|place| is_such(*place))),
        }
    }
    high
}
