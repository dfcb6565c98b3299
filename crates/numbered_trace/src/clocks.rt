//! What is known to be before each operation.

use super::core_set::CoreSet;
use super::operations::Operations;
use super::stop::{Place, Stop, Tried, at};
use std::alloc::Global;

/// For each operation and each core, a place: the core's operations below it are before the operation, or are the operation itself.
#[derive(Drop)]
pub struct Clocks {
    cores: u32,
    entries: Vec<Place>,
}

impl Clocks {
    /// Clocks that know nothing but program order, and that START comes first.
    pub fn new(alloc: Global, operations: &Operations) -> Tried<Clocks> {
        let cores = operations.cores().end;
        let length = operations.all.len().saturating_mul(cores as usize);
        let mut entries = Vec::with_capacity(alloc, length)?;
        for (operation, next) in operations.all.iter().zip(1..=u32::MAX) {
            for (start, core) in operations.starts.iter().zip(0..=u32::MAX) {
                let is_own = core == operation.core();
                entries.push(if is_own { next } else { *start })?;
            }
        }
        Ok(Clocks { cores, entries })
    }

    /// Where the clock of an operation begins.
    fn row(&self, place: Place) -> usize {
        (place as usize).saturating_mul(self.cores as usize)
    }

    /// The entry of an operation for a core.
    pub fn entry(&self, place: Place, core: u32) -> Place {
        at(self.of(place), core)
    }

    /// The clock of an operation.
    pub fn of(&self, place: Place) -> &[Place] {
        let row = self.row(place);
        let end = row.saturating_add(self.cores as usize);
        self.entries.get(row..end).unwrap_or(&[])
    }

    /// Puts one operation, and what is before it, before another. Gives the cores whose entries rose.
    pub fn join(&mut self, earlier: Place, later: Place) -> Tried<CoreSet> {
        let (from, to) = (self.row(earlier), self.row(later));
        let mut risen = CoreSet::NONE;
        for core in 0..self.cores {
            let least = self.entries.get(from.saturating_add(core as usize));
            let least = *least.ok_or(Stop::GivenUp)?;
            let entry = to.saturating_add(core as usize);
            let before = self.entries.get_mut(entry).ok_or(Stop::GivenUp)?;
            if *before < least {
                risen.insert(core);
                *before = least;
            }
        }
        Ok(risen)
    }
}
