//! All that is known of the orders that a trace can have.

use super::facts::{Facts, Reason};
use super::stores::{Stores, count_first};
use numbered_trace::{
    Budget, Classes, Clocks, Conflict, CoreSet, Operations, Place, Stop, Tried, at,
};
use std::alloc::Global;
use std::collections::VecDeque;

/// The clock of an operation rose for some cores.
#[derive(Clone, Copy)]
pub(crate) struct Risen {
    pub(crate) place: Place,
    pub(crate) cores: CoreSet,
}

/// What is known of each order that keeps program order and in which each read has its word.
#[derive(Drop)]
pub struct Knowledge<'a> {
    pub(crate) alloc: Global,
    pub(crate) operations: &'a Operations,
    pub(crate) classes: &'a Classes,
    pub(crate) stores: Stores,
    pub clocks: Clocks,
    pub facts: Facts,
    /// For each core, the place of its first operation that hasn't come in.
    pub(crate) entered: Vec<Place>,
    /// The reads that came in with more than one candidate.
    pub(crate) open: Vec<Place>,
    /// The clocks that rose, and from which nothing was concluded yet.
    pub(crate) risen: VecDeque<Risen>,
    pub budget: Budget,
}

impl<'a> Knowledge<'a> {
    /// Nothing is known of these operations, and none has come in.
    pub fn new(
        alloc: Global,
        operations: &'a Operations,
        classes: &'a Classes,
        budget: Budget,
    ) -> Tried<Knowledge<'a>> {
        Ok(Knowledge {
            alloc,
            stores: Stores::new(alloc, operations, classes.count_addresses())?,
            clocks: Clocks::new(alloc, operations)?,
            facts: Facts::new(alloc, operations.all.len())?,
            entered: operations.starts.to_vec(alloc)?,
            open: Vec::new(alloc),
            risen: VecDeque::new(alloc),
            budget,
            operations,
            classes,
        })
    }

    /// Whether an operation has come in.
    pub(crate) fn has_entered(&self, place: Place) -> bool {
        place < at(&self.entered, self.operations.core(place))
    }

    /// Whether one place is another, or is known to be before it.
    pub(crate) fn is_before(&self, earlier: Place, later: Place) -> bool {
        self.clocks.entry(later, self.operations.core(earlier)) > earlier
    }

    /// A core's last store to the address of an operation that is known to be before that operation.
    pub(crate) fn last_store(&self, place: Place, core: u32) -> Option<Place> {
        let entry = self.clocks.entry(place, core);
        let stores = self.stores.active(self.operations.get(place).address, core);
        let count = count_first(stores, |store| store < entry && store != place);
        stores.get(..count)?.last().copied()
    }

    /// Each core's last store to a read's address that is known to be before the read, if it has one.
    pub(crate) fn last_stores(&self, read: Place) -> Tried<Vec<Place>> {
        let mut last = Vec::new(self.alloc);
        for core in self.operations.cores() {
            if let Some(store) = self.last_store(read, core) {
                last.push(store)?;
            }
        }
        Ok(last)
    }

    /// Whether one store is known to be after another, so that it hides it from what comes later.
    pub(crate) fn hides(&self, hiding: Place, hidden: Place) -> bool {
        hiding != hidden && self.is_before(hidden, hiding)
    }

    /// Whether a place lies in the range from one place to another. Both are of the same core, unless the first is START.
    pub(crate) fn lies_in(&self, place: Place, first: Place, last: Place) -> bool {
        let is_of_core = self.operations.core(place) == self.operations.core(last);
        place == first || is_of_core && first <= place && place <= last
    }

    /// Adds that one operation is before another, and gives the number of this fact.
    pub(crate) fn add(&mut self, earlier: Place, later: Place, reason: Reason) -> Tried<u32> {
        let number = self.facts.push(earlier, later, reason)?;
        self.flow(earlier, later, number)?;
        Ok(number)
    }

    /// Adds that one operation is before another, by a rule, from a fact of this number; adds nothing if they are one, or if this is known.
    pub(crate) fn learn(&mut self, earlier: Place, later: Place, source: u32) -> Tried<()> {
        if !self.is_before(earlier, later) {
            self.add(earlier, later, Reason::Rule(source))?;
        }
        Ok(())
    }

    /// Puts one operation, and what is before it, before another, by a fact. The case is closed if the second is before the
    /// first, or is the first.
    pub(crate) fn flow(&mut self, earlier: Place, later: Place, fact: u32) -> Tried<()> {
        if self.is_before(later, earlier) {
            return Err(Stop::Closed(Conflict::Cycle(fact)));
        }
        self.raise(earlier, later)
    }

    /// Puts one operation, and what is before it, before another.
    pub(crate) fn raise(&mut self, earlier: Place, later: Place) -> Tried<()> {
        let cores = self.clocks.join(earlier, later)?;
        self.note(later, cores)
    }

    /// Notes that the clock of an operation rose for some cores, if for any.
    pub(crate) fn note(&mut self, place: Place, cores: CoreSet) -> Tried<()> {
        if cores == CoreSet::NONE {
            return Ok(());
        }
        if let Some(last) = self.risen.back_mut()
            && last.place == place
        {
            last.cores.extend(cores);
            return Ok(());
        }
        Ok(self.risen.push_back(Risen { place, cores })?)
    }
}
