//! What follows from the source of a read.

use super::facts::Reason;
use super::knowledge::Knowledge;
use super::stores::count_first;
use numbered_trace::{CoreSet, Place, START, Tried};

impl Knowledge<'_> {
    /// Adds that a read's source lies in the range from one store to another of the same core. The first store of each core after that range comes
    /// after the read. Notes that everything is to be concluded from the read.
    pub(crate) fn set_source(&mut self, read: Place, first: Place, last: Place) -> Tried<()> {
        let number = self.add(first, read, Reason::Source(last))?;
        self.order_stores_after(read, number, last)?;
        self.note(read, CoreSet::ALL)
    }

    /// Adds, by this fact, that the first store of each core after the last one that may be a read's source comes after the read.
    pub(crate) fn order_stores_after(&mut self, read: Place, fact: u32, last: Place) -> Tried<()> {
        for core in self.operations.cores() {
            if let Some(store) = self.first_store_after(last, core, read) {
                self.learn(read, store, fact)?;
            }
        }
        Ok(())
    }

    /// The first store of a core to a read's address that is known to be after the read's source, other than the read.
    fn first_store_after(&self, source: Place, core: u32, read: Place) -> Option<Place> {
        let address = self.operations.get(read).address;
        let stores = if source == START {
            self.stores.all(address, core)
        } else {
            self.stores.active(address, core)
        };
        let count = count_first(stores, |store| !self.is_before(source, store));
        for store in stores.get(count..)? {
            if *store != source && *store != read {
                return Some(*store);
            }
        }
        None
    }

    /// Adds that these cores' stores before a read are before its source. The read's clock rose for these cores.
    pub(crate) fn order_stores_before(&mut self, read: Place, cores: CoreSet) -> Tried<()> {
        let Some((number, _, source)) = self.facts.source(read) else {
            return Ok(());
        };
        for core in self.operations.cores() {
            if source != START
                && cores.contains(core)
                && let Some(store) = self.last_store(read, core)
            {
                self.learn(store, source, number)?;
            }
        }
        Ok(())
    }

    /// Adds that what reads these cores' stores before a store is before that store, whose clock rose for these cores. Each
    /// core's last store before it stands for the others, and the own core's for those before that one, to which the rule
    /// was applied already.
    pub(crate) fn order_reads_before(&mut self, store: Place, cores: CoreSet) -> Tried<()> {
        let operation = self.operations.get(store);
        if operation.stored().is_none() {
            return Ok(());
        }
        let own = self.last_store(store, operation.core());
        for core in self.operations.cores() {
            if cores.contains(core)
                && let Some(last) = self.last_store(store, core)
                && !own.is_some_and(|own| self.hides(own, last))
            {
                self.order_readers(last, store)?;
            }
        }
        Ok(())
    }

    /// Adds that what reads one store is before another, which is after that one.
    fn order_readers(&mut self, source: Place, store: Place) -> Tried<()> {
        let mut next = self.facts.latest(source);
        for _ in 0..self.facts.all.len() {
            let Some((number, fact)) = next else {
                break;
            };
            self.budget.spend(1)?;
            if matches!(fact.reason, Reason::Source(last) if last == source) {
                self.learn(fact.later, store, number)?;
            }
            next = self.facts.get(fact.next);
        }
        Ok(())
    }
}
