//! How the operations come in, and what is concluded from each.

use super::knowledge::{Knowledge, Risen};
use numbered_trace::{
    Conflict, CoreSet, Operation, Place, START, SearchWatch, Stop, Tried, at, put,
};

/// How many operations of a core come in before the next core's.
const TURN: u32 = 4;

/// How many pairs of cores one step of the budget covers when it looks at an open read.
const PAIRS: u64 = 20;

impl Knowledge<'_> {
    /// Lets all operations come in, the cores in turns, and concludes what follows.
    pub fn saturate<W: SearchWatch>(&mut self, watch: &W) -> Tried<()> {
        for _ in 0..self.operations.all.len() {
            self.budget.tell(watch)?;
            if !self.enter_turn()? && !self.enter_any()? {
                break;
            }
        }
        self.settle_sources(watch)
    }

    /// Lets some operations of each core come in, those that don't wait for their source. Says whether any came.
    fn enter_turn(&mut self) -> Tried<bool> {
        let mut came = false;
        for turn in 0..self.operations.cores().end.saturating_mul(TURN) {
            if let Some((place, operation)) = self.operations.next(&self.entered, turn / TURN)
                && !self.waits_for_source(place, &operation)
            {
                self.enter(place)?;
                came = true;
            }
        }
        Ok(came)
    }

    /// Lets the next operation of some core come in when all of them wait: there is a cycle, which will show. Says whether one came.
    fn enter_any(&mut self) -> Tried<bool> {
        for core in self.operations.cores() {
            if let Some((place, _)) = self.operations.next(&self.entered, core) {
                self.enter(place)?;
                return Ok(true);
            }
        }
        Ok(false)
    }

    /// Whether the only source that a read can have hasn't come in.
    fn waits_for_source(&self, read: Place, operation: &Operation) -> bool {
        match self.classes.candidates(operation) {
            [source] => *source != read && !self.has_entered(*source),
            _ => false,
        }
    }

    /// Lets an operation come in, and concludes what follows.
    fn enter(&mut self, place: Place) -> Tried<()> {
        let operation = self.operations.get(place);
        let core = operation.core();
        let previous = place.saturating_sub(1);
        if self.operations.core(previous) == core {
            self.clocks.join(previous, place)?;
        }
        put(&mut self.entered, core, place.saturating_add(1))?;
        if operation.stored().is_some() {
            self.stores.activate(operation.address, core)?;
        }
        if operation.read().is_some() {
            self.enter_read(place, &operation)?;
        }
        self.note(place, CoreSet::ALL)?;
        self.conclude()
    }

    /// Lets a read come in. Its source is known if it has one candidate beside itself.
    fn enter_read(&mut self, read: Place, operation: &Operation) -> Tried<()> {
        let mut only = None;
        for store in self.classes.candidates(operation) {
            if *store != read {
                if only.is_some() {
                    return Ok(self.open.push(read)?);
                }
                only = Some(*store);
            }
        }
        match only {
            None => Err(Stop::Closed(Conflict::NoSource(read))),
            Some(source) => self.set_source(read, source, source),
        }
    }

    /// Concludes what follows from the clocks that rose, until nothing more does.
    fn conclude(&mut self) -> Tried<()> {
        for _ in 0..u64::MAX {
            let Some(Risen { place, cores }) = self.risen.pop_front() else {
                return Ok(());
            };
            self.budget.spend(1)?;
            if self.has_entered(place) {
                self.conclude_from(place, cores)?;
            }
        }
        Err(Stop::GivenUp)
    }

    /// Concludes for the other operations what follows from one whose clock rose for some cores.
    fn conclude_from(&mut self, place: Place, cores: CoreSet) -> Tried<()> {
        let next = place.saturating_add(1);
        if next < at(&self.entered, self.operations.core(place)) {
            self.raise(place, next)?;
        }
        let mut next = self.facts.latest(place);
        for _ in 0..self.facts.all.len() {
            let Some((number, fact)) = next else {
                break;
            };
            self.budget.spend(1)?;
            self.flow(place, fact.later, number)?;
            next = self.facts.get(fact.next);
        }
        self.order_stores_before(place, cores)?;
        self.order_reads_before(place, cores)
    }

    /// Settles the open reads, one after the other, until none of them brings a new fact.
    fn settle_sources<W: SearchWatch>(&mut self, watch: &W) -> Tried<()> {
        let count = self.open.len().max(1);
        let mut idle = 0usize;
        for turn in 0..count.saturating_mul(count) {
            let Some(read) = self.open.get(turn % count).copied() else {
                break;
            };
            idle = idle.saturating_add(1);
            let cores = u64::from(self.operations.cores().end);
            self.budget.spend(cores.saturating_mul(cores) / PAIRS + 1)?;
            self.budget.tell(watch)?;
            if self.settle(read)? {
                idle = 0;
            } else if idle >= count {
                break;
            }
        }
        Ok(())
    }

    /// Adds in which range an open read's source lies, if it lies in one. If that was known, applies the rule for the stores after it again. Says
    /// whether that brought a new fact.
    fn settle(&mut self, read: Place) -> Tried<bool> {
        if self.facts.has_source(read) {
            return Ok(false);
        }
        let facts = self.facts.all.len();
        if let Some((first, last)) = self.left(read)? {
            match self.facts.source(read) {
                Some((number, from, to)) if (from, to) == (first, last) => {
                    self.order_stores_after(read, number, last)?;
                }
                _ => self.set_source(read, first, last)?,
            }
        }
        self.conclude()?;
        Ok(self.facts.all.len() > facts)
    }

    /// The range of one core, from one store or START to another, that has all candidates of a read that aren't excluded. None if several cores have
    /// some. The case is closed if there is none.
    fn left(&self, read: Place) -> Tried<Option<(Place, Place)>> {
        let hiding = self.last_stores(read)?;
        let mut left = None;
        for core in self.operations.cores() {
            let own = self.left_of(read, core, &hiding);
            if let Some(first) = own.first()
                && let Some(last) = own.last()
            {
                left = match left {
                    None => Some((*first, *last)),
                    Some((START, START)) => Some((START, *last)),
                    Some(_) => return Ok(None),
                };
            }
        }
        if left.is_none() {
            return Err(Stop::Closed(Conflict::NoSource(read)));
        }
        Ok(left)
    }

    /// A core's candidates of a read that aren't excluded, if `hiding` are the last stores before the read.
    fn left_of(&self, read: Place, core: u32, hiding: &[Place]) -> &[Place] {
        let operation = self.operations.get(read);
        let stores = self
            .classes
            .candidates_of(&operation, self.operations, core);
        let from = stores.partition_point(|store| self.is_hidden(*store, hiding));
        let to = stores.partition_point(|store| !self.is_before(read, *store));
        cut(stores, from, to)
    }

    /// Whether one of these stores hides another.
    fn is_hidden(&self, store: Place, hiding: &[Place]) -> bool {
        for last in hiding {
            if self.hides(*last, store) {
                return true;
            }
        }
        false
    }
}

/// The places of a list from one number up to another; none if the list doesn't have them all.
pub(crate) fn cut(places: &[Place], from: usize, to: usize) -> &[Place] {
    places.get(from..to).unwrap_or(&[])
}
