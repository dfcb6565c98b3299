//! A state, with the operations that led to it.

use super::touches::Touches;
use numbered_trace::{Classes, Clocks, Operation, Operations, Place, Stop, Tried, at, put};
use std::alloc::Global;

/// How many pairs of cores one step of the budget covers in a look at a state.
const PAIRS: usize = 20;

/// How far each core is and what memory holds. It is changed in place.
#[derive(Drop)]
pub(crate) struct State<'a> {
    pub(crate) operations: &'a Operations,
    pub(crate) classes: &'a Classes,
    pub(crate) touches: Touches,
    /// The cores that take part.
    pub(crate) cores: &'a [u32],
    /// How many operations these have.
    pub(crate) total: usize,
    /// For each core, the place of its next operation.
    pub(crate) positions: Vec<Place>,
    /// For each address, the class of its word.
    pub(crate) memory: Vec<u32>,
    /// The operations that were performed.
    pub(crate) order: Vec<Place>,
    /// For each store among them, the class of the word that it found.
    found: Vec<u32>,
    /// What is known to be before each operation, if anything is.
    clocks: Option<&'a Clocks>,
    /// Equal states have the same number, and different ones almost never do.
    pub(crate) number: u64,
    /// How many operations were ever performed, plus the steps that looks at states took.
    pub(crate) performed: u64,
}

impl<'a> State<'a> {
    /// The state of some cores' operations in which none was performed.
    pub(crate) fn new(
        alloc: Global,
        operations: &'a Operations,
        classes: &'a Classes,
        cores: &'a [u32],
        clocks: Option<&'a Clocks>,
    ) -> Tried<State<'a>> {
        let mut total = 0usize;
        for core in cores {
            let own = operations
                .end(*core)
                .saturating_sub(at(&operations.starts, *core));
            total = total.saturating_add(own as usize);
        }
        Ok(State {
            operations,
            classes,
            touches: Touches::new(alloc, operations, cores, classes.count())?,
            cores,
            total,
            positions: operations.starts.to_vec(alloc)?,
            memory: classes.zeros.to_vec(alloc)?,
            order: Vec::new(alloc),
            found: Vec::new(alloc),
            clocks,
            number: 0,
            performed: 0,
        })
    }

    /// Whether all operations were performed.
    pub(crate) fn is_final(&self) -> bool {
        self.order.len() == self.total
    }

    /// A core's next operation, with its place.
    pub(crate) fn next(&self, core: u32) -> Option<(Place, Operation)> {
        self.operations.next(&self.positions, core)
    }

    /// A core's next operation, if it can be performed: memory has its word, and all that has to come before it was performed.
    pub(crate) fn able(&self, core: u32) -> Option<Operation> {
        let (place, next) = self.next(core)?;
        (self.has_word(&next) && !self.waits(place)).then_some(next)
    }

    /// Whether memory has the word that an operation read, if it read one.
    fn has_word(&self, operation: &Operation) -> bool {
        operation.fits(at(&self.memory, operation.address))
    }

    /// Whether something that is known to be before a core's next operation wasn't performed. In the operation's clock, only
    /// its own core's entry is right behind it.
    fn waits(&self, place: Place) -> bool {
        let own = place.wrapping_add(1);
        for (entry, position) in self.clock(place).iter().zip(&self.positions) {
            if entry > position && *entry != own {
                return true;
            }
        }
        false
    }

    /// The clock of the operation at a place; empty if nothing is known.
    fn clock(&self, place: Place) -> &[Place] {
        match self.clocks {
            Some(clocks) => clocks.of(place),
            None => &[],
        }
    }

    /// How many operations are still to be performed up to a core's at this place: those of its core, and those that are known to be before it.
    pub(crate) fn count_up_to(&self, core: u32, place: Place) -> u32 {
        let position = at(&self.positions, core);
        if place < position {
            return 0;
        }
        let mut known = 0u32;
        for (entry, position) in self.clock(place).iter().zip(&self.positions) {
            known = known.saturating_add(entry.saturating_sub(*position));
        }
        known.max(place.saturating_sub(position).saturating_add(1))
    }

    /// Counts a look at the state, which takes longer the more cores there are.
    pub(crate) fn count_look(&mut self) {
        let pairs = self.cores.len().saturating_mul(self.cores.len()) / PAIRS;
        self.performed = self.performed.wrapping_add(pairs as u64);
    }

    /// Performs a core's next operation.
    pub(crate) fn perform(&mut self, core: u32) -> Tried<()> {
        let (place, next) = self.next(core).ok_or(Stop::GivenUp)?;
        self.order.push(place)?;
        if let Some(stored) = next.stored() {
            let word = at(&self.memory, next.address);
            self.found.push(word)?;
            put(&mut self.memory, next.address, stored)?;
            self.number ^= of_class(word) ^ of_class(stored);
        }
        self.number ^= of_place(core, place) ^ of_place(core, place.wrapping_add(1));
        self.performed = self.performed.wrapping_add(1);
        put(&mut self.positions, core, place.wrapping_add(1))
    }

    /// Takes operations back until this many are left.
    pub(crate) fn undo(&mut self, length: usize) -> Tried<()> {
        for _ in length..self.order.len() {
            let Some(place) = self.order.pop() else {
                break;
            };
            self.take_back(place)?;
        }
        Ok(())
    }

    /// Takes back the operation at a place.
    fn take_back(&mut self, place: Place) -> Tried<()> {
        let operation = self.operations.get(place);
        let core = operation.core();
        if let Some(stored) = operation.stored()
            && let Some(word) = self.found.pop()
        {
            put(&mut self.memory, operation.address, word)?;
            self.number ^= of_class(word) ^ of_class(stored);
        }
        self.number ^= of_place(core, place) ^ of_place(core, place.wrapping_add(1));
        put(&mut self.positions, core, place)
    }

    /// Performs what leaves memory as it is, as long as it can: nothing is lost by that, and such operations needn't wait for what is known to be
    /// before them.
    pub(crate) fn settle(&mut self) -> Tried<()> {
        for core in self.cores {
            self.settle_core(*core)?;
        }
        Ok(())
    }

    /// Performs those of a core's next operations that leave memory as it is.
    fn settle_core(&mut self, core: u32) -> Tried<()> {
        for _ in 0..u32::MAX {
            match self.next(core) {
                Some((_, next)) if next.is_quiet() && self.has_word(&next) => self.perform(core)?,
                _ => break,
            }
        }
        Ok(())
    }

    /// Performs what leaves memory as it is, and stores that harm nobody, as long as it can: nothing is lost by that, either.
    pub(crate) fn go_on(&mut self) -> Tried<()> {
        self.settle()?;
        let count = self.cores.len();
        let mut idle = 0;
        for turn in 0..usize::MAX {
            if idle >= count {
                break;
            }
            idle += 1;
            let core = self.cores.get(turn % count).copied().unwrap_or(0);
            if self.store_harmlessly(core)? {
                idle = 1;
            }
        }
        Ok(())
    }

    /// Performs a core's stores that harm nobody, and after them what leaves memory as it is. Says whether it performed any.
    fn store_harmlessly(&mut self, core: u32) -> Tried<bool> {
        let before = self.order.len();
        for _ in 0..u32::MAX {
            match self.next(core) {
                Some((_, store)) if self.has_word(&store) && self.is_harmless(core, &store) => {
                    self.perform(core)?;
                }
                _ => break,
            }
            self.settle_core(core)?;
        }
        Ok(self.order.len() > before)
    }

    /// The class that a core's next operation writes over, if it stores another one.
    pub(crate) fn ruined_by(&self, core: u32) -> Option<u32> {
        let (_, next) = self.next(core)?;
        let word = at(&self.memory, next.address);
        (next.stored()? != word).then_some(word)
    }
}

/// A number for how far a core is.
fn of_place(core: u32, place: Place) -> u64 {
    mixed(u64::from(place) | u64::from(core).wrapping_add(1).wrapping_shl(32))
}

/// A number for a word in memory.
fn of_class(class: u32) -> u64 {
    mixed(u64::from(class))
}

/// A number that looks random.
fn mixed(seed: u64) -> u64 {
    let seed = (seed ^ (seed >> 30) ^ 0x9e37_79b9).wrapping_mul(0xbf58_476d_1ce4_e5b9);
    let seed = (seed ^ (seed >> 27)).wrapping_mul(0x94d0_49bb_1331_11eb);
    seed ^ (seed >> 31)
}
