//! Closed sets of states: none of their states is final, and whatever can be reached from one of them is in the set, too.

use super::dead::Dead;
use super::state::State;
use super::visited::Visited;
use numbered_trace::{Budget, Classes, Operations, Place, SearchWatch, Tried, at};
use std::alloc::Global;

/// By the fact of a number, one operation is before a later one.
#[derive(Clone, Copy, PartialEq, Eq, PartialOrd, Ord)]
pub struct Precedence {
    /// The later one.
    pub later: Place,
    /// The number of the fact.
    pub fact: u32,
    /// The earlier one.
    pub earlier: Place,
}

/// A state of a set.
#[derive(Drop)]
pub struct Reached {
    /// For each core, the place of its next operation.
    pub next: Vec<Place>,
    /// For each address of the set, the class of its word.
    pub words: Vec<u32>,
    /// If nothing leads from the state to the end: for each core, the place at which it waits, or where its operations end.
    pub limits: Option<Vec<Place>>,
}

/// All states of some operations that can be reached, as a walk comes to them.
#[derive(Drop)]
pub struct ClosedSet<'a> {
    alloc: Global,
    /// The addresses of the set.
    addresses: &'a [u32],
    /// What is known to be before what, sorted.
    known: &'a [Precedence],
    state: State<'a>,
    visited: Visited,
    /// The moves that weren't made yet: how many operations led to the state that a move starts from, and its core.
    moves: Vec<(usize, u32)>,
    /// The states.
    pub states: Vec<Reached>,
    /// The facts that kept some core from going on from them.
    pub used: Vec<u32>,
}

impl<'a> ClosedSet<'a> {
    /// A walk over the states of the operations of all cores, which are listed; those at other addresses than these neither read nor store. Whatever
    /// may change memory waits for what is known to be before it by this list, which is sorted.
    pub fn new(
        alloc: Global,
        operations: &'a Operations,
        classes: &'a Classes,
        cores: &'a [u32],
        addresses: &'a [u32],
        known: &'a [Precedence],
    ) -> Tried<ClosedSet<'a>> {
        Ok(ClosedSet {
            alloc,
            addresses,
            known,
            state: State::new(alloc, operations, classes, cores, None)?,
            visited: Visited::new(alloc)?,
            moves: Vec::new(alloc),
            states: Vec::new(alloc),
            used: Vec::new(alloc),
        })
    }

    /// Comes to all states that can be reached. Says whether there are at most `most`, none is final and the budget lasts; if not, it may stop early.
    pub fn close<W: SearchWatch>(
        &mut self,
        most: usize,
        budget: &mut Budget,
        watch: &W,
    ) -> Tried<bool> {
        self.state.settle()?;
        self.enter(None)?;
        for _ in 0..u64::MAX {
            if self.state.is_final() || self.states.len() > most || budget.left() == 0 {
                return Ok(false);
            }
            let Some((length, core)) = self.moves.pop() else {
                break;
            };
            let performed = self.state.performed;
            self.state.undo(length)?;
            let ruined = self.state.ruined_by(core);
            self.state.perform(core)?;
            self.state.settle()?;
            self.enter(ruined)?;
            budget.use_up(self.state.performed.saturating_sub(performed));
            budget.tell(watch)?;
        }
        Ok(true)
    }

    /// Enters the state, unless it was entered, and its moves, unless it is dead. The store that led to it wrote over this class, if over any.
    fn enter(&mut self, ruined: Option<u32>) -> Tried<()> {
        if !self.visited.insert(self.state.number)? {
            return Ok(());
        }
        let dead = self.state.dead(ruined);
        if dead.is_none() {
            self.enter_moves()?;
        }
        let reached = self.reached(dead)?;
        self.states.push(reached)?;
        Ok(())
    }

    /// Enters the moves from the state.
    fn enter_moves(&mut self) -> Tried<()> {
        let length = self.state.order.len();
        for core in self.state.cores {
            if self.state.able(*core).is_some() {
                match self.awaited(*core) {
                    Some(fact) => self.used.push(fact)?,
                    None => self.moves.push((length, *core))?,
                }
            }
        }
        Ok(())
    }

    /// The first fact by which a core's next operation waits for one that wasn't performed.
    fn awaited(&self, core: u32) -> Option<u32> {
        let next = at(&self.state.positions, core);
        let first = self.known.partition_point(|known| known.later < next);
        for known in self.known.get(first..)? {
            if known.later != next {
                break;
            }
            let core = self.state.operations.core(known.earlier);
            if known.earlier >= at(&self.state.positions, core) {
                return Some(known.fact);
            }
        }
        None
    }

    /// The classes of the words at the addresses of the set.
    fn words(&self) -> Tried<Vec<u32>> {
        let mut words = Vec::with_capacity(self.alloc, self.addresses.len())?;
        for address in self.addresses {
            words.push(at(&self.state.memory, *address))?;
        }
        Ok(words)
    }

    /// The state as one of the set.
    fn reached(&self, dead: Option<Dead>) -> Tried<Reached> {
        Ok(Reached {
            next: self.state.positions.to_vec(self.alloc)?,
            words: self.words()?,
            limits: self.limits(dead)?,
        })
    }

    /// The limits of the cores, if the state is dead.
    fn limits(&self, dead: Option<Dead>) -> Tried<Option<Vec<Place>>> {
        let Some(dead) = dead else {
            return Ok(None);
        };
        let mut limits = Vec::with_capacity(self.alloc, self.state.cores.len())?;
        for core in self.state.cores {
            limits.push(self.state.limit(dead, *core))?;
        }
        Ok(Some(limits))
    }
}
