//! Closed sets of states.

use super::states::{numbers_of, states_of};
use deduction::Facts;
use numbered_trace::{Budget, Classes, Operations, SearchWatch, Tried};
use refutation::{StateSet, Step};
use state_walk::{ClosedSet, Precedence, Reached, Walk};
use std::alloc::Global;

/// How much memory the states of a set may take, in bytes.
const MEMORY: usize = 400_000_000;

/// How many bytes a state takes, beside 8 for each index, limit and word.
const STATE: usize = 200;

/// A search for a closed set.
#[derive(Drop)]
pub(crate) struct Closing<'a, W> {
    pub(crate) alloc: Global,
    pub(crate) operations: &'a Operations,
    pub(crate) classes: &'a Classes,
    /// All cores.
    pub(crate) cores: &'a [u32],
    /// What is known to be before what, sorted.
    pub(crate) known: &'a [Precedence],
    /// The search for a set of some addresses may take one part in this many of the steps that are left: half of them, if this is 2.
    pub(crate) share: u64,
    pub(crate) watch: &'a W,
}

/// A closed set.
#[derive(Drop)]
pub(crate) struct Closed {
    /// The numbers of its addresses.
    addresses: Vec<u32>,
    states: Vec<Reached>,
    /// The facts under which it is closed.
    pub(crate) facts: Vec<u32>,
}

impl<W: SearchWatch> Closing<'_, W> {
    /// A closed set, if it finds one. A trace that has no order at some addresses has none at all, so it tries first the
    /// addresses at which the walk came deepest, more and more of them, and then all.
    pub(crate) fn close(&self, walk: &mut Walk, budget: &mut Budget) -> Tried<Option<Closed>> {
        let mut count = 0;
        for doubling in 0..u32::BITS {
            let addresses = walk.deepest_addresses(self.alloc, 1u32.wrapping_shl(doubling))?;
            budget.use_up(addresses.len() as u64);
            if addresses.len() > count {
                count = addresses.len();
                if let Some(closed) = self.attempt(addresses, budget)? {
                    return Ok(Some(closed));
                }
            }
        }
        let addresses = walk.all_addresses(self.alloc)?;
        self.attempt(addresses, budget)
    }

    /// A closed set of the operations at these addresses, or at some of them, if it finds one.
    fn attempt(&self, addresses: Vec<u32>, budget: &mut Budget) -> Tried<Option<Closed>> {
        let most = self.most(addresses.len());
        let steps = budget.left().checked_div(self.share);
        budget.allow(steps.unwrap_or(0));
        let closed = self.set(&addresses, most, budget)?;
        budget.allow(u64::MAX);
        match closed {
            Some(closed) => Ok(Some(self.smaller(closed, &addresses, budget)?)),
            None => Ok(None),
        }
    }

    /// How many states a set of this many addresses may have.
    fn most(&self, addresses: usize) -> usize {
        let numbers = self.cores.len().saturating_mul(2).saturating_add(addresses);
        let bytes = numbers.saturating_mul(8).saturating_add(STATE);
        MEMORY.checked_div(bytes).unwrap_or(0)
    }

    /// The states that the operations at these addresses can reach, with the facts that it takes to show this; none if one of the states is final, or
    /// there are more than `most`.
    fn set(&self, addresses: &[u32], most: usize, budget: &mut Budget) -> Tried<Option<Closed>> {
        budget.use_up(self.operations.all.len() as u64);
        let operations = self.operations.only(self.alloc, addresses)?;
        let (classes, cores) = (self.classes, self.cores);
        let mut set = ClosedSet::new(
            self.alloc,
            &operations,
            classes,
            cores,
            addresses,
            self.known,
        )?;
        if !set.close(most, budget, self.watch)? {
            return Ok(None);
        }
        Ok(Some(Closed {
            addresses: addresses.to_vec(self.alloc)?,
            states: set.states,
            facts: set.used,
        }))
    }

    /// A closed set after leaving out, one by one, each of these addresses without which it stays closed and has no more states.
    fn smaller(&self, closed: Closed, addresses: &[u32], budget: &mut Budget) -> Tried<Closed> {
        let mut best = closed;
        for address in addresses {
            if budget.left() > 0
                && let Some(fewer) = self.without(&best, *address, budget)?
            {
                best = fewer;
            }
        }
        Ok(best)
    }

    /// A closed set without an address of another one, and with no more states, if it finds one.
    fn without(&self, closed: &Closed, address: u32, budget: &mut Budget) -> Tried<Option<Closed>> {
        let mut others = closed.addresses.to_vec(self.alloc)?;
        others.retain(|other| *other != address);
        self.set(&others, closed.states.len(), budget)
    }
}

impl Closed {
    /// The step that refutes a trace by the set.
    pub(crate) fn step(
        &self,
        alloc: Global,
        operations: &Operations,
        classes: &Classes,
    ) -> Tried<Step> {
        let states = states_of(alloc, operations, classes, &self.states)?;
        Ok(Step::States {
            addresses: numbers_of(alloc, &classes.addresses, &self.addresses)?,
            set: StateSet::new(states),
        })
    }
}

/// What is before what, as facts say, sorted.
pub(crate) fn precedences(alloc: Global, facts: &Facts) -> Tried<Vec<Precedence>> {
    let mut precedences = Vec::with_capacity(alloc, facts.all.len())?;
    for (fact, number) in facts.all.iter().zip(0..=u32::MAX) {
        precedences.push(Precedence {
            later: fact.later,
            fact: number,
            earlier: fact.earlier,
        })?;
    }
    precedences.sort_unstable();
    Ok(precedences)
}
