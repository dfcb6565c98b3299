//! Chains of facts that lead from one operation to another.

use super::knowledge::Knowledge;
use numbered_trace::{NONE, Place, START, Tried, at, put};
use std::alloc::Global;

/// How many places of a core one step of the budget covers.
pub(crate) const PLACES: u64 = 16;

/// A place that the search reached, by a fact from a place that it had reached before.
#[derive(Clone, Copy)]
struct Hop {
    place: Place,
    /// The place of the same core from which on all had been reached, or are too late to lead to the end.
    until: Place,
    /// The fact that leads here, or NONE where the way begins.
    fact: u32,
    /// The number of the hop from which that fact leads, or NONE.
    from: u32,
}

/// A search for a way from one operation to another, by facts and along program order, shortest chains first.
#[derive(Drop)]
struct Way {
    hops: Vec<Hop>,
    /// For each core, the place from which on all have been reached, or are too late to lead to the end.
    reached: Vec<Place>,
    end_core: u32,
    /// Facts of this number and above aren't used.
    limit: u32,
}

impl Knowledge<'_> {
    /// A shortest chain of facts below `limit` by which one operation is before another.
    pub(crate) fn chain(&mut self, from: Place, to: Place, limit: u32) -> Tried<Option<Vec<u32>>> {
        let (core, end_core) = (self.operations.core(from), self.operations.core(to));
        if from == START || from <= to && core == end_core {
            return Ok(Some(Vec::new(self.alloc)));
        }
        let mut way = Way {
            hops: Vec::new(self.alloc),
            reached: self.clocks.of(to).to_vec(self.alloc)?,
            end_core,
            limit,
        };
        way.hop(from, core, NONE, NONE)?;
        for number in 0..u32::MAX {
            let Some(hop) = way.hops.get(number as usize).copied() else {
                break;
            };
            let places = u64::from(hop.until.saturating_sub(hop.place));
            self.budget.spend(places / PLACES + 1)?;
            if self.go_from(&mut way, number, hop)? {
                return Ok(Some(way.chain(self.alloc)?));
            }
        }
        Ok(None)
    }

    /// Follows the facts that lead on from the places of a hop. Says whether it reached the end.
    fn go_from(&self, way: &mut Way, from: u32, hop: Hop) -> Tried<bool> {
        for place in hop.place..hop.until {
            if self.go_from_place(way, from, place)? {
                return Ok(true);
            }
        }
        Ok(false)
    }

    /// Follows the facts that lead on from one place of a hop. Says whether it reached the end.
    fn go_from_place(&self, way: &mut Way, from: u32, place: Place) -> Tried<bool> {
        let mut next = self.facts.latest(place);
        for _ in 0..self.facts.all.len() {
            let Some((number, fact)) = next else {
                break;
            };
            let core = self.operations.core(fact.later);
            if number < way.limit && way.hop(fact.later, core, number, from)? {
                return Ok(true);
            }
            next = self.facts.get(fact.next);
        }
        Ok(false)
    }
}

impl Way {
    /// Reaches a place of a core by a fact, unless it was reached before. Says whether it leads to the end.
    fn hop(&mut self, place: Place, core: u32, fact: u32, from: u32) -> Tried<bool> {
        let until = at(&self.reached, core);
        if place >= until {
            return Ok(false);
        }
        self.hops.push(Hop {
            place,
            until,
            fact,
            from,
        })?;
        put(&mut self.reached, core, place)?;
        Ok(core == self.end_core)
    }

    /// The facts that lead to the last hop, in their order.
    fn chain(&self, alloc: Global) -> Tried<Vec<u32>> {
        let mut chain = Vec::new(alloc);
        let mut next = self.hops.last();
        for _ in 0..self.hops.len() {
            let Some(hop) = next else {
                break;
            };
            if hop.fact != NONE {
                chain.push(hop.fact)?;
            }
            next = self.hops.get(hop.from as usize);
        }
        chain.reverse();
        Ok(chain)
    }
}
