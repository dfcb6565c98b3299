//! Shorter proofs: what refutes a few of the operations refutes them all.
//!
//! A small trace keeps all candidates of each read that it keeps. So if it has no order, the large one has none.

use super::knowledge::Knowledge;
use super::proof::Line;
use flat_replay::Access;
use numbered_trace::{
    Budget, Classes, Operations, Place, START, SearchWatch, Stop, Tried, Unwatched, at, number,
    short,
};
use std::alloc::Global;

/// How many operations a small trace has at most.
const LIMIT: usize = 3000;

/// How many steps the search of a small trace may make: this many, and `STEPS_EACH` more for each operation.
const STEPS: u64 = 2000;

const STEPS_EACH: u64 = 20;

/// The shortest proof so far that a trace has no order, and what it takes to find a shorter one.
#[derive(Drop)]
struct Shrinking<'a> {
    alloc: Global,
    cores: &'a [Vec<Access>],
    operations: &'a Operations,
    classes: &'a Classes,
    budget: &'a mut Budget,
    /// The lines of the proof, last one first.
    best: Vec<Line>,
    /// The operations that the lines name by their numbers in this list.
    places: Vec<Place>,
    /// Those that the lines name, except in ranges.
    named: Vec<Place>,
}

/// A proof no longer than this one for the trace of these cores: its lines, last one first, and the list by whose numbers
/// they name operations.
pub fn shrink<W: SearchWatch>(
    cores: &[Vec<Access>],
    known: &mut Knowledge,
    best: Vec<Line>,
    watch: &W,
) -> Tried<(Vec<Line>, Vec<Place>)> {
    let places = 0..short(known.operations.all.len())?;
    let places: Vec<Place> = places.collect(known.alloc)?;
    let mut shrinking = Shrinking {
        alloc: known.alloc,
        cores,
        operations: known.operations,
        classes: known.classes,
        budget: &mut known.budget,
        named: named(known.alloc, &best, &places)?,
        best,
        places,
    };
    for _ in 0..shrinking.best.len() {
        if !shrinking.leave_out_each(watch)? {
            break;
        }
    }
    Ok((shrinking.best, shrinking.places))
}

/// The operations that a proof names by their numbers in a list, except in ranges.
fn named(alloc: Global, proof: &[Line], places: &[Place]) -> Tried<Vec<Place>> {
    let mut named = Vec::new(alloc);
    for line in proof {
        match line {
            Line::Read(read, _, _) => named.push(at(places, *read))?,
            Line::Derived(derived) => named.push(at(places, derived.store))?,
            Line::Cycle(_) => {}
        }
    }
    named.sort_unstable();
    named.dedup();
    Ok(named)
}

impl Shrinking<'_> {
    /// Leaves out all operations that aren't named, and then each named one, whenever the rest has a proof that isn't
    /// longer. Says whether a proof got shorter; no if the steps ran out.
    fn leave_out_each<W: SearchWatch>(&mut self, watch: &W) -> Tried<bool> {
        let length = self.best.len();
        let before = self.named.to_vec(self.alloc)?;
        self.attempt(&before)?;
        for place in &before {
            if self.budget.left() == 0 || self.budget.tell(watch).is_err() {
                return Ok(false);
            }
            if self.named.contains(place) {
                let mut others = self.named.to_vec(self.alloc)?;
                others.retain(|other| *other != *place);
                self.attempt(&others)?;
            }
        }
        Ok(self.best.len() < length)
    }

    /// Takes over a proof that some operations, with all candidates of their reads, have no order, if it finds one that
    /// isn't longer.
    fn attempt(&mut self, kept: &[Place]) -> Tried<()> {
        let places = self.with_candidates(kept)?;
        if let Some(lines) = self.refute(&places, kept)?
            && lines.len() <= self.best.len()
        {
            self.named = named(self.alloc, &lines, &places)?;
            self.named.retain(|place| kept.binary_search(place).is_ok());
            (self.best, self.places) = (lines, places);
        }
        Ok(())
    }

    /// A proof that the operations at these places, of which the candidates aren't kept, have no order, if it finds one.
    fn refute(&mut self, places: &[Place], kept: &[Place]) -> Tried<Option<Vec<Line>>> {
        let steps = STEPS.saturating_add(STEPS_EACH.wrapping_mul(places.len() as u64));
        self.budget.use_up(places.len() as u64);
        if places.len() > LIMIT || self.budget.left() < steps {
            return Ok(None);
        }
        let trace = self.small_trace(places, kept)?;
        let (operations, classes) = number(self.alloc, &trace)?;
        let mut known = Knowledge::new(self.alloc, &operations, &classes, Budget::new(steps))?;
        let found = known.refute(&Unwatched);
        let left = known.budget.left();
        self.budget.use_up(steps.saturating_sub(left));
        match found {
            Err(Stop::Refused) => Err(Stop::Refused),
            found => Ok(found.unwrap_or(None)),
        }
    }

    /// START, and some operations with all candidates of their reads, in the order of places.
    fn with_candidates(&self, kept: &[Place]) -> Tried<Vec<Place>> {
        let mut places = kept.to_vec(self.alloc)?;
        places.push(START)?;
        for place in kept {
            let operation = self.operations.get(*place);
            places.extend(self.classes.candidates(&operation))?;
        }
        places.sort_unstable();
        places.dedup();
        Ok(places)
    }

    /// The trace of the operations at these places, of which START is the first. A swap that isn't kept becomes a store of its word.
    fn small_trace(&self, places: &[Place], kept: &[Place]) -> Tried<Vec<Vec<Access>>> {
        let none = self.cores.iter().map(|_| Vec::new(self.alloc));
        let mut trace: Vec<Vec<Access>> = none.collect(self.alloc)?;
        for place in places.iter().skip(1) {
            let (core, index) = self.operations.position(*place);
            let own = self.cores.get(core as usize).ok_or(Stop::GivenUp)?;
            let mut access = *own.get(index as usize).ok_or(Stop::GivenUp)?;
            if kept.binary_search(place).is_err() {
                access = Access::store(access.addr(), access.word_left());
            }
            let small = trace.get_mut(core as usize).ok_or(Stop::GivenUp)?;
            small.push(access)?;
        }
        Ok(trace)
    }
}
