//! Finds an order of a trace, or a refutation: tries the ways to search one after the other.

use super::closing::{Closing, precedences};
use super::numbering::steps;
use deduction::{Knowledge, shrink};
use numbered_trace::{
    Budget, Classes, Clocks, Operations, Place, SearchWatch, Stop, Tried, id, number, short,
};
use refutation::{Answer, Refutation};
use state_walk::{Walk, groups_of};
use std::alloc::{AllocError, Global};
use trace::Trace;

/// How many steps the walk without facts may make: this many and `FIRST_EACH` more for each operation, but half of all at most.
const FIRST: u64 = 4_000_000;

const FIRST_EACH: u64 = 40;

/// An order of a trace's operations or a refutation, which nobody has confirmed yet; undecided if it finds neither within
/// this many steps. It tells a watch how far it is. Err if memory was refused.
pub(crate) fn guess<W: SearchWatch>(
    alloc: Global,
    trace: &Trace,
    budget: u64,
    watch: &W,
) -> Result<Answer, AllocError> {
    match find(alloc, trace, Budget::new(budget), watch) {
        Err(Stop::Refused) => Err(AllocError),
        found => Ok(found.unwrap_or(Answer::Undecided)),
    }
}

/// An order, or a refutation. The search may give up.
fn find<'t, W: SearchWatch>(
    alloc: Global,
    trace: &'t Trace,
    budget: Budget,
    watch: &'t W,
) -> Tried<Answer> {
    let (operations, classes) = number(alloc, trace.cores())?;
    let groups = groups_of(alloc, &operations, classes.count_addresses())?;
    let mut finding = Finding {
        alloc,
        trace,
        operations: &operations,
        classes: &classes,
        groups: &groups,
        order: Vec::new(alloc),
        budget,
        watch,
    };
    let stopped = finding.walk_first()?;
    if finding.groups.is_empty() {
        return finding.order();
    }
    let (refuted, clocks) = finding.by_rules()?;
    match refuted {
        Some(refuted) => Ok(refuted),
        None => finding.go_on(stopped, &clocks),
    }
}

/// Whether nearly every read has one candidate: no more than one read in eight has several.
fn are_distinct(operations: &Operations, classes: &Classes) -> bool {
    let (mut reads, mut open) = (0usize, 0usize);
    for operation in &operations.all {
        reads = reads.saturating_add(usize::from(operation.read().is_some()));
        open = open.saturating_add(usize::from(classes.candidates(operation).len() > 1));
    }
    open <= reads / 8
}

/// How far the search is.
#[derive(Drop)]
struct Finding<'a, 't, W> {
    alloc: Global,
    trace: &'t Trace,
    operations: &'a Operations,
    classes: &'a Classes,
    /// The groups of cores that share no address, without those that have an order.
    groups: &'a [Vec<u32>],
    /// The order of the others.
    order: Vec<Place>,
    budget: Budget,
    watch: &'t W,
}

impl<'a, W: SearchWatch> Finding<'a, '_, W> {
    /// Walks without facts, unless words are distinct. Gives a walk that came to all states before it came to an order, if one did.
    fn walk_first(&mut self) -> Tried<Option<Walk<'a>>> {
        if are_distinct(self.operations, self.classes) {
            return Ok(None);
        }
        let each = FIRST_EACH.saturating_mul(self.operations.all.len() as u64);
        let steps = FIRST.saturating_add(each).min(self.budget.left() / 2);
        let stopped = self.walk(None, None, steps)?;
        Ok(stopped.filter(|walk| walk.is_closed()))
    }

    /// Goes on with what is known to be before each operation, from the walk that stopped, if one did: walks on, looks for a closed set of states,
    /// and walks on to the end.
    fn go_on(mut self, stopped: Option<Walk<'a>>, clocks: &'a Clocks) -> Tried<Answer> {
        let steps = self.budget.left() / 2;
        let Some(mut walk) = self.walk(stopped, Some(clocks), steps)? else {
            return self.order();
        };
        if let Some(refuted) = self.by_states(&mut walk)? {
            return Ok(refuted);
        }
        self.walk(Some(walk), Some(clocks), u64::MAX)?;
        self.order()
    }

    /// Walks for at most this many steps, over one group after the other. It goes on from a walk that stopped, if one did. Gives the walk that stops
    /// before it comes to an order, if one does.
    fn walk(
        &mut self,
        stopped: Option<Walk<'a>>,
        clocks: Option<&'a Clocks>,
        steps: u64,
    ) -> Tried<Option<Walk<'a>>> {
        let mut stopped = stopped;
        self.budget.allow(steps);
        for _ in 0..self.groups.len() {
            let [others @ .., cores] = self.groups else {
                break;
            };
            let mut walk = match stopped.take() {
                Some(walk) => walk,
                None => Walk::new(self.alloc, self.operations, self.classes, cores, clocks)?,
            };
            if !walk.run(&mut self.budget, self.watch)? {
                stopped = Some(walk);
                break;
            }
            self.order.extend_from_slice(walk.order())?;
            self.groups = others;
        }
        self.budget.allow(u64::MAX);
        Ok(stopped)
    }

    /// A refutation by what follows without cases, if there is one, and what is known to be before each operation. This may take half of the steps
    /// that are left.
    fn by_rules(&mut self) -> Tried<(Option<Answer>, Clocks)> {
        self.budget.allow(self.budget.left() / 2);
        let mut known = Knowledge::new(self.alloc, self.operations, self.classes, self.budget)?;
        let refuted = match known.refute(self.watch) {
            Ok(Some(reversed)) => {
                let (lines, places) = shrink(self.trace.cores(), &mut known, reversed, self.watch)?;
                let steps = steps(self.alloc, self.operations, &places, &lines)?;
                Some(Answer::Refutation(Refutation::new(steps)))
            }
            Ok(None) | Err(Stop::GivenUp) => None,
            Err(stop) => return Err(stop),
        };
        self.budget = known.budget;
        self.budget.allow(u64::MAX);
        Ok((refuted, known.clocks))
    }

    /// A refutation by a closed set of states, if it finds one where the walk stopped: without facts, or else with them.
    fn by_states(&mut self, walk: &mut Walk) -> Tried<Option<Answer>> {
        let mut known = Knowledge::new(self.alloc, self.operations, self.classes, self.budget)?;
        if let Some(refuted) = self.close(walk, &mut known)? {
            return Ok(Some(refuted));
        }
        self.budget.allow(self.budget.left() / 2);
        known.budget = self.budget;
        let saturated = known.saturate(self.watch);
        self.budget = known.budget;
        self.budget.allow(u64::MAX);
        match saturated {
            Ok(()) => self.close(walk, &mut known),
            Err(Stop::GivenUp) => Ok(None),
            Err(stop) => Err(stop),
        }
    }

    /// A refutation by a closed set of states in which moves wait for what is known, if it finds one. If the walk came to all states, nothing else is
    /// left to try, so this gets more of the steps.
    fn close(&mut self, walk: &mut Walk, known: &mut Knowledge) -> Tried<Option<Answer>> {
        let precedences = precedences(self.alloc, &known.facts)?;
        let cores: Vec<u32> = self.operations.cores().collect(self.alloc)?;
        let closing = Closing {
            alloc: self.alloc,
            operations: self.operations,
            classes: self.classes,
            cores: &cores,
            known: &precedences,
            share: if walk.is_closed() { 2 } else { 16 },
            watch: self.watch,
        };
        let Some(closed) = closing.close(walk, &mut self.budget)? else {
            return Ok(None);
        };
        known.budget = self.budget;
        let lines = known.showing(&closed.facts)?;
        let places = 0..short(self.operations.all.len())?;
        let places: Vec<Place> = places.collect(self.alloc)?;
        let mut steps = steps(self.alloc, self.operations, &places, &lines)?;
        steps.push(closed.step(self.alloc, self.operations, self.classes)?)?;
        Ok(Some(Answer::Refutation(Refutation::new(steps))))
    }

    /// The order that the walks came to. The search gives up if a group has none.
    fn order(&self) -> Tried<Answer> {
        if !self.groups.is_empty() {
            return Err(Stop::GivenUp);
        }
        let mut order = Vec::with_capacity(self.alloc, self.order.len())?;
        for place in &self.order {
            order.push(id(self.operations, *place)?)?;
        }
        Ok(Answer::Order(order))
    }
}
