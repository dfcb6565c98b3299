//! Where the cores stand in a state of a set.

use super::walk::Link;
use mem_op::{CoreId, OpId, OpIndex, Word};
use refutation::{Point, State, StateSet, next_operation, number_of, was_performed, word_of};
use std::alloc::{AllocError, Global};
use trace::{Access, Address, Trace};

/// How a core goes on from a state.
#[derive(Clone, Copy)]
pub enum Course {
    /// It performed all its operations.
    Done,
    /// It may go on.
    Free,
    /// This operation of the core waits for the word that it reads; its address holds this word.
    Seeks(OpId, Word),
    /// This operation of the core waits for this point, which comes before it.
    Awaits(OpId, Point),
}

/// Where a core stands in a state.
#[derive(Clone, Copy)]
pub struct Stand {
    /// The core.
    pub core: CoreId,
    /// How many operations it performed.
    pub next: u64,
    /// The last one of them at the addresses of the set; `init` if there is none.
    pub last: Point,
    /// How it goes on.
    pub course: Course,
}

/// A state of a trace at some addresses, with facts in force.
#[derive(Clone, Copy)]
struct Standing<'a> {
    trace: &'a Trace,
    facts: &'a [Link],
    addresses: &'a [Address],
    state: &'a State,
}

/// Where each core that has operations at these addresses stands, with these facts in force: in the state of a set in which most is performed, the
/// first of them if there are several. Err if memory was refused.
pub fn stands(
    alloc: Global,
    trace: &Trace,
    facts: &[Link],
    addresses: &[Address],
    set: &StateSet,
) -> Result<Vec<Stand>, AllocError> {
    let mut stands = Vec::new(alloc);
    let Some(state) = furthest(set.as_slice()) else {
        return Ok(stands);
    };
    let standing = Standing {
        trace,
        facts,
        addresses,
        state,
    };
    for (core, operations) in trace.cores().iter().enumerate() {
        standing.push(&mut stands, core, operations)?;
    }
    Ok(stands)
}

/// The state in which most is performed, the first of them if there are several.
fn furthest(states: &[State]) -> Option<&State> {
    let mut furthest = states.first()?;
    for state in states {
        if performed(state) > performed(furthest) {
            furthest = state;
        }
    }
    Some(furthest)
}

/// How many operations are performed in a state.
fn performed(state: &State) -> u64 {
    let mut sum = 0u64;
    for next in state.next() {
        sum = sum.saturating_add(*next);
    }
    sum
}

impl<'a> Standing<'a> {
    /// Adds where the core with these operations stands, if some are at the addresses.
    fn push(
        &self,
        stands: &mut Vec<Stand>,
        core: usize,
        operations: &[Access],
    ) -> Result<(), AllocError> {
        let next = number_of(self.state.next(), core);
        let first = operations.get(..next as usize).unwrap_or(operations);
        let Ok(id) = CoreId::new(core as u64) else {
            return Ok(());
        };
        if self.last_of(id, operations) != Point::Init {
            stands.push(Stand {
                core: id,
                next,
                last: self.last_of(id, first),
                course: self.course(core),
            })?;
        }
        Ok(())
    }

    /// How a core goes on.
    fn course(&self, core: usize) -> Course {
        match self.wait(core) {
            Some(course) => course,
            None if next_operation(self.trace, self.state.next(), core).is_none() => Course::Done,
            None => Course::Free,
        }
    }

    /// How a core waits, if it does; in a dead state it waits at its limit.
    fn wait(&self, core: usize) -> Option<Course> {
        let numbers = match self.state {
            State::Open { next, .. } => next.as_slice(),
            State::Dead { limits, .. } => limits.as_slice(),
        };
        let (id, access) = next_operation(self.trace, numbers, core)?;
        let word = word_of(self.addresses, self.state.words(), access.addr())?;
        match access.read() {
            Some(read) if read != word => Some(Course::Seeks(id, word)),
            _ => Some(Course::Awaits(id, awaited(self.facts, self.state, &id)?)),
        }
    }

    /// The last of a core's first operations that is at one of the addresses; `init` if there is none.
    fn last_of(&self, core: CoreId, first: &[Access]) -> Point {
        for place in (0..first.len()).rev() {
            if self.addresses.contains(&first[place].addr())
                && let Ok(index) = OpIndex::new(place as u64)
            {
                return Point::At(OpId { core, index });
            }
        }
        Point::Init
    }
}

/// A point that isn't performed in a state and comes before an operation, by one of these facts; None if there is none.
pub fn awaited(facts: &[Link], state: &State, id: &OpId) -> Option<Point> {
    for fact in facts {
        if fact.later == Point::At(*id) && !was_performed(state.next(), &fact.earlier) {
            return Some(fact.earlier);
        }
    }
    None
}
