//! A walk through the steps of a refutation: what is known of an order at each, and where that leads.

use mem_op::OpId;
use refutation::{Point, Range, Step};
use std::alloc::{AllocError, Global};

/// That one point is before another.
#[derive(Clone, Copy)]
pub struct Link {
    /// The one that is before the other.
    pub earlier: Point,
    /// The other one: the read, if the fact is about a read's source.
    pub later: Point,
    /// The last point that a read's source may be; otherwise the later one.
    pub last: Point,
    /// The place of the step that gave it.
    pub step: usize,
}

/// Whether a step closes the present case.
pub fn closes(step: &Step) -> bool {
    match step {
        Step::Cycle { .. } | Step::States { .. } => true,
        Step::Read { ranges, .. } => ranges.as_slice().is_empty(),
        _ => false,
    }
}

/// The fact of a number; from `init` to `init` if there is none. (Each step that is right names facts that are in force.)
pub fn link_at(facts: &[Link], number: usize) -> Link {
    match facts.get(number) {
        Some(link) => *link,
        None => Link {
            earlier: Point::Init,
            later: Point::Init,
            last: Point::Init,
            step: 0,
        },
    }
}

/// The facts in force, and the cases that wait.
#[derive(Drop)]
pub struct Walk {
    facts: Vec<Link>,
    /// For each, how many of the facts in force it keeps, in how many splits it stands, and its own fact.
    waiting: Vec<(usize, usize, Link)>,
    depth: usize,
    place: usize,
}

impl Walk {
    /// One case, in which nothing is known.
    pub fn new(alloc: Global) -> Walk {
        Walk {
            facts: Vec::new(alloc),
            waiting: Vec::new(alloc),
            depth: 0,
            place: 0,
        }
    }

    /// The facts in force.
    pub fn facts(&self) -> &[Link] {
        &self.facts
    }

    /// In how many splits the case stands.
    pub fn depth(&self) -> usize {
        self.depth
    }

    /// Goes on to what is known after the next step. Says whether another case begins there, whose fact is the last one in
    /// force. Err if memory was refused.
    pub fn follow(&mut self, step: &Step) -> Result<bool, AllocError> {
        let is_split = match step {
            Step::Read { ranges, .. } => ranges.as_slice().len() != 1,
            _ => closes(step),
        };
        self.give(step, self.depth.saturating_add(usize::from(is_split)))?;
        self.place = self.place.saturating_add(1);
        let Some((kept, depth, fact)) = self.waiting.pop() else {
            return Ok(false);
        };
        self.facts.truncate(kept);
        self.facts.push(fact)?;
        self.depth = depth;
        Ok(is_split)
    }

    /// Adds a waiting case, in this many splits, for each fact that the next step gives; the first of them comes next.
    fn give(&mut self, step: &Step, depth: usize) -> Result<(), AllocError> {
        match step {
            Step::Read { read, ranges } => self.give_sources(read, ranges.as_slice(), depth),
            Step::FromRead { source, write, .. } => {
                let (read, write) = (link_at(&self.facts, *source).later, Point::At(*write));
                self.wait(&read, &write, &write, depth)
            }
            Step::WriteOrder { source, write, .. } => {
                let (write, last) = (Point::At(*write), link_at(&self.facts, *source).last);
                self.wait(&write, &last, &last, depth)
            }
            Step::Cycle { .. } | Step::States { .. } => Ok(()),
        }
    }

    /// Adds a waiting case for each of these ranges, in which the source of a read may lie.
    fn give_sources(
        &mut self,
        read: &OpId,
        ranges: &[Range],
        depth: usize,
    ) -> Result<(), AllocError> {
        let read = Point::At(*read);
        for range in ranges.iter().rev() {
            self.wait(&range.first, &read, &range.last, depth)?;
        }
        Ok(())
    }

    /// Adds a waiting case whose fact the next step gives.
    fn wait(
        &mut self,
        earlier: &Point,
        later: &Point,
        last: &Point,
        depth: usize,
    ) -> Result<(), AllocError> {
        let fact = Link {
            earlier: *earlier,
            later: *later,
            last: *last,
            step: self.place,
        };
        self.waiting.push((self.facts.len(), depth, fact))?;
        Ok(())
    }
}

/// A piece of a path, from one point to another.
#[derive(Clone, Copy)]
pub struct Hop {
    /// Where it begins.
    pub from: Point,
    /// Where it ends.
    pub to: Point,
    /// Whether it goes by program order, and not by a fact.
    pub by_program: bool,
}

/// Goes on to a point, unless that is the last one, or the start if there is no last one.
fn go_on(
    hops: &mut Vec<Hop>,
    start: &Point,
    to: &Point,
    by_program: bool,
) -> Result<(), AllocError> {
    let from = hops.last().map_or(*start, |last| last.to);
    if from != *to {
        let to = *to;
        hops.push(Hop {
            from,
            to,
            by_program,
        })?;
    }
    Ok(())
}

/// The pieces of the path by these facts from one point to another. Err if memory was refused.
pub fn hops(
    alloc: Global,
    facts: &[Link],
    from: &Point,
    path: &[usize],
    to: &Point,
) -> Result<Vec<Hop>, AllocError> {
    let mut hops = Vec::new(alloc);
    for number in path {
        let fact = link_at(facts, *number);
        go_on(&mut hops, from, &fact.earlier, true)?;
        go_on(&mut hops, from, &fact.later, false)?;
    }
    go_on(&mut hops, from, to, true)?;
    Ok(hops)
}

/// The pieces of a path that comes back to where its first fact ends: there it begins and ends. Err if memory was refused.
pub fn round(alloc: Global, facts: &[Link], path: &[usize]) -> Result<Vec<Hop>, AllocError> {
    let [number, rest @ ..] = path else {
        return Ok(Vec::new(alloc));
    };
    let first = link_at(facts, *number);
    let mut hops = hops(alloc, facts, &first.later, rest, &first.earlier)?;
    hops.push(Hop {
        from: first.earlier,
        to: first.later,
        by_program: false,
    })?;
    Ok(hops)
}
