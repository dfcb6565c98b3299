//! Turns a proof that no order exists into a refutation, which names facts by their places among those in force.

use deduction::{Derived, Line, Rule};
use mem_op::OpId;
use numbered_trace::{Operations, Place, START, Stop, Tried, at, id};
use refutation::{Path, Point, Range, Ranges, Step};
use std::alloc::Global;

/// What it takes to make the steps of a refutation.
#[derive(Drop)]
struct Numbering<'a> {
    alloc: Global,
    operations: &'a Operations,
    /// The operations that the lines name by their numbers in this list.
    places: &'a [Place],
    /// The facts in force, in the order of their numbers.
    facts: Vec<u32>,
    /// The facts of the cases that wait, each with how many facts it stands on.
    waiting: Vec<(u32, usize)>,
}

/// The steps of a refutation that these lines of a proof make. The lines stand last one first.
pub(crate) fn steps(
    alloc: Global,
    operations: &Operations,
    places: &[Place],
    reversed: &[Line],
) -> Tried<Vec<Step>> {
    let mut numbering = Numbering {
        alloc,
        operations,
        places,
        facts: Vec::new(alloc),
        waiting: Vec::new(alloc),
    };
    let mut steps = Vec::with_capacity(alloc, reversed.len())?;
    for line in reversed.iter().rev() {
        steps.push(numbering.step(line)?)?;
    }
    Ok(steps)
}

impl Numbering<'_> {
    /// The step that a line makes. Goes on to the facts that are in force after it.
    fn step(&mut self, line: &Line) -> Tried<Step> {
        let step = match line {
            Line::Derived(derived) => return self.derived(derived),
            Line::Read(read, ranges, fact) => {
                self.wait(ranges.len(), *fact)?;
                Step::Read {
                    read: self.id(*read)?,
                    ranges: self.ranges(ranges)?,
                }
            }
            Line::Cycle(path) => Step::Cycle {
                path: self.path(path)?,
            },
        };
        if let Some((fact, below)) = self.waiting.pop() {
            self.facts.truncate(below);
            self.facts.push(fact)?;
        }
        Ok(step)
    }

    /// Lets this many cases wait, each of which begins with a fact of this number.
    fn wait(&mut self, cases: usize, fact: u32) -> Tried<()> {
        let waiting = self.waiting.len().saturating_add(cases);
        Ok(self.waiting.resize(waiting, (fact, self.facts.len()))?)
    }

    /// The step of from-read or of write-order. Goes on to the facts that are in force after it.
    fn derived(&mut self, derived: &Derived) -> Tried<Step> {
        let source = self.number(derived.source)?;
        let write = self.id(derived.store)?;
        let path = self.path(&derived.path)?;
        self.facts.push(derived.fact)?;
        Ok(match derived.rule {
            Rule::WriteOrder => Step::WriteOrder {
                source,
                write,
                path,
            },
            Rule::FromRead => Step::FromRead {
                source,
                write,
                path,
            },
        })
    }

    /// The id of an operation that a line names.
    fn id(&self, number: Place) -> Tried<OpId> {
        id(self.operations, at(self.places, number))
    }

    /// The point that a line names.
    fn point(&self, number: Place) -> Tried<Point> {
        if number == START {
            return Ok(Point::Init);
        }
        Ok(Point::At(self.id(number)?))
    }

    /// The ranges of the cases of a read.
    fn ranges(&self, places: &[(Place, Place)]) -> Tried<Ranges> {
        let mut ranges = Vec::with_capacity(self.alloc, places.len())?;
        for (first, last) in places {
            let (first, last) = (self.point(*first)?, self.point(*last)?);
            ranges.push(Range { first, last })?;
        }
        Ok(Ranges::new(ranges))
    }

    /// The place of a fact among those in force.
    fn number(&self, fact: u32) -> Tried<usize> {
        let place = self.facts.binary_search(&fact);
        place.ok().ok_or(Stop::GivenUp)
    }

    /// The path by these facts.
    fn path(&self, facts: &[u32]) -> Tried<Path> {
        let mut numbers = Vec::with_capacity(self.alloc, facts.len())?;
        for fact in facts {
            numbers.push(self.number(*fact)?)?;
        }
        Ok(Path::new(numbers))
    }
}
