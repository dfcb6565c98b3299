//! Which question of its rule a step of a refutation fails.

use super::failed_sets::push_failed_set;
use super::shown::{At, Deed, Written};
use mem_op::{CoreId, OpId, OpIndex, Word};
use refutation::{Point, Range, Step, is_up_to, lies_in};
use refuted_cases::{Link, Named, Names};
use std::alloc::Global;
use std::fmt;
use std::fmt::Display;
use trace::{Access, Address, Trace};

/// Why a step isn't right.
#[derive(Clone, Copy)]
enum Failure {
    NoOperation(OpId),
    NoRead(OpId),
    /// What may have given a read its word lies in none of the ranges.
    Outside(OpId, Point),
    /// There is no fact of this number, where so many are in force.
    NoFact(usize, usize),
    /// The fact of this number isn't that of a read's source.
    NoSource(usize, Link),
    /// The write isn't one at the address of the read.
    Elsewhere(OpId, Address, Point),
    /// The write is the read itself.
    Itself(Point),
    /// The write is the last that may have given the read its word.
    Giver(Point, Point),
    /// Program order doesn't lead from a point to another, where the fact of this number begins, or the path ends.
    Gap(Point, Point, Option<usize>),
    NoCycle,
}

/// The words about a failure of a path, and none about others.
#[derive(Clone, Copy)]
struct OfPath(Failure);

impl Display for OfPath {
    fn fmt<W: fmt::Write>(&self, f: &mut fmt::Formatter<W>) -> fmt::Result {
        match self.0 {
            Failure::NoFact(number, 0) => {
                write!(f, "There is no fact {number} yet: none is in force.")
            }
            Failure::NoFact(number, count) => {
                let last = count.saturating_sub(1);
                write!(f, "There is no fact {number} yet: the last one is {last}.")
            }
            Failure::Gap(at, to, fact) => {
                let (at, to) = (Named(at), Named(to));
                write!(f, "Program order doesn't lead from {at} to {to}, where ")?;
                match fact {
                    Some(number) => write!(f, "fact {number} begins."),
                    None => f.write_str("the path has to end."),
                }
            }
            Failure::NoCycle => f.write_str("A cycle goes by one fact or more."),
            _ => Ok(()),
        }
    }
}

/// The words about a failure, beside a trace whose addresses have these names.
#[derive(Clone, Copy)]
struct Told<'a>(&'a Trace, &'a Names, Failure);

impl<'a> Display for Told<'a> {
    fn fmt<W: fmt::Write>(&self, f: &mut fmt::Formatter<W>) -> fmt::Result {
        match self.2 {
            Failure::NoOperation(id) => write!(f, "The trace has no operation {}.", Point::At(id)),
            Failure::NoRead(id) => write!(f, "{}, and read nothing.", Deed(self.0, self.1, id)),
            Failure::Outside(id, Point::Init) => write!(
                f,
                "{}. The initial 0 may have given that, and lies in none of the ranges.",
                Deed(self.0, self.1, id)
            ),
            Failure::Outside(id, write) => write!(
                f,
                "{}. {write} stored that there, and lies in none of the ranges.",
                Deed(self.0, self.1, id)
            ),
            Failure::NoSource(number, known) => write!(
                f,
                "Fact {number} says that {} comes before {}; the step names one that a read gave.",
                Named(known.earlier),
                Named(known.later)
            ),
            Failure::Elsewhere(id, addr, read) => write!(
                f,
                "{}; the step names a store or swap at address {}, where {read} read.",
                Deed(self.0, self.1, id),
                At(self.1, addr)
            ),
            Failure::Itself(at) => {
                write!(f, "{at} is the read itself; the step names another write.")
            }
            Failure::Giver(at, read) => write!(
                f,
                "{at} is the last that may have given {read} its word; the step names another write."
            ),
            path => OfPath(path).fmt(f),
        }
    }
}

/// What a rule is asked about: a trace, the names of its addresses, the steps before, and the facts in force.
#[derive(Clone, Copy)]
pub(crate) struct Asked<'a> {
    pub(crate) trace: &'a Trace,
    pub(crate) names: &'a Names,
    pub(crate) steps: &'a [Step],
    pub(crate) facts: &'a [Link],
}

/// A read at an address, of this word there.
#[derive(Clone, Copy)]
struct Reading {
    id: OpId,
    addr: Address,
    word: Word,
}

impl<'a> Asked<'a> {
    /// Adds which question a step fails, which isn't right.
    pub(crate) fn push_failure(&self, told: &mut String, alloc: Global, step: &Step) -> Written {
        let asked = match step {
            Step::Read { read, ranges } => self.read(read, ranges.as_slice()),
            Step::FromRead {
                source,
                write,
                path,
            } => self.from_read(*source, write, path.as_slice()),
            Step::WriteOrder {
                source,
                write,
                path,
            } => self.write_order(*source, write, path.as_slice()),
            Step::Cycle { path } => self.cycle(path.as_slice()),
            Step::States { addresses, set } => {
                return push_failed_set(told, alloc, self, addresses.as_slice(), set.as_slice());
            }
        };
        match asked {
            Err(failure) => write!(told, "{}\n", Told(self.trace, self.names, failure)),
            Ok(()) => Ok(()),
        }
    }

    /// Whether the source of a read lies in these ranges.
    fn read(&self, read: &OpId, ranges: &[Range]) -> Result<(), Failure> {
        let access = self.operation(read)?;
        let reading = Reading {
            id: *read,
            addr: access.addr(),
            word: access.read().ok_or(Failure::NoRead(*read))?,
        };
        match self.outside(&reading, ranges) {
            Some(point) => Err(Failure::Outside(*read, point)),
            None => Ok(()),
        }
    }

    /// What may have given a read its word, and lies in none of these ranges.
    fn outside(&self, read: &Reading, ranges: &[Range]) -> Option<Point> {
        if read.word == 0 && !lies_in(ranges, &Point::Init) {
            return Some(Point::Init);
        }
        for (core, operations) in self.trace.cores().iter().enumerate() {
            let core = CoreId::new(core as u64).ok()?;
            if let Some(write) = outside_of_core(core, operations, read, ranges) {
                return Some(write);
            }
        }
        None
    }

    /// Whether a write comes after the source of a read, by this path.
    fn from_read(&self, source: usize, write: &OpId, path: &[usize]) -> Result<(), Failure> {
        let known = self.source(source, write)?;
        self.way(&known.last, path, &Point::At(*write))
    }

    /// Whether a write comes before a read, by this path.
    fn write_order(&self, source: usize, write: &OpId, path: &[usize]) -> Result<(), Failure> {
        let known = self.source(source, write)?;
        self.way(&Point::At(*write), path, &known.later)
    }

    /// The operation of an id.
    fn operation(&self, id: &OpId) -> Result<Access, Failure> {
        match self.trace.operation(id) {
            Some(access) => Ok(access),
            None => Err(Failure::NoOperation(*id)),
        }
    }

    /// The fact of a number.
    fn fact(&self, number: usize) -> Result<Link, Failure> {
        let none = Failure::NoFact(number, self.facts.len());
        self.facts.get(number).copied().ok_or(none)
    }

    /// The fact of this number, which tells the source of a read; and the write is another one at its address.
    fn source(&self, number: usize, write: &OpId) -> Result<Link, Failure> {
        let known = self.fact(number)?;
        let Some(read) = self.reader(&known) else {
            return Err(Failure::NoSource(number, known));
        };
        self.other(read, &known.last, write)?;
        Ok(known)
    }

    /// The read whose source a fact tells.
    fn reader(&self, known: &Link) -> Option<&'a OpId> {
        match self.steps.get(known.step) {
            Some(Step::Read { read, .. }) => Some(read),
            _ => None,
        }
    }

    /// Whether a write is one at the address of a read, and neither that read nor the last point of its source.
    fn other(&self, read: &OpId, last: &Point, write: &OpId) -> Result<(), Failure> {
        let (writing, at) = (self.operation(write)?, Point::At(*write));
        let addr = self.trace.operation(read).map_or(0, |access| access.addr());
        if !writing.is_store_to(addr) {
            return Err(Failure::Elsewhere(*write, addr, Point::At(*read)));
        }
        if write == read {
            return Err(Failure::Itself(at));
        }
        if *last == at {
            return Err(Failure::Giver(at, Point::At(*read)));
        }
        Ok(())
    }

    /// Whether a path leads on from one point to another.
    fn way(&self, from: &Point, path: &[usize], to: &Point) -> Result<(), Failure> {
        let mut at = *from;
        for number in path {
            let known = self.fact(*number)?;
            if !is_up_to(&at, &known.earlier) {
                return Err(Failure::Gap(at, known.earlier, Some(*number)));
            }
            at = known.later;
        }
        if !is_up_to(&at, to) {
            return Err(Failure::Gap(at, *to, None));
        }
        Ok(())
    }

    /// Whether a path goes round.
    fn cycle(&self, path: &[usize]) -> Result<(), Failure> {
        let [number, rest @ ..] = path else {
            return Err(Failure::NoCycle);
        };
        let first = self.fact(*number)?;
        self.way(&first.later, rest, &first.earlier)
    }
}

/// A write of a core that may have given a read its word, and lies in none of these ranges.
fn outside_of_core(
    core: CoreId,
    operations: &[Access],
    read: &Reading,
    ranges: &[Range],
) -> Option<Point> {
    for (index, access) in operations.iter().enumerate() {
        let index = OpIndex::new(index as u64).ok()?;
        let id = OpId { core, index };
        let at = Point::At(id);
        if access.stores(read.addr, read.word) && id != read.id && !lies_in(ranges, &at) {
            return Some(at);
        }
    }
    None
}
