//! The rules: the cases that a step gives.

ghost use Rattle.std.specs.Prelude.{◌≡◌, ◌↔◌, IsTrue, [], ◌∷◌, IfOk, IsSomeAnd, MatchOption, None, map};
ghost use Rattle.refutation.specs.declared.fact.Fact.TheVariants.{Source};
ghost use Rattle.refutation.specs.Rules.{Gives, HasItsSourceIn, IsOtherWrite, IsFromRead, IsWriteOrder};
ghost use Rattle.refutation.specs.States.{IsClosedSet};
ghost use Rattle.refutation.specs.inner.Answers.{TellsGiven, TellsOne};

use super::closed::is_closed;
use super::covering::cover;
use super::fact::{Fact, fact_at};
use super::path::{is_cycle, leads};
use super::state::StateSet;
use super::step::{Point, Range, Step};
use mem_op::OpId;
use std::alloc::{AllocError, Global};
use trace::{Address, Trace};

/// That a read's source lies in a range, for each of these ranges.
fn sources(alloc: Global, read: &OpId, ranges: &[Range]) -> Result<Vec<Fact>, AllocError>
    ensures { IfOk result (λ facts. facts.items ≡ map (λ range. Source read.now range) ranges.now) }
{
    let facts = ranges.iter().map(|range| Fact::Source(*read, *range));
    facts.collect(alloc)
}

/// The cases of a split by a read's source. None if this is no read, or its source may lie outside of the ranges.
fn by_source(
    alloc: Global,
    trace: &Trace,
    read: &OpId,
    ranges: &[Range],
) -> Result<Option<Vec<Fact>>, AllocError>
    ensures { IfOk result (TellsGiven (λ given.
        HasItsSourceIn trace.now read.now ranges.now × (given ≡ map (λ range. Source read.now range) ranges.now))) }
{
    let Some(access) = trace.operation(read) else {
        return Ok(None);
    };
    match access.read() {
        Some(value) if cover(trace, read, access.addr(), value, ranges) => {
            Ok(Some(sources(alloc, read, ranges)?))
        }
        _ => Ok(None),
    }
}

/// Whether an operation writes the address of a read, and is neither the read nor the last point of its source.
fn is_other_write(trace: &Trace, read: &OpId, last: &Point, write: &OpId) -> bool
    ensures { IsTrue result ↔ IsOtherWrite trace.now read.now last.now write.now }
{
    let (Some(reading), Some(writing)) = (trace.operation(read), trace.operation(write)) else {
        return false;
    };
    writing.is_store_to(reading.addr()) && write != read && *last != Point::At(*write)
}

/// That a read is before a write, to which the path leads from the last point of the read's source.
fn from_read(
    trace: &Trace,
    facts: &[Fact],
    source: usize,
    write: &OpId,
    path: &[usize],
) -> Option<Fact>
    ensures { TellsOne (IsFromRead trace.now facts.now source write.now path.now) result }
{
    let Fact::Source(read, range) = fact_at(facts, source)? else {
        return None;
    };
    let at = Point::At(*write);
    let is_right = is_other_write(trace, &read, &range.last, write)
        && leads(facts, &range.last, path, &at);
    is_right.then_some(Fact::Before(Point::At(read), at))
}

/// That a write, from which the path leads to a read, is before the last point of the read's source.
fn write_order(
    trace: &Trace,
    facts: &[Fact],
    source: usize,
    write: &OpId,
    path: &[usize],
) -> Option<Fact>
    ensures { TellsOne (IsWriteOrder trace.now facts.now source write.now path.now) result }
{
    let Fact::Source(read, range) = fact_at(facts, source)? else {
        return None;
    };
    let at = Point::At(*write);
    let is_right = is_other_write(trace, &read, &range.last, write)
        && leads(facts, &at, path, &Point::At(read));
    is_right.then_some(Fact::Before(at, range.last))
}

/// The one case of a fact that follows.
fn one_case(alloc: Global, fact: Option<Fact>) -> Result<Option<Vec<Fact>>, AllocError>
    ensures { IfOk result (λ facts. MatchOption fact (facts ≡ None) (λ f. IsSomeAnd facts (λ given. given.items ≡ f ∷ []))) }
{
    let Some(fact) = fact else {
        return Ok(None);
    };
    Ok(Some(vec![in alloc; fact]?))
}

/// No case, if a set of states shows that there is no order; None if it doesn't.
fn by_states(
    alloc: Global,
    trace: &Trace,
    facts: &[Fact],
    addresses: &[Address],
    set: &StateSet,
) -> Result<Option<Vec<Fact>>, AllocError>
    ensures { IfOk result (TellsGiven (λ given. IsClosedSet trace.now facts.now addresses.now set.now × (given ≡ []))) }
{
    Ok(is_closed(alloc, trace, facts, addresses, set)?.then_some(Vec::new(alloc)))
}

/// The facts of the cases that a step gives with these facts in force; None if the step isn't right.
pub(crate) fn given(
    alloc: Global,
    trace: &Trace,
    facts: &[Fact],
    step: &Step,
) -> Result<Option<Vec<Fact>>, AllocError>
    ensures { IfOk result (TellsGiven (Gives trace.now facts.now step.now)) }
{
    match step {
        Step::Read { read, ranges } => by_source(alloc, trace, read, ranges.as_slice()),
        Step::FromRead {
            source,
            write,
            path,
        } => one_case(
            alloc,
            from_read(trace, facts, *source, write, path.as_slice()),
        ),
        Step::WriteOrder {
            source,
            write,
            path,
        } => one_case(
            alloc,
            write_order(trace, facts, *source, write, path.as_slice()),
        ),
        Step::Cycle { path } => { Ok(is_cycle(facts, path.as_slice()).then_some(Vec::new(alloc))) }
        Step::States { addresses, set } => by_states(
            alloc,
            trace,
            facts,
            addresses.as_slice(),
            set,
        ),
    }
}
