//! The operations and the arrows of a case that a cycle closes, or a read that nothing gives its word.

use super::scene::{Arrow, Kind};
use mem_op::{OpId, Word};
use refutation::{Point, Step, is_up_to};
use refuted_cases::{Hop, Link, link_at};
use std::alloc::{AllocError, Global};
use std::fmt;

/// What stands after an operation in its box.
#[derive(Clone, Copy)]
pub(crate) enum Note {
    Nothing,
    /// It loaded the initial 0.
    Initial,
    /// It waits for another point.
    Waits,
    /// It waits for its word, and finds this one.
    Finds(Word),
}

impl fmt::Display for Note {
    fn fmt<W: fmt::Write>(&self, f: &mut fmt::Formatter<W>) -> fmt::Result {
        match self {
            Note::Nothing => Ok(()),
            Note::Initial => f.write_str(" (initial)"),
            Note::Waits => f.write_str(" (waits)"),
            Note::Finds(word) => write!(f, " (finds {word})"),
        }
    }
}

/// An operation that is shown.
pub(crate) type Noted = (OpId, Note);

/// A fact that is shown, and whether it goes round.
pub(crate) type Reason = (Link, bool);

/// The facts of a case, and the step that closes it.
#[derive(Clone, Copy)]
pub(crate) struct Case<'a> {
    pub(crate) alloc: Global,
    pub(crate) facts: &'a [Link],
    pub(crate) steps: &'a [Step],
    pub(crate) last: Option<&'a Step>,
}

impl<'a> Case<'a> {
    /// The path that goes round.
    pub(crate) fn path(&self) -> &'a [usize] {
        match self.last {
            Some(Step::Cycle { path }) => path.as_slice(),
            _ => &[],
        }
    }

    /// For each fact in force, whether those of the path rest on it.
    fn needed(&self) -> Result<Vec<bool>, AllocError> {
        let mut needed = vec![in self.alloc; false; self.facts.len()]?;
        mark_all(&mut needed, self.path());
        for number in (0..self.facts.len()).rev() {
            if needed.get(number) == Some(&true) {
                self.mark_reasons(&mut needed, link_at(self.facts, number).step);
            }
        }
        Ok(needed)
    }

    /// Marks the facts that a step rests on as needed.
    fn mark_reasons(&self, needed: &mut Vec<bool>, place: usize) {
        match self.steps.get(place) {
            Some(Step::FromRead { source, path, .. })
            | Some(Step::WriteOrder { source, path, .. }) => {
                mark_all(needed, &[*source]);
                mark_all(needed, path.as_slice());
            }
            _ => {}
        }
    }

    /// The facts that are needed. The last of them comes back to where the path began.
    pub(crate) fn reasons(&self) -> Result<Vec<Reason>, AllocError> {
        let needed = self.needed()?;
        let mut reasons = Vec::new(self.alloc);
        let path = self.path();
        for (number, fact) in self.facts.iter().enumerate() {
            if needed.get(number) == Some(&true) && path.first() != Some(&number) {
                reasons.push((*fact, path.contains(&number)))?;
            }
        }
        if let Some(number) = path.first() {
            reasons.push((link_at(self.facts, *number), true))?;
        }
        Ok(reasons)
    }

    /// The operations of these facts, or the read that nothing gives its word: core by core, in program order.
    pub(crate) fn operations(&self, reasons: &[Reason]) -> Result<Vec<Noted>, AllocError> {
        let mut operations = Vec::new(self.alloc);
        for reason in reasons {
            add(&mut operations, &reason.0.earlier)?;
            add(&mut operations, &reason.0.later)?;
            add(&mut operations, &reason.0.last)?;
        }
        if let Some(Step::Read { read, .. }) = self.last {
            add(&mut operations, &Point::At(*read))?;
        }
        operations.sort_unstable_by_key(|it| it.0);
        Ok(operations)
    }

    /// Adds the arrow of a fact, if it is about two of these operations. It is red if the fact goes round.
    pub(crate) fn push_arrow(
        &self,
        arrows: &mut Vec<Arrow>,
        operations: &[Noted],
        reason: &Reason,
    ) -> Result<(), AllocError> {
        let fact = &reason.0;
        let from = place_of(operations, &fact.earlier);
        let to = place_of(operations, &fact.later);
        if let (Some(from), Some(to)) = (from, to) {
            arrows.push(Arrow {
                kind: self.kind_of(fact),
                from,
                to,
                is_red: reason.1,
            })?;
        }
        Ok(())
    }

    /// The kind of a fact's arrow.
    fn kind_of(&self, fact: &Link) -> Kind {
        match self.steps.get(fact.step) {
            Some(Step::FromRead { .. }) => Kind::FromRead,
            Some(Step::WriteOrder { .. }) => Kind::WriteOrder,
            _ => Kind::Source,
        }
    }

    /// Whether a case takes a fact for granted: in which of several ranges the source of a read lies.
    pub(crate) fn is_assumed(&self, fact: &Link) -> bool {
        match self.steps.get(fact.step) {
            Some(Step::Read { ranges, .. }) => ranges.as_slice().len() > 1,
            _ => false,
        }
    }
}

/// Notes the reads whose source is known to be the initial 0.
pub(crate) fn note_initial(operations: &mut Vec<Noted>, reasons: &[Reason]) {
    for operation in operations.iter_mut() {
        let read = Point::At(operation.0);
        let is_initial = reasons.iter().any(|reason| reason.0.later == read
            && reason.0.last == Point::Init);
        if is_initial {
            operation.1 = Note::Initial;
        }
    }
}

/// The place of a point among operations, if it is one of them.
fn place_of(operations: &[Noted], point: &Point) -> Option<usize> {
    operations.iter().position(|it| Point::At(it.0) == *point)
}

/// The arrows of program order between these operations; those on the way round are red.
pub(crate) fn program_arrows(
    alloc: Global,
    operations: &[Noted],
    round: &[Hop],
) -> Result<Vec<Arrow>, AllocError> {
    let mut arrows = Vec::new(alloc);
    for to in 1..operations.len() {
        let (earlier, later) = (&operations[to - 1].0, &operations[to].0);
        if earlier.core == later.core {
            arrows.push(Arrow {
                kind: Kind::Program,
                from: to - 1,
                to,
                is_red: goes_by(round, earlier, later),
            })?;
        }
    }
    Ok(arrows)
}

/// Whether the way round goes by program order from an operation, or one before it, to another or one after it.
fn goes_by(round: &[Hop], earlier: &OpId, later: &OpId) -> bool {
    let (earlier, later) = (Point::At(*earlier), Point::At(*later));
    round.iter().any(|hop| {
        let is_told = hop.by_program && hop.from != Point::Init;
        is_told && is_up_to(&hop.from, &earlier) && is_up_to(&later, &hop.to)
    })
}

/// Marks the facts of a path as needed.
fn mark_all(needed: &mut Vec<bool>, path: &[usize]) {
    for number in path {
        if let Some(there) = needed.get_mut(*number) {
            *there = true;
        }
    }
}

/// Adds an operation, unless it is there.
fn add(operations: &mut Vec<Noted>, point: &Point) -> Result<(), AllocError> {
    match point {
        Point::At(id) if place_of(operations, point).is_none() => {
            operations.push((*id, Note::Nothing))?
        }
        _ => (),
    }
    Ok(())
}
