//! Proofs that a case is closed, which grow from their end.

use numbered_trace::{Place, Tried};
use std::alloc::Global;
use std::collections::BTreeSet;

/// By which rule a fact follows.
#[derive(Clone, Copy, PartialEq, Eq)]
pub enum Rule {
    /// A read is before a store that is after its source.
    FromRead,
    /// A store before a read is before its source.
    WriteOrder,
}

/// How a fact follows from the source of a read and a path.
#[derive(Drop)]
pub struct Derived {
    pub rule: Rule,
    /// The fact that says where the source is.
    pub source: u32,
    /// A store other than the source: the path leads from the source to it, or from it to the read.
    pub store: Place,
    pub path: Vec<u32>,
    /// The number of what follows.
    pub fact: u32,
}

/// A step of a proof. Its facts have the numbers that the search gave them.
#[derive(Drop)]
pub enum Line {
    /// The source of a read lies in one of these ranges: a case for each, which begins with a fact of this number.
    Read(Place, Vec<(Place, Place)>, u32),
    /// A fact follows.
    Derived(Derived),
    /// These facts lead back to where they begin, so the case is closed.
    Cycle(Vec<u32>),
}

/// The lines that close a case, last one first, and the facts that they need but don't show.
#[derive(Drop)]
pub(crate) struct Proof {
    pub(crate) reversed: Vec<Line>,
    needs: BTreeSet<u32>,
}

impl Proof {
    /// A proof without lines, which needs nothing.
    pub(crate) fn new(alloc: Global) -> Proof {
        Proof {
            reversed: Vec::new(alloc),
            needs: BTreeSet::new(alloc),
        }
    }

    /// Puts a step of from-read or of write-order before the others. The step needs its path.
    pub(crate) fn derive(&mut self, derived: Derived) -> Tried<()> {
        self.need(&derived.path)?;
        Ok(self.reversed.push(Line::Derived(derived))?)
    }

    /// Closes a case by a fact in it and a path that leads back. The step needs the path.
    pub(crate) fn close(&mut self, fact: u32, mut path: Vec<u32>) -> Tried<()> {
        self.need(&path)?;
        path.insert(0, fact)?;
        Ok(self.reversed.push(Line::Cycle(path))?)
    }

    /// Adds facts to those that are needed.
    pub(crate) fn need(&mut self, facts: &[u32]) -> Tried<()> {
        Ok(self.needs.extend(facts)?)
    }

    /// Takes away the last fact that is needed.
    pub(crate) fn take_need(&mut self) -> Option<u32> {
        self.needs.pop_last()
    }
}
