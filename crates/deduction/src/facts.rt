//! What is known to be before what, and why.

use numbered_trace::{NONE, Place, Tried, at, put, short};
use std::alloc::Global;

/// Why a fact holds.
#[derive(Clone, Copy)]
pub(crate) enum Reason {
    /// The source of the later operation, a read, lies in the range from the earlier one to this one of the same core.
    Source(Place),
    /// By a rule, from the fact of this number, which says where the source of a read lies.
    Rule(u32),
}

/// That one operation is before another. It takes 20 bytes.
#[derive(Clone, Copy)]
pub struct Fact {
    pub earlier: Place,
    pub later: Place,
    /// The last fact before this one that has the same earlier operation, or NONE.
    pub(crate) next: u32,
    pub(crate) reason: Reason,
}

/// All facts, numbered in the order in which they were found.
#[derive(Drop)]
pub struct Facts {
    pub all: Vec<Fact>,
    /// For each operation, the last fact in which it is the earlier one, or NONE.
    latest: Vec<u32>,
    /// For each read, the last fact that says where its source lies, or NONE.
    sources: Vec<u32>,
}

impl Facts {
    /// No facts about this many operations.
    pub(crate) fn new(alloc: Global, operations: usize) -> Tried<Facts> {
        Ok(Facts {
            all: Vec::new(alloc),
            latest: vec![in alloc; NONE; operations]?,
            sources: vec![in alloc; NONE; operations]?,
        })
    }

    /// The fact of a number, with this number.
    pub(crate) fn get(&self, number: u32) -> Option<(u32, Fact)> {
        Some((number, *self.all.get(number as usize)?))
    }

    /// The last fact in which an operation is the earlier one, with its number. The others follow by `next`.
    pub(crate) fn latest(&self, earlier: Place) -> Option<(u32, Fact)> {
        self.get(at(&self.latest, earlier))
    }

    /// What is known about where a read's source lies: the number of the fact, the first and the last place.
    pub(crate) fn source(&self, read: Place) -> Option<(u32, Place, Place)> {
        let (number, fact) = self.get(at(&self.sources, read))?;
        match fact.reason {
            Reason::Source(last) => Some((number, fact.earlier, last)),
            _ => None,
        }
    }

    /// Whether it is known which a read's source is.
    pub(crate) fn has_source(&self, read: Place) -> bool {
        matches!(self.source(read), Some((_, first, last)) if first == last)
    }

    /// Appends a fact, and gives its number.
    pub(crate) fn push(&mut self, earlier: Place, later: Place, reason: Reason) -> Tried<u32> {
        let number = short(self.all.len())?;
        let next = at(&self.latest, earlier);
        self.all.push(Fact {
            earlier,
            later,
            next,
            reason,
        })?;
        put(&mut self.latest, earlier, number)?;
        if matches!(reason, Reason::Source(_)) {
            put(&mut self.sources, later, number)?;
        }
        Ok(number)
    }
}
