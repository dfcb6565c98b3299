//! States of cores and of memory.

ghost use Rattle.std.specs.Prelude.{◌≡◌};
ghost use Rattle.refutation.specs.States.{next_of, words_of};

use super::items::Items;

/// Numbers, one after the other.
pub type Numbers = Items<u64>;

/// How far each core is, and what memory holds at the addresses of a set.
#[derive(Debug, Drop)]
pub enum State {
    /// Each move from it leads to a state of the set.
    Open {
        /// For each core, the index of its next operation.
        next: Numbers,
        /// For each address, its word.
        words: Numbers,
    },
    /// It leads to no end: each core that has an operation at its limit waits there for a word that no operation before
    /// the limits stores.
    Dead {
        /// For each core, the index of its next operation.
        next: Numbers,
        /// For each address, its word.
        words: Numbers,
        /// For each core, the index of the read that it can't perform, or how many operations it has.
        limits: Numbers,
    },
}

impl State {
    /// For each core, the index of its next operation.
    pub fn next(&self) -> &[u64]
        ensures { result.now ≡ next_of self.now }
    {
        match self {
            State::Open { next, .. } | State::Dead { next, .. } => next.as_slice(),
        }
    }

    /// For each address of the set, its word.
    pub fn words(&self) -> &[u64]
        ensures { result.now ≡ words_of self.now }
    {
        match self {
            State::Open { words, .. } | State::Dead { words, .. } => words.as_slice(),
        }
    }
}

/// A set of states.
pub type StateSet = Items<State>;
