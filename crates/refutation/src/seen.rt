//! The states of a set, as they are looked up.

ghost use Rattle.std.specs.Prelude.{◌≡◌, ◌↔◌, ℕ, List, IsTrue, IfOk};
ghost use Rattle.refutation.specs.States.{Has};
ghost use Rattle.refutation.specs.inner.Seen.{is_among};

use super::state::State;
use std::alloc::{AllocError, Global};
use std::collections::BTreeSet;

/// The indices and words of states.
#[derive(Drop)]
pub(crate) struct Seen {
    keys: BTreeSet<(Vec<u64>, Vec<u64>)>,
}

impl Seen {
    /// The indices and words of these states.
    pub(crate) fn of(alloc: Global, states: &[State]) -> Result<Seen, AllocError>
        ensures { IfOk result (λ seen. (next words : List ℕ) → IsTrue (is_among seen.keys next words) ↔ Has states.now next words) }
    {
        let mut keys = BTreeSet::new(alloc);
        for state in states {
            let next = Vec::from_slice(alloc, state.next())?;
            let words = Vec::from_slice(alloc, state.words())?;
            keys.insert((next, words))?;
        }
        Ok(Seen { keys })
    }

    /// Whether the state of these indices and words is among them.
    pub(crate) fn has(&self, next: Vec<u64>, words: Vec<u64>) -> bool
        ensures { result ≡ is_among self.now.keys next.items words.items }
    {
        self.keys.contains(&(next, words))
    }
}
