//! Paces, which let the cores of a run go on.

use mem_op::CoreId;

/// A pace's word to a core that is about to make a turn.
#[derive(Clone, Copy, Debug, PartialEq, Eq)]
pub enum Go {
    /// Make the turn.
    Go,
    /// Stop: 31.
    Stop,
}

/// Each core of a run asks its pace before each of its turns.
pub trait Pace {
    /// The thread of a core calls it before a turn: the core has performed `done` operations, and made `turn` turns since the
    /// last of them. Until it answers, the core does nothing, and holds no lock.
    fn before(&self, core: CoreId, done: usize, turn: u64) -> Go;
}
