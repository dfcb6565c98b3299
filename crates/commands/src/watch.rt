//! What watches a run while it lasts.

use machine::{Go, Pace};
use mem_op::CoreId;

/// What watches a run in threads while it lasts. It changes nothing of the run.
pub trait Watch {
    /// Called by the thread of a core before each of its turns: the core has performed `done` operations, and made `turn` turns
    /// since the last of them.
    fn before(&self, core: CoreId, done: usize, turn: u64);

    /// Called when the run is over, before anybody hears how it ended.
    fn over(&self);
}

/// A pace that always goes, and has the run watched.
#[derive(Clone, Copy)]
pub(crate) struct Watched<'a, W: Watch> {
    pub(crate) watch: &'a W,
}

impl<'a, W: Watch> Pace for Watched<'a, W> {
    fn before(&self, core: CoreId, done: usize, turn: u64) -> Go {
        self.watch.before(core, done, turn);
        Go::Go
    }
}
