//! What is seen of a run or a search.

use commands::{ReplayWatch, SearchWatch, Watch};
use mem_op::CoreId;
use std::sync::atomic::{AtomicU64, Ordering};
use trace_replay::WrongLoad;

/// Counts the turns of runs and the runs that are over; it counts nothing of a search or a replay.
#[derive(Drop)]
pub(crate) struct Counting {
    turns: AtomicU64,
    over: AtomicU64,
}

impl Counting {
    /// Nothing is seen.
    pub(crate) fn new() -> Counting {
        Counting {
            turns: AtomicU64::new(0),
            over: AtomicU64::new(0),
        }
    }

    /// How many turns were made, and how many runs are over.
    pub(crate) fn seen(&self) -> (u64, u64) {
        (
            self.turns.load(Ordering::SeqCst),
            self.over.load(Ordering::SeqCst),
        )
    }
}

impl Watch for Counting {
    fn before(&self, _core: CoreId, _done: usize, _turn: u64) {
        let _ = self.turns.fetch_add(1, Ordering::SeqCst);
    }

    fn over(&self) {
        let _ = self.over.fetch_add(1, Ordering::SeqCst);
    }
}

impl ReplayWatch for Counting {
    fn wrong(&self, _wrong: &WrongLoad) {}
}

impl SearchWatch for Counting {
    fn steps(&self, _made: u64, _budget: u64) -> bool {
        true
    }

    fn found(&self) {}
}
