//! Paces of runs.

use machine::{Go, Pace};
use mem_op::CoreId;
use std::sync::atomic::{AtomicU64, Ordering};
use std::thread;

/// How often a pace looks for what it waits for: for fifty seconds or more, and longer if other programs want the processors.
const LOOKS: u64 = 100_000_000;

/// Looks until something has come to this number, and says Stop if it never does. Between two looks other threads may have
/// the processor, so that what it waits for comes even if there is only one.
fn wait_for(seen: &AtomicU64, number: u64) -> Go {
    for _ in 0..LOOKS {
        if seen.load(Ordering::SeqCst) >= number {
            return Go::Go;
        }
        thread::yield_now();
    }
    Go::Stop
}

/// A pace that always goes.
#[derive(Clone, Copy)]
pub(super) struct Always;

impl Pace for Always {
    fn before(&self, _core: CoreId, _done: usize, _turn: u64) -> Go {
        Go::Go
    }
}

/// A pace that stops core 0 after its first operation.
#[derive(Clone, Copy)]
pub(super) struct StopsCore0;

impl Pace for StopsCore0 {
    fn before(&self, core: CoreId, done: usize, _turn: u64) -> Go {
        if core.get() == 0 && done == 1 {
            return Go::Stop;
        }
        Go::Go
    }
}

/// A pace that keeps core 0 after its first operation until core 1 has begun this many turns for its second one, and core 1 after its first until
/// core 0 has performed its own.
#[derive(Drop)]
pub(super) struct Kept {
    turns: u64,
    zero: AtomicU64,
    one: AtomicU64,
}

impl Kept {
    /// No core has come.
    pub(super) fn until(turns: u64) -> Kept {
        Kept {
            turns,
            zero: AtomicU64::new(0),
            one: AtomicU64::new(0),
        }
    }
}

impl Pace for Kept {
    fn before(&self, core: CoreId, done: usize, turn: u64) -> Go {
        if done != 1 {
            return Go::Go;
        }
        if core.get() == 0 {
            self.zero.store(1, Ordering::SeqCst);
            return wait_for(&self.one, self.turns);
        }
        self.one.store(turn.saturating_add(1), Ordering::SeqCst);
        wait_for(&self.zero, 1)
    }
}
