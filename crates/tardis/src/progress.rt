//! The line by which long work shows that it goes on.

use commands::{ReplayWatch, SearchWatch, Watch};
use mem_op::CoreId;
use memchr::memchr_iter;
use std::io::IsTerminal;
use std::sync::atomic::{AtomicBool, AtomicU64, Ordering};
use std::time::Clock;
use trace_replay::WrongLoad;

/// How many operations of a core are counted at once, so that cores seldom meet at the count.
const OPERATIONS: u64 = 64;

/// How many turns without an operation a core makes between two looks at the clock.
const TURNS: u64 = 65_536;

/// Tells on standard error how many lines were read so far, how many operations a run has performed, or how many of its steps a search has made, in
/// one line that it writes anew each second. It tells nothing if standard error is no terminal, or the work takes less than a second. It tells a
/// terminal of a wrong load, too.
#[derive(Drop)]
pub(crate) struct Progress<'a> {
    rt: &'a HostRuntime,
    is_terminal: bool,
    // The second of the clock at which the program began.
    begun: u64,
    lines: AtomicU64,
    operations: AtomicU64,
    // How many seconds have been told.
    told: AtomicU64,
    // Whether the line stands there.
    is_shown: AtomicBool,
}

impl<'a> Progress<'a> {
    /// The progress of a program that begins now.
    pub(crate) fn new(rt: &'a HostRuntime) -> Progress<'a> {
        Progress {
            rt,
            is_terminal: rt.stderr().is_terminal(),
            begun: seconds(rt),
            lines: AtomicU64::new(0),
            operations: AtomicU64::new(0),
            told: AtomicU64::new(0),
            is_shown: AtomicBool::new(false),
        }
    }

    /// Counts the lines that end in these bytes, which were read.
    pub(crate) fn read(&self, bytes: &[u8]) {
        if !self.is_terminal {
            return;
        }
        let ended = memchr_iter(b'\n', bytes).count() as u64;
        let _ = self.lines.fetch_add(ended, Ordering::SeqCst);
        self.tell(&self.lines, "lines read");
    }

    /// Takes the line away, if it stands there. Passes over a write that fails.
    pub(crate) fn wipe(&self) {
        if self.is_shown.swap(false, Ordering::SeqCst) {
            let _ = eprint!(self.rt; "\r                                        \r");
        }
    }

    // Tells a count, if that is due. Passes over a write that fails.
    fn tell(&self, count: &AtomicU64, what: &str) {
        if self.is_due() {
            let _ = eprint!(self.rt; "\r{} {what}", count.load(Ordering::SeqCst));
        }
    }

    // Whether another second has passed, so that the line is written.
    fn is_due(&self) -> bool {
        let passed = seconds(self.rt).saturating_sub(self.begun);
        if self.told.fetch_max(passed, Ordering::SeqCst) >= passed {
            return false;
        }
        self.is_shown.store(true, Ordering::SeqCst);
        true
    }
}

// The seconds of the host's clock; 0 if it can't be read.
fn seconds(rt: &HostRuntime) -> u64 {
    match rt.monotonic() {
        Ok(time) => time.as_secs(),
        Err(_) => 0,
    }
}

impl<'a> Watch for Progress<'a> {
    fn before(&self, _core: CoreId, done: usize, turn: u64) {
        if !self.is_terminal {
            return;
        }
        if turn == 0 && done > 0 && done as u64 % OPERATIONS == 0 {
            let _ = self.operations.fetch_add(OPERATIONS, Ordering::SeqCst);
            self.tell(&self.operations, "operations");
        } else if turn % TURNS == TURNS - 1 {
            self.tell(&self.operations, "operations");
        }
    }

    fn over(&self) {
        self.wipe();
    }
}

impl<'a> ReplayWatch for Progress<'a> {
    fn wrong(&self, wrong: &WrongLoad) {
        if self.is_terminal {
            let _ = eprintln!(self.rt; "{wrong}");
        }
    }
}

impl<'a> SearchWatch for Progress<'a> {
    fn steps(&self, made: u64, budget: u64) -> bool {
        if self.is_terminal && self.is_due() {
            let _ = eprint!(self.rt; "\r{made} of {budget} steps");
        }
        true
    }

    fn found(&self) {
        self.wipe();
    }
}
