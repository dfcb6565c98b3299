//! The gate at which the threads of a run wait until all of them are started.

use std::hint::spin_loop;
use std::sync::{OnceLock, Wait};

/// How often a thread looks whether the gate is open before it sleeps. That takes a tenth of a millisecond or more, in which four
/// threads can start. A thread that slept may wake on the processor of another that has just begun, and then waits for it.
const GATE_LOOKS_BEFORE_SLEEP: u32 = 20_000;

/// A gate that opens once, for all who wait.
#[derive(Drop)]
pub(crate) struct StartGate {
    // Whether those who pass should go on. This is set once all threads are started, or one of them was refused.
    goes: OnceLock<bool>,
}

impl StartGate {
    /// A gate that is shut.
    pub(crate) fn new() -> StartGate {
        StartGate {
            goes: OnceLock::new(),
        }
    }

    /// Opens the gate, and tells all whether to go on.
    pub(crate) fn open<R: Wait>(&self, rt: &R, goes: bool) {
        let _first = self.goes.set(rt, goes);
    }

    /// Waits for the gate to open, and answers whether to go on.
    pub(crate) fn pass<R: Wait>(&self, rt: &R) -> bool {
        for _ in 0..GATE_LOOKS_BEFORE_SLEEP {
            if let Some(goes) = self.goes.get() {
                return *goes;
            }
            spin_loop();
        }
        *self.goes.wait(rt)
    }
}
