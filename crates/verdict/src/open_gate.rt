//! The gate of whoever watches no worker.

use address_check::{Gate, Phase};

/// A gate that every worker passes at once.
pub struct OpenGate;

impl Gate for OpenGate {
    fn enter(&self, _phase: Phase, _piece: usize) {}
}
