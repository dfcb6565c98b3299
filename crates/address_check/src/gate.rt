//! The pieces of a check, as workers enter them.

/// A part of a judgement, which ends before the next one begins.
#[derive(Clone, Copy, Debug, PartialEq, Eq)]
pub enum Phase {
    /// The judge looks at each core's log alone.
    Cores,
    /// The judge looks at each address's records alone.
    Addresses,
}

/// Each worker calls it as it enters a piece.
pub trait Gate {
    /// The calling worker enters a piece of a phase. The pieces of a phase are numbered from 1.
    fn enter(&self, phase: Phase, piece: usize);
}
