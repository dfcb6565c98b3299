//! The answers of a private cache.

use line_stamps::{Message, Rank, Stamp};
use mem_op::{Source, Word};

/// The answer to a load or a swap.
#[derive(Clone, Copy, Debug, PartialEq, Eq)]
pub enum Read {
    /// The word that was there before with its source, and the stamp and rank of the operation.
    Hit {
        value: Word,
        source: Source,
        stamp: Stamp,
        rank: Rank,
    },
    /// The request to send: SH_REQ for a load, EX_REQ for a swap.
    Miss(Message),
}

/// The answer to a store.
#[derive(Clone, Copy, Debug, PartialEq, Eq)]
pub enum Store {
    /// The stamp and rank of the store.
    Hit { stamp: Stamp, rank: Rank },
    /// The request to send: EX_REQ.
    Miss(Message),
}

/// The answer to an eviction.
#[derive(Clone, Copy, Debug, PartialEq, Eq)]
pub enum Evicted {
    /// The line wasn't there.
    Nothing,
    /// The line was Shared, and the core drops it.
    Dropped,
    /// The line was Exclusive, and the core must give it back by this message: FLUSH_REP.
    GiveBack(Message),
}
