//! The order of operations.

ghost use Rattle.std.specs.Prelude.{◌≡◌};
ghost use Rattle.line_stamps.specs.KeyOrder.{key_cmp};

use super::rank::Rank;
use super::stamp::Stamp;
use mem_op::{CoreId, OpIndex};
use std::cmp::Ordering;
use std::marker::Model;

/// The place of an operation in the order of all: by stamp, then rank, then core, then index.
#[derive(Clone, Copy, Debug, PartialEq, Eq, PartialOrd, Ord)]
pub struct Key {
    /// When the operation took place.
    pub ts: Stamp,
    /// Its order among those of its stamp.
    pub rank: Rank,
    /// The core whose operation it is.
    pub core: CoreId,
    /// Its place in that core's program order.
    pub index: OpIndex,
}

impl Model for Key {
    ghost use Rattle.line_stamps.specs.KeyParts.{KeyParts};

    ghost Value = { KeyParts };

    ghost view = { λ k. record { ts = k.ts; rank = k.rank; core = k.core; index = k.index } };

    ghost inverse = { λ k. record { ts = k.ts; rank = k.rank; core = k.core; index = k.index } };
}

impl Key {
    /// How two keys compare.
    pub fn order(&self, other: &Key) -> Ordering
        ensures { result ≡ key_cmp self.now other.now }
    {
        self.cmp(other)
    }
}
