//! Ranks.

ghost use Rattle.std.specs.Prelude.{◌≡◌, ◌<◌, ◌≤◌, ◌+◌, MatchResult};
ghost use Rattle.line_stamps.specs.declared.fault.StampFault.TheVariants.{RankLimit};

use super::fault::StampFault;
use std::marker::Model;

/// The order among operations of one stamp, 0..4,294,967,295.
#[derive(Clone, Copy, Debug, PartialEq, Eq, PartialOrd, Ord)]
pub struct Rank {
    number: u32,
}

impl Model for Rank {
    ghost use Rattle.std.specs.Prelude.{ℕ, ◌<◌};

    ghost Value = { ℕ };

    ghost view = { λ rank. rank.number };

    ghost invariant = { λ rank. rank.number < 4294967296 };

    ghost inverse = { λ n. record { number = n } };
}

impl Rank {
    /// The first rank.
    pub const ZERO: Rank = Rank { number: 0 };

    /// The rank of this number; 5 RankLimit if it is above 4,294,967,295.
    pub fn new(number: u64) -> Result<Rank, StampFault>
        ensures { MatchResult result
            (λ rank. (rank ≡ number) × (number < 4294967296))
            (λ fault. (fault ≡ RankLimit) × (4294967296 ≤ number)) }
    {
        if number >= 4_294_967_296 {
            return Err(StampFault::RankLimit);
        }
        Ok(Rank {
            number: number as u32,
        })
    }

    /// Its number.
    pub fn get(self) -> u64
        ensures value { result ≡ self }
        ensures in_range { self < 4294967296 }
    {
        u64::from(self.number)
    }

    /// The rank after this one; 5 RankLimit if this is the last.
    pub fn next(self) -> Result<Rank, StampFault>
        ensures { MatchResult result
            (λ rank. (rank ≡ self + 1) × (self + 1 < 4294967296))
            (λ fault. (fault ≡ RankLimit) × (self + 1 ≡ 4294967296)) }
    {
        match self.number.checked_add(1) {
            Some(number) => Ok(Rank { number }),
            None => Err(StampFault::RankLimit),
        }
    }
}
