//! Stamps.

ghost use Rattle.std.specs.Prelude.{◌≡◌, ◌<◌, ◌≤◌, ◌+◌, MatchResult};
ghost use Rattle.line_stamps.specs.declared.fault.StampFault.TheVariants.{StampLimit};

use super::fault::StampFault;
use std::marker::Model;

/// A logical time, 0..281,474,976,710,656, which is 2^48.
#[derive(Clone, Copy, Debug, PartialEq, Eq, PartialOrd, Ord)]
pub struct Stamp {
    number: u64,
}

impl Model for Stamp {
    ghost use Rattle.std.specs.Prelude.{ℕ, ◌≤◌};

    ghost Value = { ℕ };

    ghost view = { λ stamp. stamp.number };

    ghost invariant = { λ stamp. stamp.number ≤ 281474976710656 };

    ghost inverse = { λ n. record { number = n } };
}

impl Stamp {
    /// The first stamp.
    pub const ZERO: Stamp = Stamp { number: 0 };

    /// The stamp of this number; 4 StampLimit if it is above 2^48.
    pub fn new(number: u64) -> Result<Stamp, StampFault>
        ensures { MatchResult result
            (λ stamp. (stamp ≡ number) × (number ≤ 281474976710656))
            (λ fault. (fault ≡ StampLimit) × (281474976710656 < number)) }
    {
        if number > 281_474_976_710_656 {
            return Err(StampFault::StampLimit);
        }
        Ok(Stamp { number })
    }

    /// Its number.
    pub fn get(self) -> u64
        ensures value { result ≡ self }
        ensures in_range { self ≤ 281474976710656 }
    {
        self.number
    }

    /// The stamp `n` later; 4 StampLimit if that is above 2^48.
    pub fn plus(self, n: u64) -> Result<Stamp, StampFault>
        ensures { MatchResult result
            (λ stamp. (stamp ≡ self + n) × (self + n ≤ 281474976710656))
            (λ fault. (fault ≡ StampLimit) × (281474976710656 < self + n)) }
    {
        match self.number.checked_add(n) {
            Some(number) => Stamp::new(number),
            None => Err(StampFault::StampLimit),
        }
    }
}
