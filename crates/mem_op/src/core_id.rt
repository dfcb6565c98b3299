//! Cores.

ghost use Rattle.std.specs.Prelude.{◌≡◌, ◌<◌, ◌≤◌, MatchResult};
ghost use Rattle.mem_op.specs.declared.fault.RangeFault.TheVariants.{CoreRange};

use super::fault::RangeFault;
use std::marker::Model;

/// A core, 0..63.
#[derive(Clone, Copy, Debug, PartialEq, Eq, PartialOrd, Ord, Hash)]
pub struct CoreId {
    number: u8,
}

impl Model for CoreId {
    ghost use Rattle.std.specs.Prelude.{ℕ, ◌<◌};

    ghost Value = { ℕ };

    ghost view = { λ core. core.number };

    ghost invariant = { λ core. core.number < 64 };

    ghost inverse = { λ n. record { number = n } };
}

impl CoreId {
    /// The core of this number; 2 CoreRange if it is above 63.
    pub fn new(number: u64) -> Result<CoreId, RangeFault>
        ensures { MatchResult result
            (λ core. (core ≡ number) × (number < 64))
            (λ fault. (fault ≡ CoreRange) × (64 ≤ number)) }
    {
        if number >= 64 {
            return Err(RangeFault::CoreRange);
        }
        Ok(CoreId {
            number: number as u8,
        })
    }

    /// The core of a number that is below 64.
    pub fn at(number: usize) -> CoreId
        requires { number < 64 }
        ensures { result ≡ number }
    {
        CoreId {
            number: number as u8,
        }
    }

    /// Its number.
    pub fn get(self) -> u64
        ensures value { result ≡ self }
        ensures in_range { self < 64 }
    {
        u64::from(self.number)
    }
}
