//! Addresses.

ghost use Rattle.std.specs.Prelude.{◌≡◌, ◌<◌, ◌≤◌, MatchResult};
ghost use Rattle.mem_op.specs.declared.fault.RangeFault.TheVariants.{AddrRange};

use super::fault::RangeFault;
use std::marker::Model;

/// The address of a word of memory, 0..65,535.
#[derive(Clone, Copy, Debug, PartialEq, Eq, PartialOrd, Ord, Hash)]
pub struct Addr {
    number: u16,
}

impl Model for Addr {
    ghost use Rattle.std.specs.Prelude.{ℕ, ◌<◌};

    ghost Value = { ℕ };

    ghost view = { λ addr. addr.number };

    ghost invariant = { λ addr. addr.number < 65536 };

    ghost inverse = { λ n. record { number = n } };
}

impl Addr {
    /// The address of this number; 1 AddrRange if it is above 65,535.
    pub fn new(number: u64) -> Result<Addr, RangeFault>
        ensures { MatchResult result
            (λ addr. (addr ≡ number) × (number < 65536))
            (λ fault. (fault ≡ AddrRange) × (65536 ≤ number)) }
    {
        if number >= 65_536 {
            return Err(RangeFault::AddrRange);
        }
        Ok(Addr {
            number: number as u16,
        })
    }

    /// Its number.
    pub fn get(self) -> u64
        ensures value { result ≡ self }
        ensures in_range { self < 65536 }
    {
        u64::from(self.number)
    }
}
