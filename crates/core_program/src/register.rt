//! Registers.

ghost use Rattle.std.specs.Prelude.{◌≡◌, ◌<◌, ◌≤◌, MatchOption};

use std::marker::Model;

/// A register of a core, 0..15.
#[derive(Clone, Copy, Debug, PartialEq, Eq, PartialOrd, Ord, Hash)]
pub struct Register {
    number: u8,
}

impl Model for Register {
    ghost use Rattle.std.specs.Prelude.{ℕ, ◌<◌};

    ghost Value = { ℕ };

    ghost view = { λ register. register.number };

    ghost invariant = { λ register. register.number < 16 };

    ghost inverse = { λ n. record { number = n } };
}

impl Register {
    /// The register of this number; none if it is above 15.
    pub fn new(number: u64) -> Option<Register>
        ensures { MatchOption result
            (16 ≤ number)
            (λ register. (register ≡ number) × (number < 16)) }
    {
        if number >= 16 {
            return None;
        }
        Some(Register {
            number: number as u8,
        })
    }

    /// Its number.
    pub fn get(self) -> u64
        ensures value { result ≡ self }
        ensures in_range { self < 16 }
    {
        u64::from(self.number)
    }
}
