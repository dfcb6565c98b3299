//! How far a jump goes.

ghost use Rattle.std.specs.Prelude.{◌≡◌, ◌<◌, ◌≤◌, ◌⊎◌, MatchOption};

use std::marker::Model;

/// How many instructions a jump skips, 1..4,095.
#[derive(Clone, Copy, Debug, PartialEq, Eq, PartialOrd, Ord, Hash)]
pub struct Skip {
    count: u16,
}

impl Model for Skip {
    ghost use Rattle.std.specs.Prelude.{ℕ, ◌≤◌};

    ghost Value = { ℕ };

    ghost view = { λ skip. skip.count };

    ghost invariant = { λ skip. (1 ≤ skip.count) × (skip.count ≤ 4095) };

    ghost inverse = { λ n. record { count = n } };
}

impl Skip {
    /// The skip of `count` instructions; None if that is 0 or above 4,095.
    pub fn new(count: u64) -> Option<Skip>
        ensures { MatchOption result
            ((count ≡ 0) ⊎ (4096 ≤ count))
            (λ skip. (skip ≡ count) × (1 ≤ count) × (count ≤ 4095)) }
    {
        if count == 0 || count >= 4_096 {
            return None;
        }
        Some(Skip {
            count: count as u16,
        })
    }

    /// How many instructions it skips.
    pub fn get(self) -> u64
        ensures value { result ≡ self }
        ensures in_range { (1 ≤ self) × (self ≤ 4095) }
    {
        u64::from(self.count)
    }
}
