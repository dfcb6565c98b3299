//! Indices of operations.

ghost use Rattle.std.specs.Prelude.{◌≡◌, ◌<◌, ◌≤◌, MatchResult};
ghost use Rattle.mem_op.specs.declared.fault.RangeFault.TheVariants.{IndexRange};
ghost use Rattle.mem_op.specs.Limits.{operation_limit};

use super::fault::RangeFault;
use std::marker::Model;

/// The place of an operation among those of its core, counted from 0, at most 1,048,575.
#[derive(Clone, Copy, Debug, PartialEq, Eq, PartialOrd, Ord, Hash)]
pub struct OpIndex {
    number: u32,
}

impl Model for OpIndex {
    ghost use Rattle.std.specs.Prelude.{ℕ, ◌<◌};
    ghost use Rattle.mem_op.specs.Limits.{operation_limit};

    ghost Value = { ℕ };

    ghost view = { λ index. index.number };

    ghost invariant = { λ index. index.number < operation_limit };

    ghost inverse = { λ n. record { number = n } };
}

impl OpIndex {
    /// The index of this number; 3 IndexRange if it is above 1,048,575.
    pub fn new(number: u64) -> Result<OpIndex, RangeFault>
        ensures { MatchResult result
            (λ index. (index ≡ number) × (number < operation_limit))
            (λ fault. (fault ≡ IndexRange) × (operation_limit ≤ number)) }
    {
        if number >= 1_048_576 {
            return Err(RangeFault::IndexRange);
        }
        Ok(OpIndex {
            number: number as u32,
        })
    }

    /// The index of a number that is below 1,048,576.
    pub fn at(number: usize) -> OpIndex
        requires { number < operation_limit }
        ensures { result ≡ number }
    {
        OpIndex {
            number: number as u32,
        }
    }

    /// Its number.
    pub fn get(self) -> u64
        ensures value { result ≡ self }
        ensures in_range { self < operation_limit }
    {
        u64::from(self.number)
    }
}
