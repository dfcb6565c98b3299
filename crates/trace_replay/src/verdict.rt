//! What a replay answers.

ghost use Rattle.std.specs.Prelude.{◌≡◌};
ghost use Rattle.trace_replay.specs.Texts.{verdict_status};

use super::wrong_load::WrongLoad;
use std::fmt;
use std::fmt::Display;

/// What a replay answers.
#[derive(Clone, Copy, Debug, PartialEq, Eq)]
pub enum ReplayVerdict {
    /// Each load and each swap read the last store to its address; how many operations there are.
    Yes(u64),
    /// The first one that didn't.
    No(WrongLoad),
}

impl ReplayVerdict {
    /// The exit status of a program that answers so: 0 for Yes, 1 for No.
    pub fn status(&self) -> u8
        ensures { result ≡ verdict_status self.now }
    {
        match self {
            ReplayVerdict::Yes(_) => 0,
            ReplayVerdict::No(_) => 1,
        }
    }
}

impl Display for ReplayVerdict {
    ghost use Rattle.std.specs.Prelude.{Some};
    ghost use Rattle.trace_replay.specs.Texts.{verdict_text};

    ghost output = { λ verdict. Some (verdict_text verdict) };

    fn fmt<W: fmt::Write>(&self, f: &mut fmt::Formatter<W>) -> fmt::Result {
        match self {
            ReplayVerdict::Yes(count) => write!(f, "yes: {count} operations"),
            ReplayVerdict::No(wrong) => write!(f, "no: {} VALUE", wrong.id),
        }
    }
}
