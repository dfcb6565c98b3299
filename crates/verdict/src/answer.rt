//! What the judge answers.

ghost use Rattle.std.specs.Prelude.{◌≡◌};
ghost use Rattle.verdict.specs.Statuses.{verdict_status};

use super::fault::Fault;
use std::fmt;
use std::fmt::Display;

/// The answer to a set of logs.
#[derive(Clone, Copy, Debug, PartialEq, Eq)]
pub enum Verdict {
    /// No record breaks a rule; how many records there are.
    Yes(usize),
    /// The first record that breaks a rule.
    No(Fault),
}

impl Verdict {
    /// The exit status of a program that answers so: 0 for Yes, 1 for No.
    pub fn status(&self) -> u8
        ensures { result ≡ verdict_status self.now }
    {
        match self {
            Verdict::Yes(_) => 0,
            Verdict::No(_) => 1,
        }
    }
}

impl Display for Verdict {
    ghost use Rattle.std.specs.Prelude.{Some};
    ghost use Rattle.verdict.specs.Texts.{verdict_text};

    ghost output = { λ verdict. Some (verdict_text verdict) };

    fn fmt<W: fmt::Write>(&self, f: &mut fmt::Formatter<W>) -> fmt::Result {
        match self {
            Verdict::Yes(count) => write!(f, "yes: {} operations", count),
            Verdict::No(fault) => write!(f, "no: {}", fault),
        }
    }
}
