//! The cases that are open.

ghost use Rattle.std.specs.Prelude.{◌≡◌, [], ◌∷◌, ◌++◌, ℕ, IfOk, OnOk, MatchOption, map, reverse};
ghost use Rattle.refutation.specs.Refuting.{split};
ghost use Rattle.refutation.specs.inner.Waiting.{waiting_on};

use super::fact::Fact;
use std::alloc::{AllocError, Global};
use std::marker::Model;

/// A case that waits: how many of the facts in force it keeps, and its own fact.
#[derive(Clone, Copy, Debug)]
struct Waiting {
    kept: usize,
    fact: Fact,
}

/// The open cases, at least one: the facts in force in the first, and the others, which wait.
#[derive(Drop)]
pub(crate) struct Cases {
    facts: Vec<Fact>,
    waiting: Vec<Waiting>,
}

impl Model for Cases {
    ghost use Rattle.std.specs.Prelude.{length, reverse};
    ghost use Rattle.refutation.specs.inner.Waiting.{CaseList, cases_of, AreNested};

    ghost Value = { CaseList };

    ghost view = { λ c. record { facts = c.facts.items; others = cases_of c.facts.items c.waiting.items } };

    ghost invariant = { λ c. AreNested (length c.facts.items) (reverse c.waiting.items) };
}

/// Adds a waiting case for each of these facts. The first of them is taken up first.
fn add_cases(
    waiting: &mut Vec<Waiting>,
    kept: usize,
    mut given: Vec<Fact>,
) -> Result<(), AllocError>
    ensures { OnOk result (reverse waiting.new.items ≡ map (waiting_on kept) given.items ++ reverse waiting.old.items) }
{
    while let Some(fact) = given.pop() {
        waiting.push(Waiting { kept, fact })?;
    }
    Ok(())
}

impl Cases {
    /// One case, in which nothing is known.
    pub(crate) fn new(alloc: Global) -> Cases
        ensures { result ≡ record { facts = []; others = [] } }
    {
        Cases {
            facts: Vec::new(alloc),
            waiting: Vec::new(alloc),
        }
    }

    /// The facts in force in the first.
    pub(crate) fn facts(&self) -> &[Fact]
        ensures { result.now ≡ self.now.facts }
    {
        &self.facts
    }

    /// The cases that are left when the first is split into one for each of these facts; None if none is left.
    #[tactic(auto, using(crate::proofs::Waitings::next_nested, crate::proofs::Waitings::next_cases))]
    pub(crate) fn split(self, given: Vec<Fact>) -> Result<Option<Cases>, AllocError>
        ensures { IfOk result (λ left. let now = split self.facts given.items ++ self.others in
            MatchOption left (now ≡ []) (λ next. now ≡ next.facts ∷ next.others)) }
    {
        let Cases {
            mut facts,
            mut waiting,
        } = self;
        add_cases(&mut waiting, facts.len(), given)?;
        let Some(case) = waiting.pop() else {
            return Ok(None);
        };
        facts.truncate(case.kept);
        // A call of `push` has no proof if the item is an enum whose parts have models.
        facts.extend_from_slice(&[case.fact])?;
        Ok(Some(Cases { facts, waiting }))
    }
}
