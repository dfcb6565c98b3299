//! Where program order and facts lead.

ghost use Rattle.std.specs.Prelude.{◌≡◌, ◌↔◌, IsTrue};
ghost use Rattle.refutation.specs.Facts.{is_up_to, Leads, IsCycle};

use super::fact::{Fact, fact_at};
use super::step::Point;

/// Whether one point is another, or before it in program order. `init` is before everything.
pub fn is_up_to(one: &Point, other: &Point) -> bool
    ensures { result ≡ is_up_to one.now other.now }
{
    match (one, other) {
        (Point::Init, _) => true,
        (Point::At(a), Point::At(b)) => a.core == b.core && a.index <= b.index,
        (Point::At(_), Point::Init) => false,
    }
}

/// Whether program order and the facts of a path lead from one point to another.
pub(crate) fn leads(facts: &[Fact], from: &Point, path: &[usize], to: &Point) -> bool
    ensures { IsTrue result ↔ Leads facts.now from.now path.now to.now }
{
    let mut at = *from;
    for number in path {
        let Some(fact) = fact_at(facts, *number) else {
            return false;
        };
        if !is_up_to(&at, &fact.earlier()) {
            return false;
        }
        at = fact.later();
    }
    is_up_to(&at, to)
}

/// Whether the facts of a path lead from a point back to it, by one fact or more.
#[tactic(auto, using(crate::proofs::Paths::is_cycle_exact))]
pub(crate) fn is_cycle(facts: &[Fact], path: &[usize]) -> bool
    ensures { IsTrue result ↔ IsCycle facts.now path.now }
{
    let [number, rest @ ..] = path else {
        return false;
    };
    match fact_at(facts, *number) {
        Some(fact) => leads(facts, &fact.later(), rest, &fact.earlier()),
        None => false,
    }
}
