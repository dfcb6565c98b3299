//! Facts.

ghost use Rattle.std.specs.Prelude.{◌≡◌, slice_get};
ghost use Rattle.refutation.specs.Facts.{earlier_of, later_of};

use super::step::{Point, Range};
use mem_op::OpId;

/// What holds of an order in the present case.
#[derive(Clone, Copy, Debug)]
pub(crate) enum Fact {
    /// One point is before another.
    Before(Point, Point),
    /// The source of a read lies in a range, so the first point of that range is before the read.
    Source(OpId, Range),
}

impl Fact {
    /// The point that is before the other.
    pub(crate) fn earlier(&self) -> Point
        ensures { result ≡ earlier_of self.now }
    {
        match *self {
            Fact::Before(earlier, _) => earlier,
            Fact::Source(_, range) => range.first,
        }
    }

    /// The point that is after the other.
    pub(crate) fn later(&self) -> Point
        ensures { result ≡ later_of self.now }
    {
        match *self {
            Fact::Before(_, later) => later,
            Fact::Source(read, _) => Point::At(read),
        }
    }
}

/// The fact of a number.
pub(crate) fn fact_at(facts: &[Fact], number: usize) -> Option<Fact>
    ensures { result ≡ slice_get facts.now number }
{
    facts.get(number).copied()
}
