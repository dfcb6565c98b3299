//! Whether ranges have all that may give a read its value.

ghost use Rattle.std.specs.Prelude.{◌≡◌, ◌≤◌, ◌↔◌, IsTrue, MatchBool, length};
ghost use Rattle.std.specs.List.{list_any};
ghost use Rattle.mem_op.specs.Limits.{operation_limit};
ghost use Rattle.refutation.specs.Rules.{is_in, MayGive};
ghost use Rattle.refutation.specs.inner.Covering.{Covers, CoversFirst};

use super::path::is_up_to;
use super::step::{Point, Range};
use mem_op::{CoreId, OpId, OpIndex, Word};
use trace::{Access, Address, Trace};

/// Whether a point lies in one of the ranges.
pub fn lies_in(ranges: &[Range], point: &Point) -> bool
    ensures { result ≡ list_any (λ range. is_in range point.now) ranges.now }
{
    ranges.iter().any(|range| is_up_to(&range.first, point) && is_up_to(point, &range.last))
}

/// Whether an operation may give a read of an address its value.
fn may_give(access: &Access, id: &OpId, read: &OpId, addr: Address, value: Word) -> bool
    ensures { IsTrue result ↔ MayGive addr value read.now id.now access.now }
{
    access.stores(addr, value) && id != read
}

/// Whether the ranges have the operations of a core that may give a read its value.
fn cover_core(
    operations: &[Access],
    core: CoreId,
    read: &OpId,
    addr: Address,
    value: Word,
    ranges: &[Range],
) -> bool
    requires { length operations.now ≤ operation_limit }
    ensures { MatchBool result
        (CoversFirst read.now addr value ranges.now core (length operations.now) operations.now)
        (¬ CoversFirst read.now addr value ranges.now core (length operations.now) operations.now) }
{
    for (index, access) in operations.iter().enumerate() {
        let index = OpIndex::at(index);
        let id = OpId { core, index };
        if may_give(access, &id, read, addr, value) && !lies_in(ranges, &Point::At(id)) {
            return false;
        }
    }
    true
}

/// Whether the ranges have all that may give a read of an address its value, the initial 0 too.
#[tactic(auto, using(crate::proofs::Firsts::core_at, crate::proofs::Firsts::first_more))]
pub(crate) fn cover(
    trace: &Trace,
    read: &OpId,
    addr: Address,
    value: Word,
    ranges: &[Range],
) -> bool
    ensures { MatchBool result
        (Covers trace.now read.now addr value ranges.now)
        (¬ Covers trace.now read.now addr value ranges.now) }
{
    if value == 0 && !lies_in(ranges, &Point::Init) {
        return false;
    }
    for (core, operations) in trace.cores().iter().enumerate() {
        if !cover_core(operations, CoreId::at(core), read, addr, value, ranges) {
            return false;
        }
    }
    true
}
