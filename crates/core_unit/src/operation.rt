//! Operations: whether one hits or misses its line, and how the core performs it.

ghost use Rattle.std.specs.Prelude.{◌≡◌, ℕ, None, Some, MatchResult, if◌then◌else◌};
ghost use Rattle.lease_rule.specs.Lease.{self_increment};
ghost use Rattle.private_cache.specs.Answers.{past_limit};
ghost use Rattle.private_cache.specs.Steps.{line_at, used};
ghost use Rattle.private_cache.specs.Table.{Hit};
ghost use Rattle.private_cache.specs.declared.held.Held.{Held};
ghost use Rattle.core_unit.specs.Core.{op_addr, op_hit, is_due, record_of};
ghost use Rattle.core_unit.specs.inner.Look.{IsLook};

use super::unit::CoreUnit;
use lease_rule::{Config, self_increment};
use line_stamps::{Rank, Stamp, StampFault};
use log_record::{Act, PackedAct, Record};
use mem_op::{Addr, Op, OpId, Source, Word};
use private_cache::{PrivateCache, Read};

/// The address of an operation.
pub(crate) fn op_addr(op: &Op) -> Addr
    ensures { result ≡ op_addr op.now }
{
    match op {
        Op::Load(addr) => *addr,
        Op::Store(addr, _) => *addr,
        Op::Swap(addr, _) => *addr,
    }
}

impl CoreUnit {
    /// Whether an operation hits or misses the line of its address.
    pub(crate) fn look(&self, op: &Op) -> Result<Read, StampFault>
        ensures { IsLook self.now op.now result }
    {
        match op {
            Op::Load(addr) => self.cache.peek_load(*addr, self.pts, self.r),
            Op::Store(addr, _) => self.cache.peek_swap(*addr, self.pts, self.r),
            Op::Swap(addr, _) => self.cache.peek_swap(*addr, self.pts, self.r),
        }
    }
}

/// The record of an operation that hits at this stamp and rank, and before which its line has this
/// word, from this source.
pub(crate) fn record_of(op: &Op, value: Word, source: Source, stamp: Stamp, rank: Rank) -> Record
    ensures { (held : Held) → result ≡ record_of op.now
        (record { value = value; source = source; held = held; stamp = stamp; rank = rank }) }
{
    let (addr, value, act) = match op {
        Op::Load(addr) => (addr, value, Act::Load(source)),
        Op::Store(addr, word) => (addr, *word, Act::Store),
        Op::Swap(addr, word) => (addr, *word, Act::Swap(source, value)),
    };
    Record {
        value,
        ts: stamp,
        act: PackedAct::of(act),
        rank,
        addr: *addr,
    }
}

/// Performs an operation on its line, which it hits. `id` is its id, and `made` its record.
pub(crate) fn perform_at(cache: &mut PrivateCache, op: &Op, id: OpId, made: &Record)
    ensures { (pts r : ℕ) (hit : Hit) → op_hit op.now id pts r (line_at cache.old (op_addr op.now)) ≡ Some hit
        → made.now ≡ record_of op.now hit → cache.new ≡ used cache.old (op_addr op.now) hit.held }
{
    match op {
        Op::Load(addr) => cache.read(*addr, made.ts),
        Op::Store(addr, word) => cache.write(*addr, *word, id, made.ts, made.rank),
        Op::Swap(addr, word) => cache.write(*addr, *word, id, made.ts, made.rank),
    }
}

/// The core's stamp and rank after `count` operations, the last of them with this stamp and rank. It
/// increments the stamp if that is due. 4 StampLimit if that makes it more than 2^48.
pub(crate) fn after(
    config: &Config,
    count: u64,
    ts: Stamp,
    rank: Rank,
) -> Result<(Stamp, Rank), StampFault>
    ensures { let due = is_due config.now count in
        let pts = (if due then self_increment ts else ts) in
        MatchResult result
        (λ after. (after.0 ≡ pts) × (after.1 ≡ (if due then 0 else rank)) × (past_limit pts 0 ≡ None))
        (λ fault. past_limit pts 0 ≡ Some fault) }
{
    if count % config.period() == 0 {
        Ok((self_increment(ts)?, Rank::ZERO))
    } else {
        Ok((ts, rank))
    }
}
