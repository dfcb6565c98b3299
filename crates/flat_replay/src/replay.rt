//! Whether a list of ids is an order in which operations answer as one memory, and where it goes wrong.

ghost use Rattle.std.specs.Prelude.{◌≡◌, ◌≤◌, ◌↔◌, IsTrue, IfOk, IfSome, MatchOption, length, map, vec_len};
ghost use Rattle.mem_op.specs.Consistency as consistency;
ghost use Rattle.mem_op.specs.Consistency.{IsSequentialOrder};
ghost use Rattle.flat_replay.specs.Accesses.{operation_lists};
ghost use Rattle.flat_replay.specs.Orders.{ComeInOrder, IsFirstWrongPlace};

use super::access::Access;
use super::memory::Memory;
use mem_op::OpId;
use std::alloc::{AllocError, Global};

/// The operation of an id, if it is there.
pub fn operation_at(cores: &[Vec<Access>], id: &OpId) -> Option<Access>
    ensures { result ≡ consistency.operation_at (operation_lists cores.now) id.now }
{
    cores
        .get(id.core.get() as usize)?
        .get(id.index.get() as usize)
        .copied()
}

/// How many operations each core has. Err if memory was refused.
fn lengths_of(alloc: Global, cores: &[Vec<Access>]) -> Result<Vec<u64>, AllocError>
    ensures { IfOk result (λ lengths. lengths.items ≡ map vec_len cores.now) }
{
    cores.iter().map(|core| core.len() as u64).collect(alloc)
}

/// The place of the first id whose operation doesn't come next, or that after the last id, if operations are left; None if the ids are a
/// sequential order. Err if memory was refused.
pub fn first_wrong_place(
    alloc: Global,
    cores: &[Vec<Access>],
    ids: &[OpId],
) -> Result<Option<usize>, AllocError>
    ensures first { IfOk result (λ wrong. MatchOption wrong
        (ComeInOrder (operation_lists cores.now) ids.now (length ids.now) × IsSequentialOrder (operation_lists cores.now) ids.now)
        (IsFirstWrongPlace (operation_lists cores.now) ids.now)) }
    ensures within { IfOk result (λ wrong. IfSome wrong (λ place. place ≤ length ids.now)) }
{
    let lengths = lengths_of(alloc, cores)?;
    let mut next = vec![in alloc; 0u64; lengths.len()]?;
    let mut memory = Memory::new(alloc);
    'replaying: for (place, id) in ids.iter().enumerate() {
        let Some(access) = operation_at(cores, id) else {
            return Ok(Some(place));
        };
        let core = id.core.get() as usize;
        let index = id.index.get();
        if index != next[core] || !memory.answers(&access) {
            return Ok(Some(place));
        }
        next[core] = index + 1;
        memory.perform(&access, ())?;
    }
    if next.as_slice() == lengths.as_slice() {
        return Ok(None);
    }
    Ok(Some(ids.len()))
}

/// Whether the list is a serial order of the operations that keeps program order, and in which each load's word, and
/// the word that each swap read, is that of the last earlier store to its address, or 0. Err if memory was refused.
#[tactic(auto, using(crate::proofs::Orders::goes_wrong))]
pub fn replays(alloc: Global, cores: &[Vec<Access>], order: &[OpId]) -> Result<bool, AllocError>
    ensures exact { IfOk result (λ holds.
        IsTrue holds ↔ IsSequentialOrder (operation_lists cores.now) order.now) }
{
    Ok(first_wrong_place(alloc, cores, order)?.is_none())
}
