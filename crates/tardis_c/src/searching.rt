//! The search for an order of operations in memory.

ghost use Rattle.std.specs.Prelude.{◌≡◌, ◌↔◌, ◌≤◌, All, IfOk, length, map};
ghost use Rattle.flat_replay.specs.Accesses.{operation_lists};
ghost use Rattle.mem_op.specs.Consistency.{IsConsistent};
ghost use Rattle.verdict.specs.Counts.{IsInRange, IsOutOfRange};
ghost use Rattle.tardis_c.specs.Accesses as accesses;
ghost use Rattle.tardis_c.specs.Faults.{AreOperations};
ghost use Rattle.tardis_c.specs.Found.{AreFoundOf, IsFindingOf, IsFoundOfEnds, Shows, finding_status};
ghost use Rattle.tardis_c.specs.Parts.{AreEnds, parts_of};

use super::checking::{BAD_COUNT, BAD_ENDS};
use super::cutting::are_ends;
use super::finding::{Finding, finding_of};
use super::operations::check_parts;
use super::operations_fault::OperationsFault;
use super::tardis_access::{TardisAccess, operation_of};
use super::tardis_finding::{TardisFinding, finding_status, finding_told, numbered, put_text};
use flat_replay::Access;
use search::search;
use std::alloc::{AllocError, Global};
use trace::{Trace, TraceFull};
use verdict::check_counts;

/// The operations of a core.
fn operations_of(alloc: Global, part: &[TardisAccess]) -> Result<Vec<Access>, AllocError>
    ensures { IfOk result (λ operations. operations.items ≡ map accesses.operation_of part.now) }
{
    part.iter()
        .map(|access| operation_of(access))
        .collect(alloc)
}

/// The operations of each core.
fn cores_of(
    alloc: Global,
    operations: &[TardisAccess],
    ends: &[usize],
) -> Result<Vec<Vec<Access>>, AllocError>
    requires { AreEnds operations.now ends.now }
    ensures { IfOk result (λ cores. operation_lists cores.items ≡ accesses.trace_of (parts_of operations.now ends.now)) }
{
    let mut cores = Vec::new(alloc);
    let mut from = 0;
    for end in ends {
        let own = operations_of(alloc, &operations[from..*end])?;
        cores.push(own)?;
        from = *end;
    }
    Ok(cores)
}

/// The trace of the operations.
fn trace_of(alloc: Global, operations: &[TardisAccess], ends: &[usize]) -> Result<Trace, AllocError>
    requires ends { AreEnds operations.now ends.now }
    requires cores { IsInRange (length ends.now) }
    requires parts { All (AreOperations accesses.IsAccess) (parts_of operations.now ends.now) }
    ensures { IfOk result (λ trace. trace ≡ accesses.trace_of (parts_of operations.now ends.now)) }
{
    let cores = cores_of(alloc, operations, ends)?;
    match Trace::of(alloc, cores) {
        Ok(trace) => Ok(trace),
        Err(TraceFull::TooMany) => unreachable!(),
        Err(TraceFull::OutOfMemory) => Err(AllocError),
    }
}

/// The finding of a search of the operations in at most so many steps. Err if memory was refused.
fn find_order(
    alloc: Global,
    operations: &[TardisAccess],
    ends: &[usize],
    budget: u64,
) -> Result<Finding, AllocError>
    requires ends { AreEnds operations.now ends.now }
    requires cores { IsInRange (length ends.now) }
    requires parts { All (AreOperations accesses.IsAccess) (parts_of operations.now ends.now) }
    ensures { IfOk result (Shows (accesses.trace_of (parts_of operations.now ends.now))) }
{
    let trace = trace_of(alloc, operations, ends)?;
    let answer = search(alloc, &trace, budget)?;
    finding_of(alloc, &answer)
}

/// The same, or why the operations aren't valid.
#[tactic(auto, using(crate::proofs::Found::refused, crate::proofs::Found::taken, crate::proofs::Found::memory_refused))]
fn find(
    alloc: Global,
    operations: &[TardisAccess],
    ends: &[usize],
    budget: u64,
) -> Result<Finding, OperationsFault>
    requires ends { AreEnds operations.now ends.now }
    requires cores { IsInRange (length ends.now) }
    ensures found { IsFindingOf (parts_of operations.now ends.now) result }
    ensures malformed { finding_status result ≡ 2
        ↔ ¬ All (AreOperations accesses.IsAccess) (parts_of operations.now ends.now) }
{
    match check_parts(operations, ends) {
        Ok(()) => match find_order(alloc, operations, ends, budget) {
            Ok(finding) => Ok(finding),
            Err(_) => Err(OperationsFault::OutOfMemory),
        },
        Err(fault) => Err(fault),
    }
}

/// Searches for an order of operations that have no times: those of core 0 in program order, then those of core 1, and so
/// on, each core's up to its end. Makes at most `budget` steps. Answers the status, puts the rest in `out`, and puts the
/// text that shows a yes or a no at the front of the buffer `text`. If the buffer has no room for its `out.length` bytes,
/// it stays as it was, and the answer holds all the same:
///
/// 0: yes, by the order of this text. 1: no, by the refutation of this text. 2: an operation isn't valid, and `core`,
/// `index`, `number`: 22 if its kind isn't 0, 1 or 2, 23 if the core has more than 1,048,576 operations. 3: the number of
/// cores isn't 1..64, and `number` 6. 4: the search gave up, and `number` 44, or memory was refused, and `number` 10. 5:
/// an end is less than the one before it, or the last isn't the number of operations.
#[unsafe(no_mangle)]
pub extern "C" fn tardis_search_operations(
    alloc: Global,
    operations: &[TardisAccess],
    ends: &[usize],
    budget: u64,
    text: &mut [u8],
    out: &mut TardisFinding,
) -> u8
    ensures ends { result ≡ 5 ↔ ¬ AreEnds operations.now ends.now }
    ensures cores { result ≡ 3 ↔ (AreEnds operations.now ends.now × IsOutOfRange (length ends.now)) }
    ensures refused { IsFoundOfEnds result out.new }
    // 2 comes exactly if the ends and their number are right, and some core's operations aren't valid.
    ensures malformed { result ≡ 2 ↔ (AreEnds operations.now ends.now × IsInRange (length ends.now)
        × ¬ All (AreOperations accesses.IsAccess) (parts_of operations.now ends.now)) }
    // The answer, in numbers and in the buffer, is an order of the operations or a refutation of them, or that the
    // search found neither, or the first operation that isn't valid. Only lack of memory may come instead.
    ensures exact { AreEnds operations.now ends.now → IsInRange (length ends.now)
        → AreFoundOf (parts_of operations.now ends.now) text.old text.new result out.new }
    // If the status is 0, the operations have one order that keeps each core's program order and in which each load
    // answers the last earlier store to its address, or 0. If it is 1, they have none.
    ensures sound { result ≡ 0 → IsConsistent (accesses.trace_of (parts_of operations.now ends.now)) }
    ensures refuted { result ≡ 1 → ¬ IsConsistent (accesses.trace_of (parts_of operations.now ends.now)) }
    // After any other status the buffer is as it was.
    ensures kept { 2 ≤ result → text.new ≡ text.old }
{
    if !are_ends(operations.len(), ends) {
        *out = numbered(0);
        return BAD_ENDS;
    }
    if check_counts(ends.len(), 1).is_err() {
        *out = numbered(6);
        return BAD_COUNT;
    }
    let answer = find(alloc, operations, ends, budget);
    put_text(&answer, text);
    *out = finding_told(&answer);
    finding_status(&answer)
}
