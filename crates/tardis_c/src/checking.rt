//! The judge of logs in memory.

ghost use Rattle.std.specs.Prelude.{◌≡◌, ◌↔◌, ◌≤◌, ℕ, IsErrOf, length};
ghost use Rattle.mem_op.specs.Consistency.{IsConsistent};
ghost use Rattle.log_record.specs.Entries.{operations_of};
ghost use Rattle.verdict.specs.Counts.{IsInRange, IsOutOfRange};
ghost use Rattle.verdict.specs.Judgement.{IsAnswerTo, SpellConsistentSet};
ghost use Rattle.verdict.specs.declared.judge_fault.JudgeFault.TheVariants.{Read};
ghost use Rattle.tardis_c.specs.Operations.{logs_of};
ghost use Rattle.tardis_c.specs.Parts.{AreEnds, parts_of};
ghost use Rattle.tardis_c.specs.Told.{AreToldOf, IsAnswerOf, IsToldOfEnds, IsToldTo, status_of};

use super::cutting::{are_ends, slices_of, sources_of};
use super::operations::check_parts;
use super::operations_fault::OperationsFault;
use super::tardis_operation::TardisOperation;
use super::tardis_verdict::{
    TardisVerdict, nothing, operations_status, operations_told, status_of, told_of,
};
use merge_judge::{merged_verdict, records_verdict};
use std::alloc::Global;
use verdict::{JudgeFault, Verdict, check_counts};

/// The status of a call whose ends don't cut its buffer into logs.
pub(crate) const BAD_ENDS: u8 = 5;

/// The status of a call with too few or too many logs.
pub(crate) const BAD_COUNT: u8 = 3;

/// The verdict on the set of logs in the buffer.
fn text_verdict(alloc: Global, bytes: &[u8], ends: &[usize]) -> Result<Verdict, JudgeFault>
    requires { AreEnds bytes.now ends.now }
    ensures files { status_of result ≡ 3 ↔ IsOutOfRange (length ends.now) }
    ensures answer { IsAnswerTo (parts_of bytes.now ends.now) result }
    ensures no_read { (file : ℕ) → ¬ IsErrOf result (Read file) }
{
    check_counts(ends.len(), 1)?;
    let mut sources = sources_of(alloc, bytes, ends)?;
    merged_verdict(alloc, sources.as_mut_slice())
}

/// Judges a set of logs that lie one after another in one buffer. Log `k` is that of core `k`, and there
/// are as many cores as ends. It ends where `ends[k]` says, and begins where the log before it ends.
/// Answers the status, and puts the rest in `out`:
///
/// 0: yes, and `count`. 1: no, and `core`, `index`, `rule`. 2: a log has a fault, and `file`, `line`,
/// `number`. 3: the number of logs isn't 1..64, and `number` 6. 4: memory was refused, and `number` 10.
/// 5: an end is less than the one before it, or the last isn't the length of the buffer.
#[unsafe(no_mangle)]
pub extern "C" fn tardis_check(
    alloc: Global,
    bytes: &[u8],
    ends: &[usize],
    out: &mut TardisVerdict,
) -> u8
    // 5 comes exactly if the ends don't cut the whole buffer into logs, and 3 exactly if they do, and
    // there are too few or too many.
    ensures ends { result ≡ 5 ↔ ¬ AreEnds bytes.now ends.now }
    ensures logs { result ≡ 3 ↔ (AreEnds bytes.now ends.now × IsOutOfRange (length ends.now)) }
    ensures refused { IsToldOfEnds result out.new }
    // The answer is the verdict on the set that the texts in the buffer spell, or their first fault. Only
    // lack of memory may come instead.
    ensures exact { AreEnds bytes.now ends.now → IsToldTo (parts_of bytes.now ends.now) result out.new }
    // If the status is 0, the texts in the buffer spell a set whose operations have one order that keeps
    // each core's program order and in which each load answers the last earlier store to its address, or 0.
    ensures sound { result ≡ 0 → SpellConsistentSet (parts_of bytes.now ends.now) }
{
    if !are_ends(bytes.len(), ends) {
        *out = nothing();
        return BAD_ENDS;
    }
    let answer = text_verdict(alloc, bytes, ends);
    *out = told_of(&answer);
    status_of(&answer)
}

/// The verdict on the set of logs of the operations, or why they aren't such a set.
fn operations_verdict(
    alloc: Global,
    operations: &[TardisOperation],
    ends: &[usize],
) -> Result<Verdict, OperationsFault>
    requires ends { AreEnds operations.now ends.now }
    requires cores { IsInRange (length ends.now) }
    ensures { IsAnswerOf (parts_of operations.now ends.now) result }
{
    check_parts(operations, ends)?;
    let mut sources = slices_of(alloc, operations, ends)?;
    match records_verdict(alloc, sources.as_mut_slice()) {
        Ok(verdict) => Ok(verdict),
        Err(_) => Err(OperationsFault::OutOfMemory),
    }
}

/// Judges a set of logs in numbers: the operations of core 0 in program order, then those of core 1, and so on, each
/// core's up to its end. Answers the status, and puts the rest in `out`:
///
/// 0: yes, and `count`. 1: no, and `core`, `index`, `rule`. 2: an operation isn't valid, and `core`, `index`,
/// `number`: 22 if one of its numbers is out of range, 23 if the core has more than 1,048,576 operations. 3: the
/// number of cores isn't 1..64, and `number` 6. 4: memory was refused, and `number` 10. 5: an end is less than the one
/// before it, or the last isn't the number of operations.
#[unsafe(no_mangle)]
pub extern "C" fn tardis_check_operations(
    alloc: Global,
    operations: &[TardisOperation],
    ends: &[usize],
    out: &mut TardisVerdict,
) -> u8
    ensures ends { result ≡ 5 ↔ ¬ AreEnds operations.now ends.now }
    ensures cores { result ≡ 3 ↔ (AreEnds operations.now ends.now × IsOutOfRange (length ends.now)) }
    ensures refused { IsToldOfEnds result out.new }
    // The answer is the verdict on the records of the operations, or the first operation that isn't valid. Only
    // lack of memory may come instead.
    ensures exact { AreEnds operations.now ends.now → IsInRange (length ends.now)
        → AreToldOf (parts_of operations.now ends.now) result out.new }
    // If the status is 0, the operations have one order that keeps each core's program order and in which each
    // load answers the last earlier store to its address, or 0.
    ensures sound { result ≡ 0
        → IsConsistent (operations_of (logs_of (parts_of operations.now ends.now))) }
{
    if !are_ends(operations.len(), ends) {
        *out = nothing();
        return BAD_ENDS;
    }
    if let Err(fault) = check_counts(ends.len(), 1) {
        let answer = Err(fault);
        *out = told_of(&answer);
        return BAD_COUNT;
    }
    let answer = operations_verdict(alloc, operations, ends);
    *out = operations_told(&answer);
    operations_status(&answer)
}
