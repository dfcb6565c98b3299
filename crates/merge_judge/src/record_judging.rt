//! The judge of logs whose records are in memory.

ghost use Rattle.std.specs.Prelude.{◌≡◌, ◌↔◌, ◌⊎◌, All, IsErrOf, MatchResult, length};
ghost use Rattle.verdict.specs.Counts.{IsOutOfRange};
ghost use Rattle.verdict.specs.VerdictOf.{verdict_of};
ghost use Rattle.verdict.specs.declared.judge_fault.Count.TheVariants.{Files};
ghost use Rattle.verdict.specs.declared.judge_fault.JudgeFault.TheVariants.{BadConfig, OutOfMemory};
ghost use Rattle.merge_judge.specs.Records.{AreOfLog, logs_from, records_of};

use super::judging::merged;
use super::merge_fault::MergeFault;
use super::nowhere::Nowhere;
use super::record_slice::{OpenSlice, RecordSlice, Recorded};
use std::alloc::Global;
use verdict::{JudgeFault, Verdict, check_counts};

/// The verdict on the set of these logs. Source `k` is that of core `k`, and there are as many cores as
/// sources. The memory it takes doesn't grow with the logs.
///
/// Refusals: 6 BadConfig if the number of logs isn't 1..64; 10 OutOfMemory if a growth was refused.
pub fn records_verdict<T: Recorded>(
    alloc: Global,
    sources: &mut [RecordSlice<T>],
) -> Result<Verdict, JudgeFault>
    requires sources { sources.old ≡ logs_from 0 (length sources.old) (records_of sources.old) }
    requires logs { All (λ log. AreOfLog log.records) sources.old }
    ensures files { IsErrOf result (BadConfig Files) ↔ IsOutOfRange (length sources.old) }
    ensures exact { MatchResult result
        (λ verdict. verdict ≡ verdict_of (records_of sources.old))
        (λ fault. (fault ≡ BadConfig Files) ⊎ (fault ≡ OutOfMemory)) }
{
    check_counts(sources.len(), 1)?;
    match merged::<OpenSlice<T>, RecordSlice<T>, Nowhere, Nowhere>(
        alloc,
        sources,
        &mut Nowhere,
        Nowhere,
    ) {
        Ok(verdict) => Ok(verdict),
        Err(MergeFault::Judge(fault)) => Err(fault),
        Err(MergeFault::Write) => unreachable!(),
    }
}
