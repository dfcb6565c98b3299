//! The judge of a set of log files that keeps what its verdict stands on.

ghost use Rattle.std.specs.Prelude.{◌≡◌, ◌↔◌, ℕ, List, length, IfErr, IsErrOf};
ghost use Rattle.log_file.specs.Sets.{TellEach};
ghost use Rattle.verdict.specs.CoreFaultsOf.{given};
ghost use Rattle.verdict.specs.Counts.{AreNotAsMany, IsInRange, IsOutOfRange};
ghost use Rattle.verdict.specs.Bases.{IsExaminedBy, verdict_in};
ghost use Rattle.verdict.specs.Judgement.{IsAnswerAgainst, IsReadUpTo, OnYes, SpellConsistentSet, SpellFlatRunBy, TellsFailures};
ghost use Rattle.verdict.specs.declared.judge_fault.Count.TheVariants.{Files, Workers, Programs};
ghost use Rattle.verdict.specs.declared.judge_fault.JudgeFault.TheVariants.{BadConfig};

use super::basis::Examined;
use super::counts::{check_counts, check_programs};
use super::examine_set::examine_set;
use super::judge_fault::JudgeFault;
use address_check::Gate;
use core_program::ProgramSet;
use log_file::{ByteSource, LogSet};
use std::alloc::Global;
use std::thread::Threads;

/// Judges the set of logs that the readers give as `judge` does, or as `judge_run` if programs are
/// given. With the verdict it gives back what that stands on: the logs if a core's log breaks a rule by
/// itself, else the index of all records.
///
/// Refusals: those of `judge` or `judge_run`.
pub fn examine<R: Threads + Sync, S: ByteSource, G: Gate + Sync>(
    rt: &R,
    alloc: Global,
    programs: Option<&ProgramSet>,
    readers: &mut [S],
    workers: usize,
    gate: &G,
) -> Result<Examined, JudgeFault>
    // 6 comes exactly where a count is out of range.
    ensures files { IsErrOf result (BadConfig Files) ↔ IsOutOfRange (length readers.old) }
    ensures workers { IsErrOf result (BadConfig Workers)
        ↔ (IsInRange (length readers.old) × IsOutOfRange workers) }
    ensures programs { IsErrOf result (BadConfig Programs)
        ↔ (IsInRange (length readers.old) × IsInRange workers
        × AreNotAsMany (length readers.old) (given programs.entry)) }
    // The readers tell texts. After a bad count no reader is read, and after another refusal none after the
    // file that it came at. The verdict is that of the judge on the set that the texts spell, and what it
    // stands on is that set's. Where it is Yes, the set is sequentially consistent, and where programs are
    // given a whole run of the flat machine performs just its operations.
    ensures exact { (texts : List (List ℕ)) × TellEach S.remaining readers.old texts
        × IfErr result (IsReadUpTo texts readers.old readers.new)
        × IsExaminedBy (given programs.entry) texts result
        × IsAnswerAgainst (given programs.entry) texts (verdict_in result)
        × OnYes (verdict_in result) (SpellConsistentSet texts
        × SpellFlatRunBy (given programs.entry) texts) }
    ensures read { TellsFailures S.failed readers.old readers.new result }
{
    let files = readers.len();
    check_counts(files, workers)?;
    check_programs(programs, files)?;
    let set = LogSet::read(alloc, readers)?;
    let examined = examine_set(rt, alloc, programs, set, workers, gate)?;
    Ok(examined)
}
