//! The judge of a set of log files against the programs of its cores.

ghost use Rattle.std.specs.Prelude.{◌≡◌, ◌≢◌, ◌↔◌, ℕ, List, All, length, IfErr, IsErrOf};
ghost use Rattle.core_program.specs.Shape.{IsProgram};
ghost use Rattle.log_file.specs.Sets.{TellEach};
ghost use Rattle.verdict.specs.Counts.{IsInRange, IsOutOfRange};
ghost use Rattle.verdict.specs.Judgement.{IsReadUpTo, IsRunAnswerTo, OnYes, SpellConsistentSet, SpellFlatRun, TellsFailures};
ghost use Rattle.verdict.specs.declared.judge_fault.Count.TheVariants.{Files, Workers, Programs};
ghost use Rattle.verdict.specs.declared.judge_fault.JudgeFault.TheVariants.{BadConfig};

use super::answer::Verdict;
use super::examining::examine;
use super::judge_fault::JudgeFault;
use address_check::Gate;
use core_program::ProgramSet;
use log_file::ByteSource;
use std::alloc::Global;
use std::thread::Threads;

/// The verdict on the set of logs that the readers give, against the programs that its cores ran:
/// file `k` is the log of core `k`, which ran program `k`. A set that gets Yes is sequentially
/// consistent, and one memory that runs the programs, a core at a time, performs just its operations.
///
/// It reads and works as `judge` does. A core's log has to be that of its program. If it isn't, the answer
/// is No by CORE-ORDER if a log falls, and else by PROGRAM.
///
/// Refusals: those of `judge`, and 6 BadConfig after its own if there aren't as many programs as files.
pub fn judge_run<R: Threads + Sync, S: ByteSource, G: Gate + Sync>(
    rt: &R,
    alloc: Global,
    programs: &ProgramSet,
    readers: &mut [S],
    workers: usize,
    gate: &G,
) -> Result<Verdict, JudgeFault>
    // 6 comes exactly where a count is out of range.
    ensures files { IsErrOf result (BadConfig Files) ↔ IsOutOfRange (length readers.old) }
    ensures workers { IsErrOf result (BadConfig Workers)
        ↔ (IsInRange (length readers.old) × IsOutOfRange workers) }
    ensures programs { IsErrOf result (BadConfig Programs)
        ↔ (IsInRange (length readers.old) × IsInRange workers
        × (length programs.now.programs ≢ length readers.old)) }
    // The programs are programs, so a PROGRAM fault is where a log differs from what its program issues.
    ensures are_programs { All IsProgram programs.now.programs }
    // The readers tell texts. After a bad count no reader is read, and after another refusal none after the
    // file that it came at. The answer is the verdict on the set that the texts spell, against the programs,
    // or their first fault; it names no number of workers. Where it is Yes, the set is sequentially
    // consistent, and some whole run of the flat machine performs just its operations, each with its answer.
    ensures exact { (texts : List (List ℕ)) × TellEach S.remaining readers.old texts
        × IfErr result (IsReadUpTo texts readers.old readers.new)
        × IsRunAnswerTo programs.now.programs texts result
        × OnYes result (SpellConsistentSet texts × SpellFlatRun programs.now.programs texts) }
    ensures read { TellsFailures S.failed readers.old readers.new result }
{
    // The set tells with its length that its programs are programs.
    programs.len();
    match examine(rt, alloc, Some(programs), readers, workers, gate) {
        Ok(examined) => Ok(examined.verdict),
        Err(fault) => Err(fault),
    }
}
