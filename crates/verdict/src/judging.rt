//! The judge of a set of log files.

ghost use Rattle.std.specs.Prelude.{◌≡◌, ◌↔◌, ℕ, List, length, IfErr, IsErrOf};
ghost use Rattle.log_file.specs.Sets.{TellEach};
ghost use Rattle.verdict.specs.Counts.{IsInRange, IsOutOfRange};
ghost use Rattle.verdict.specs.Judgement.{IsAnswerTo, IsReadUpTo, OnYes, SpellConsistentSet, TellsFailures};
ghost use Rattle.verdict.specs.declared.judge_fault.Count.TheVariants.{Files, Workers, Programs};
ghost use Rattle.verdict.specs.declared.judge_fault.JudgeFault.TheVariants.{BadConfig};

use super::answer::Verdict;
use super::examining::examine;
use super::judge_fault::JudgeFault;
use address_check::Gate;
use log_file::ByteSource;
use std::alloc::Global;
use std::thread::Threads;

/// The verdict on the set of logs that the readers give, file `k` the log of core `k` of as many cores
/// as there are files. A set that gets Yes is sequentially consistent, whoever made its logs.
///
/// The calling thread reads the files in their order and stops at the first fault. Then come the phases `Cores`
/// and, if no core has a fault, `Addresses`, each cut into as many pieces as there are workers. Each worker
/// enters the gate with the number of its piece, from 1; a single worker is the calling thread.
///
/// Refusals: 6 BadConfig before any read, if the number of files, or else that of workers, isn't
/// 1..64; 20..27, the first fault of the least file that has one; 28 Read if the reader of a file
/// failed; 10 OutOfMemory if a growth was refused.
pub fn judge<R: Threads + Sync, S: ByteSource, G: Gate + Sync>(
    rt: &R,
    alloc: Global,
    readers: &mut [S],
    workers: usize,
    gate: &G,
) -> Result<Verdict, JudgeFault>
    // 6 comes exactly where a count is out of range.
    ensures files { IsErrOf result (BadConfig Files) ↔ IsOutOfRange (length readers.old) }
    ensures workers { IsErrOf result (BadConfig Workers)
        ↔ (IsInRange (length readers.old) × IsOutOfRange workers) }
    ensures programs { ¬ (IsErrOf result (BadConfig Programs)) }
    // The readers tell texts. After a bad count no reader is read, and after another refusal none after the
    // file that it came at. The answer is the verdict on the set that the texts spell, or their first fault;
    // it names no number of workers. Where it is Yes, the set's operations have one order that keeps each
    // core's program order and in which each load answers the last earlier store to its address, or 0.
    ensures exact { (texts : List (List ℕ)) × TellEach S.remaining readers.old texts
        × IfErr result (IsReadUpTo texts readers.old readers.new)
        × IsAnswerTo texts result
        × OnYes result (SpellConsistentSet texts) }
    ensures read { TellsFailures S.failed readers.old readers.new result }
{
    match examine(rt, alloc, None, readers, workers, gate) {
        Ok(examined) => Ok(examined.verdict),
        Err(fault) => Err(fault),
    }
}
