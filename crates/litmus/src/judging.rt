//! The verdict on the logs of a run that has ended.

ghost use Rattle.std.specs.Prelude.{◌≡◌, ◌<◌, ◌≤◌, List, length, map, IfErr, IfOk, MatchResult};
ghost use Rattle.log_file.specs.InMemory.{rest_of};
ghost use Rattle.log_file.specs.Log.{SpellsIn};
ghost use Rattle.log_file.specs.Sets.{SpellSet};
ghost use Rattle.log_record.specs.declared.record.Record.{Record};
ghost use Rattle.mem_op.specs.Limits.{operation_limit};
ghost use Rattle.core_machine.specs.Works.{logs_below};
ghost use Rattle.litmus.specs.Ends.{GetsYes, IsJudgeCause, outcome_of};
ghost use Rattle.litmus.specs.declared.run_cause.RunCause.TheVariants as cause;
ghost use Rattle.litmus.specs.inner.Ending.{word_lists};
ghost use Rattle.litmus.specs.inner.JudgedOutcome.{IsNo, IsVerdictOn, at_end};
ghost use Rattle.verdict.specs.Counts.{IsInRange};
ghost use Rattle.verdict.specs.Judgement.{IsYes};

use super::ended::{log_of, outcome_of};
use super::run_cause::RunCause;
use super::test::Litmus;
use core_program::ProgramSet;
use core_unit::CoreUnit;
use log_file::{SliceSource, print_log};
use log_record::{Format, Record};
use mem_op::CoreId;
use std::alloc::Global;
use std::thread::Threads;
use verdict::{JudgeFault, OpenGate, Verdict, judge_run};

/// The text of the log of one of `cores` cores.
fn log_text(
    alloc: Global,
    core: CoreId,
    cores: usize,
    records: &[Record],
) -> Result<Vec<u8>, RunCause>
    requires core { core < cores }
    requires cores { cores ≤ 64 }
    requires few { length records.now ≤ operation_limit }
    ensures text { IfOk result (λ text. SpellsIn Format.Two core cores text.items records.now) }
    ensures refused { IfErr result (λ cause. cause ≡ RunCause.OutOfMemory) }
{
    match print_log(alloc, Format::Two, core, cores as u64, records) {
        Ok(text) => Ok(text.into_bytes()),
        Err(_) => Err(RunCause::OutOfMemory),
    }
}

/// The texts of the logs of this many cores.
fn log_texts(alloc: Global, units: &[CoreUnit], cores: usize) -> Result<Vec<Vec<u8>>, RunCause>
    requires { cores ≤ 64 }
    ensures texts { IfOk result (λ texts.
        SpellSet (word_lists texts.items) (logs_below (at_end units.now) cores)) }
    ensures count { IfOk result (λ texts. length texts.items ≡ cores) }
    ensures refused { IfErr result (λ cause. cause ≡ RunCause.OutOfMemory) }
{
    let mut texts = Vec::new(alloc);
    for number in 0..cores {
        let core = CoreId::at(number);
        let text = log_text(alloc, core, cores, log_of(units, core))?;
        texts.push(text)?;
    }
    Ok(texts)
}

/// A source for each text.
fn sources_of<'a>(alloc: Global, texts: &'a [Vec<u8>]) -> Result<Vec<SliceSource<'a>>, JudgeFault>
    ensures texts { IfOk result (λ sources.
        map rest_of sources.items ≡ word_lists texts.entry.now) }
    ensures refused { IfErr result (λ fault. fault ≡ JudgeFault.OutOfMemory) }
{
    let mut sources = Vec::new(alloc);
    for text in texts {
        if sources.push(SliceSource::new(text.as_slice())).is_err() {
            return Err(JudgeFault::OutOfMemory);
        }
    }
    Ok(sources)
}

/// The verdict on the logs that these texts spell, by one worker, the calling thread. No count is out of range, no text has
/// a fault and no source fails, so this is refused only for lack of memory.
fn judge_texts<R: Threads + Sync>(
    rt: &R,
    alloc: Global,
    programs: &ProgramSet,
    texts: &[Vec<u8>],
) -> Result<Verdict, JudgeFault>
    requires in_range { IsInRange (length texts.now) }
    requires programs { length programs.now.programs ≡ length texts.now }
    ensures { (logs : List (List Record)) → SpellSet (word_lists texts.now) logs
        → IsVerdictOn programs.now.programs logs result }
{
    let mut sources = sources_of(alloc, texts)?;
    judge_run(rt, alloc, programs, sources.as_mut_slice(), 1, &OpenGate)
}

/// Ok if the verdict is Yes; otherwise the fault that it names.
fn check_yes(verdict: &Verdict) -> Result<(), RunCause>
    ensures { MatchResult result (λ _. IsYes verdict.now) (λ cause. IsNo verdict.now cause) }
{
    match verdict {
        Verdict::Yes(_) => Ok(()),
        Verdict::No(fault) => Err(RunCause::No(*fault)),
    }
}

/// Judges the logs of a run that has ended: Ok if they get Yes.
fn judge_end<R: Threads + Sync>(
    rt: &R,
    alloc: Global,
    test: &Litmus,
    units: &[CoreUnit],
) -> Result<(), RunCause>
    ensures { MatchResult result
        (λ _. GetsYes test.now (at_end units.now))
        (λ cause. IsJudgeCause test.now (at_end units.now) cause) }
{
    let programs = test.programs();
    let texts = log_texts(alloc, units, programs.len())?;
    match &judge_texts(rt, alloc, programs, texts.as_slice()) {
        Ok(verdict) => check_yes(verdict),
        Err(JudgeFault::OutOfMemory) => Err(RunCause::OutOfMemory),
        Err(_) => unreachable!(),
    }
}

/// The outcome of a run that has ended, if its logs get Yes.
pub(crate) fn judged_outcome<R: Threads + Sync>(
    rt: &R,
    alloc: Global,
    test: &Litmus,
    units: &[CoreUnit],
) -> Result<Vec<u64>, RunCause>
    ensures { MatchResult result
        (λ outcome. GetsYes test.now (at_end units.now)
        × (outcome.items ≡ outcome_of test.now (at_end units.now)))
        (λ cause. IsJudgeCause test.now (at_end units.now) cause) }
{
    judge_end(rt, alloc, test, units)?;
    Ok(outcome_of(alloc, test, units)?)
}
