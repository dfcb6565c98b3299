//! Runs by threads, and their table.

ghost use Rattle.std.specs.Prelude.{◌↔◌, IsErrOf, IfErr, MatchResult};
ghost use Rattle.litmus.specs.Collecting.{IsBadRunCount, IsThreadFault, IsThreadTable, TellsNo};
ghost use Rattle.litmus.specs.Ends.{SaysNo};
ghost use Rattle.litmus.specs.Runs.{IsThreadCause, IsThreadEnd};
ghost use Rattle.litmus.specs.declared.run_fault.CollectFault.TheVariants.{BadRuns};

use super::collecting::{Collected, Kept, check_runs, keep, table_of};
use super::run_cause::RunCause;
use super::run_fault::CollectFault;
use super::tally::count_outcome;
use super::test::Litmus;
use lease_rule::Config;
use machine::{Go, Pace, ThreadsFault, run_threads};
use mem_op::CoreId;
use statistics::Numbers;
use std::alloc::Global;
use std::collections::BTreeMap;
use std::sync::Wait;
use std::thread::Threads;

/// A pace that always goes.
struct Unpaced;

impl Pace for Unpaced {
    fn before(&self, _core: CoreId, _done: usize, _turn: u64) -> Go {
        Go::Go
    }
}

/// What is kept of a run by threads; its logs get Yes.
fn run_threaded<R: Threads + Wait + Sync>(
    rt: &R,
    alloc: Global,
    test: &Litmus,
    config: &Config,
) -> Result<Kept, RunCause>
    ensures run { MatchResult result
        (λ kept. IsThreadEnd test.now config.now kept.outcome.items kept.counts)
        (λ cause. IsThreadCause test.now config.now cause) }
    ensures yes { IfErr result (λ cause. ¬ (SaysNo cause)) }
{
    match run_threads(rt, alloc, test.programs(), config, &Unpaced) {
        Ok(end) => keep(
            rt,
            alloc,
            test,
            config,
            end.units.as_slice(),
            end.slices.as_slice(),
        ),
        Err(stopped) => Err(RunCause::Threads(ThreadsFault::of(&stopped))),
    }
}

/// Runs a test `runs` times, 1..100,000, counts the outcomes, and adds up the runs' numbers. Each run has a thread for each core, and comes to its
/// end by the order in which these happen to go on. Its logs are judged against the test's programs, and get Yes. If a run doesn't come to its end,
/// the answer is the first such run in place of the table and the totals. May wait for its threads.
pub fn collect_threaded<R: Threads + Wait + Sync>(
    rt: &R,
    alloc: Global,
    test: &Litmus,
    config: &Config,
    runs: u64,
) -> Result<Collected, CollectFault>
    // There are runs, one for each number: the table counts their outcomes, and the totals add up their numbers. Or there is a
    // first one that has no outcome.
    ensures runs { MatchResult result
        (λ collected. IsThreadTable test.now config.now runs collected)
        (λ fault. IsThreadFault test.now config.now runs fault) }
    // It tells of no run whose logs get No: those of every run get Yes.
    ensures yes { IfErr result (λ fault. ¬ (TellsNo fault)) }
    // 6 comes exactly if the number of runs is out of range.
    ensures range { IsErrOf result BadRuns ↔ IsBadRunCount runs }
{
    check_runs(runs)?;
    let mut tally = BTreeMap::new(alloc);
    let mut totals = Numbers::none();
    for run in 0..runs {
        match run_threaded(rt, alloc, test, config) {
            Ok(kept) => {
                totals.add_run(&kept.counts);
                count_outcome(&mut tally, kept.outcome)?;
            }
            Err(cause) => return Err(CollectFault::Run { run, cause }),
        }
    }
    let table = table_of(alloc, test, tally)?;
    Ok(Collected { table, totals })
}
