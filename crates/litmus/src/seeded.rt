//! Runs by the rounds and the commands that seeds draw, and their table.

ghost use Rattle.std.specs.Prelude.{◌≡◌, ◌↔◌, IsErrOf, IfErr, MatchResult};
ghost use Rattle.litmus.specs.Collecting.{IsBadRunCount, IsCollectFault, IsSeededTable, TellsNo};
ghost use Rattle.litmus.specs.Ends.{SaysNo};
ghost use Rattle.litmus.specs.Runs.{IsRunCause, IsSeededEnd, IsSeededRun, IsUnsimulated, stress_of};
ghost use Rattle.litmus.specs.declared.run_fault.CollectFault.TheVariants.{BadRuns};
ghost use Rattle.litmus.specs.declared.run_cause.RunCause.TheVariants as cause;

use super::collecting::{Collected, Kept, check_runs, keep, table_of};
use super::run_cause::RunCause;
use super::run_fault::CollectFault;
use super::tally::count_outcome;
use super::test::Litmus;
use lease_rule::Config;
use simulation::simulate;
use statistics::Numbers;
use std::alloc::Global;
use std::collections::BTreeMap;
use std::thread::Threads;
use tardis_core::Core;

/// The machine at the end of the run of these seeds.
fn simulate_run(
    alloc: Global,
    test: &Litmus,
    config: &Config,
    seed: u64,
    stress: Option<u64>,
) -> Result<Core, RunCause>
    ensures { MatchResult result
        (λ machine. IsSeededRun test.now config.now seed stress machine)
        (λ cause. IsRunCause test.now config.now seed stress cause) }
{
    let Ok(mut machine) = Core::new(alloc, test.programs(), config) else {
        return Err(RunCause::OutOfMemory);
    };
    simulate(alloc, &mut machine, &[], Some(seed), stress)?;
    Ok(machine)
}

/// What is kept of the run of these seeds; its logs get Yes.
fn run_seeded<R: Threads + Sync>(
    rt: &R,
    alloc: Global,
    test: &Litmus,
    config: &Config,
    seed: u64,
    stress: Option<u64>,
) -> Result<Kept, RunCause>
    ensures run { MatchResult result
        (λ kept. IsSeededEnd test.now config.now seed stress kept.outcome.items kept.counts)
        (λ cause. IsRunCause test.now config.now seed stress cause) }
    ensures yes { IfErr result (λ cause. ¬ (SaysNo cause)) }
{
    // The length of the set tells that it has 64 programs at most.
    test.programs().len();
    let machine = simulate_run(alloc, test, config, seed, stress)?;
    keep(rt, alloc, test, config, machine.units(), machine.slices())
}

/// The seed of the commands of this run, if any are drawn.
fn stress_of(stress: Option<u64>, run: u64) -> Option<u64>
    ensures { result ≡ stress_of stress run }
{
    match stress {
        Some(seed) => Some(seed.wrapping_add(run)),
        None => None,
    }
}

/// Runs a test `runs` times, 1..100,000, counts the outcomes, and adds up the runs' numbers. Run `k`, from 0, goes by the
/// rounds that the seed `seed + k`, wrapping, draws, and by the commands that `stress + k` draws before them, if `stress` is
/// given. Its logs are judged against the test's programs, and get Yes. If a run doesn't come to its end, the answer is the
/// first such run in place of the table and the totals.
pub fn collect_seeded<R: Threads + Sync>(
    rt: &R,
    alloc: Global,
    test: &Litmus,
    config: &Config,
    runs: u64,
    seed: u64,
    stress: Option<u64>,
) -> Result<Collected, CollectFault>
    // There are runs, one for each number: the table counts their outcomes, and the totals add up their numbers. Or there is a
    // first one that has no outcome.
    ensures runs { MatchResult result
        (λ collected. IsSeededTable test.now config.now runs seed stress collected)
        (λ fault. IsCollectFault test.now config.now runs seed stress fault) }
    // It tells of no run whose logs get No: those of every run get Yes.
    ensures yes { IfErr result (λ fault. ¬ (TellsNo fault)) }
    // 6 comes exactly if the number of runs is out of range.
    ensures range { IsErrOf result BadRuns ↔ IsBadRunCount runs }
{
    check_runs(runs)?;
    let mut tally = BTreeMap::new(alloc);
    let mut totals = Numbers::none();
    for run in 0..runs {
        let between = stress_of(stress, run);
        match run_seeded(rt, alloc, test, config, seed.wrapping_add(run), between) {
            Ok(kept) => {
                totals.add_run(&kept.counts);
                count_outcome(&mut tally, kept.outcome)?;
            }
            Err(cause) => return Err(CollectFault::Run { run, cause }),
        }
    }
    let table = table_of(alloc, test, tally)?;
    Ok(Collected { table, totals })
}
