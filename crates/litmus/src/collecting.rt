//! What the tables of all kinds of runs share.

ghost use Rattle.std.specs.Prelude.{◌≡◌, ◌↔◌, ℕ, List, IfErr, IfOk, IsOk, MatchResult, length};
ghost use Rattle.litmus.specs.Collecting.{AreRowsOf, IsRunCount};
ghost use Rattle.litmus.specs.Ends.{GetsYes, IsJudgeCause, outcome_of};
ghost use Rattle.statistics.specs.Numbers.{run_numbers};
ghost use Rattle.litmus.specs.declared.run_fault.CollectFault.TheVariants.{BadRuns};
ghost use Rattle.litmus.specs.inner.JudgedOutcome.{at_end};
ghost use Rattle.litmus.specs.inner.Tallies.{IsTally};

use super::judging::judged_outcome;
use super::run_cause::RunCause;
use super::run_fault::CollectFault;
use super::table::Table;
use super::tally::rows_of;
use super::test::Litmus;
use core_unit::CoreUnit;
use lease_rule::Config;
use manager_slice::ManagerSlice;
use statistics::{Numbers, RunCounts};
use std::alloc::{AllocError, Global};
use std::collections::BTreeMap;
use std::thread::Threads;

/// The most runs.
const RUN_LIMIT: u64 = 100_000;

/// What is collected of a test's runs.
#[derive(Drop)]
pub struct Collected {
    /// The table of their outcomes.
    pub table: Table,
    /// The totals of their numbers.
    pub totals: Numbers,
}

/// What is kept of a run that has ended.
#[derive(Drop)]
pub(crate) struct Kept {
    /// Its outcome.
    pub(crate) outcome: Vec<u64>,
    /// Its numbers.
    pub(crate) counts: RunCounts,
}

/// What is kept of a run that has ended, if its logs get Yes.
pub(crate) fn keep<R: Threads + Sync>(
    rt: &R,
    alloc: Global,
    test: &Litmus,
    config: &Config,
    units: &[CoreUnit],
    managers: &[ManagerSlice],
) -> Result<Kept, RunCause>
    ensures { MatchResult result
        (λ kept. GetsYes test.now (at_end units.now)
        × (kept.outcome.items ≡ outcome_of test.now (at_end units.now))
        × (kept.counts ≡ run_numbers (length test.now.programs) config.now.slices units.now managers.now))
        (λ cause. IsJudgeCause test.now (at_end units.now) cause) }
{
    let outcome = judged_outcome(rt, alloc, test, units)?;
    let cores = test.programs().len();
    let counts = RunCounts::of(units, managers, cores, config.slices());
    Ok(Kept { outcome, counts })
}

/// Ok if a table may have this number of runs; otherwise BadRuns.
pub(crate) fn check_runs(runs: u64) -> Result<(), CollectFault>
    ensures ok { IsOk result ↔ IsRunCount runs }
    ensures err { IfErr result (λ fault. fault ≡ BadRuns) }
{
    if runs < 1 || runs > RUN_LIMIT {
        return Err(CollectFault::BadRuns);
    }
    Ok(())
}

/// The table of the outcomes that were counted.
pub(crate) fn table_of(
    alloc: Global,
    test: &Litmus,
    tally: BTreeMap<Vec<u64>, u64>,
) -> Result<Table, AllocError>
    ensures shown { IfOk result (λ table. table.shown ≡ test.now.shown) }
    ensures rows { IfOk result (λ table. (outcomes : List (List ℕ)) → IsTally outcomes tally.entries
        → AreRowsOf test.now outcomes table.rows) }
{
    let shown = test.shown().to_vec(alloc)?;
    Ok(Table::new(shown, rows_of(alloc, test, tally)?))
}
