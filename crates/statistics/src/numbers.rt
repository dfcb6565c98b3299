//! The numbers of cores and slices.

ghost use Rattle.std.specs.Prelude.{◌≡◌, ◌+◌, ◌∷◌, ◌++◌, ◌<◌, ◌≤◌, ◌^◌, ℕ, [], false, if◌then◌else◌, List, get_or, length, map};
ghost use Rattle.manager_slice.specs.Limits.{entry_limit};
ghost use Rattle.statistics.specs.Columns.{column_at, column_count, counts, is_greatest, joined_in};
ghost use Rattle.statistics.specs.Numbers as numbers;
ghost use Rattle.statistics.specs.Sights.{no_past, sights_after};
ghost use Rattle.statistics.specs.declared.sight.Sight.{Sight};

use super::column::{COLUMN_COUNT, Column, column_at};
use super::run_counts::RunCounts;
use super::sight::{Past, Sight};
use core_unit::{CoreUnit, Transcript};
use log_record::Record;
use manager_slice::{HistoryEntry, ManagerSlice};

/// A number for each column: what a core or a slice has done so far, or the totals over many of them.
#[derive(Clone, Copy, Debug, PartialEq, Eq)]
pub struct Numbers {
    /// The number in each column.
    pub(crate) values: [u64; COLUMN_COUNT],
}

impl Numbers {
    /// The totals over nothing.
    pub fn none() -> Numbers
        ensures totals { result ≡ numbers.totals_of [] }
        ensures bounded { numbers.IsBounded 0 result }
    {
        Numbers {
            values: [0; COLUMN_COUNT],
        }
    }

    /// The numbers of a core. Takes no memory.
    #[tactic(auto, unfolding(crate::specs::Columns::column_at))]
    pub fn of_core(unit: &CoreUnit) -> Numbers
        ensures numbers { result ≡ numbers.core_counts unit.now }
        ensures bounded { numbers.IsBoundedBy 1 result }
    {
        let log = unit.log();
        let mut values = count_entries(unit.transcript(), log, unit.config().period());
        values[Column::Pts as usize] = unit.pts().get();
        values[Column::Rank as usize] = greatest_rank(log);
        Numbers { values }
    }

    /// The numbers of a slice. Takes no memory.
    #[tactic(auto, unfolding(crate::specs::Numbers::by_place, crate::specs::Columns::column_at))]
    pub fn of_slice(slice: &ManagerSlice) -> Numbers
        ensures numbers { result ≡ numbers.slice_counts slice.now }
        ensures bounded { numbers.IsBoundedBy 1 result }
    {
        let mut values = count_services(slice.history());
        values[Column::Mts as usize] = slice.state().memory.mts.get();
        Numbers { values }
    }

    /// Adds the numbers of one more run. There must be fewer than 2^20 runs before it.
    pub fn add_run(&mut self, run: &RunCounts)
        requires { (n : ℕ) × (n < 2 ^ 20) × numbers.IsBounded n self.old }
        ensures totals { self.new ≡ numbers.joined self.old run.now }
        ensures bounded { (n : ℕ) → numbers.IsBounded n self.old → numbers.IsBounded (n + 1) self.new }
    {
        self.join(&run.numbers);
    }

    /// Adds the numbers of one part more, or of many.
    pub(crate) fn join(&mut self, more: &Numbers)
        requires room { numbers.IsBoundedBy (2 ^ 28) self.old }
        requires few { numbers.IsBoundedBy (2 ^ 28) more.now }
        ensures totals { self.new ≡ numbers.joined self.old more.now }
        ensures bounded { (place : ℕ) → is_greatest (column_at place) ≡ false
            → get_or self.new.values place 0 ≤ get_or self.old.values place 0 + get_or more.now.values place 0 }
    {
        for place in 0..COLUMN_COUNT {
            self.values[place] = joined(place, self.values[place], more.values[place]);
        }
    }
}

/// Two numbers in the column at a place as one: the greater stamp or rank, and else their sum.
fn joined(place: usize, one: u64, other: u64) -> u64
    requires place { place < COLUMN_COUNT }
    requires room { is_greatest (column_at place) ≡ false → one + other < 2 ^ 64 }
    ensures { result ≡ joined_in (column_at place) one other }
{
    if column_at(place).is_greatest() {
        one.max(other)
    } else {
        one + other
    }
}

/// The count of each column over a transcript and its log.
#[tactic(auto, unfolding(crate::specs::Numbers::by_place))]
fn count_entries(transcript: &Transcript, log: &[Record], period: u64) -> [u64; COLUMN_COUNT]
    requires { 1 ≤ period }
    ensures counts { result ≡ numbers.counted (sights_after period log.now no_past transcript.now.entries) }
    ensures few { (place : ℕ) → place < column_count → get_or result place 0 ≤ entry_limit }
{
    let mut counts = [0; COLUMN_COUNT];
    let mut past = Past::default();
    for place in 0..transcript.len() {
        let Some(entry) = transcript.get(place) else {
            unreachable!();
        };
        count(&mut counts, &past.sight_of(&entry, log, period));
        past = past.after(&entry);
    }
    counts
}

/// The count of each column over a history.
#[tactic(auto, unfolding(crate::specs::Numbers::by_place))]
fn count_services(history: &[HistoryEntry]) -> [u64; COLUMN_COUNT]
    requires { length history.now ≤ entry_limit }
    ensures counts { result ≡ numbers.counted (map (λ e. Sight.Slice e) history.now) }
    ensures few { (place : ℕ) → place < column_count → get_or result place 0 ≤ entry_limit }
{
    let mut counts = [0; COLUMN_COUNT];
    for entry in history {
        count(&mut counts, &Sight::Slice(*entry));
    }
    counts
}

/// Counts a sight in each column that counts it.
fn count(counts: &mut [u64; COLUMN_COUNT], sight: &Sight)
    requires { (place : ℕ) → place < column_count → get_or counts.old place 0 ≤ entry_limit }
    ensures counts { (seen : List Sight) → counts.old ≡ numbers.counted seen → counts.new ≡ numbers.counted (seen ++ sight.now ∷ []) }
    ensures few { (place : ℕ) → get_or counts.new place 0 ≤ get_or counts.old place 0 + 1 }
{
    for place in 0..COLUMN_COUNT {
        counts[place] += told(place, sight);
    }
}

/// How much the column at a place counts for a sight.
fn told(place: usize, sight: &Sight) -> u64
    requires { place < COLUMN_COUNT }
    ensures value { result ≡ (if counts (column_at place) sight.now then 1 else 0) }
    ensures small { result ≤ 1 }
{
    u64::from(column_at(place).counts(sight))
}

/// The greatest rank of a log.
fn greatest_rank(log: &[Record]) -> u64
    ensures { result ≡ numbers.greatest_rank log.now }
{
    let mut most = 0;
    for record in log {
        most = most.max(record.rank.get());
    }
    most
}
