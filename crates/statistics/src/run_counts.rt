//! The numbers of a run.

ghost use Rattle.std.specs.Prelude.{◌≡◌, ◌≤◌, length, map, take};
ghost use Rattle.statistics.specs.Numbers as numbers;

use super::numbers::Numbers;
use core_unit::CoreUnit;
use manager_slice::ManagerSlice;
use std::marker::Model;

/// The numbers of a run: those of its cores and slices, at most 64 of each, as one.
#[derive(Drop)]
pub struct RunCounts {
    pub(crate) numbers: Numbers,
}

impl Model for RunCounts {
    ghost use Rattle.statistics.specs.Numbers.{IsBounded};
    ghost use Rattle.statistics.specs.declared.numbers.Numbers.{Numbers};

    ghost Value = { Numbers };

    ghost view = { λ run. run.numbers };

    ghost invariant = { λ run. IsBounded 1 run.numbers };
}

impl RunCounts {
    /// The numbers of so many cores and slices of a run, or of all if there are fewer. Takes no memory.
    pub fn of(
        units: &[CoreUnit],
        managers: &[ManagerSlice],
        cores: usize,
        slices: usize,
    ) -> RunCounts
        requires cores { cores ≤ 64 }
        requires slices { slices ≤ 64 }
        ensures { result ≡ numbers.run_numbers cores slices units.now managers.now }
    {
        let mut numbers = of_cores(first(units, cores));
        numbers.join(&of_slices(first(managers, slices)));
        RunCounts { numbers }
    }
}

/// The totals over cores.
fn of_cores(units: &[CoreUnit]) -> Numbers
    requires { length units.now ≤ 64 }
    ensures totals { result ≡ numbers.totals_of (map numbers.core_counts units.now) }
    ensures bounded { numbers.IsBoundedBy 64 result }
{
    let mut totals = Numbers::none();
    for unit in units {
        totals.join(&Numbers::of_core(unit));
    }
    totals
}

/// The totals over slices.
fn of_slices(managers: &[ManagerSlice]) -> Numbers
    requires { length managers.now ≤ 64 }
    ensures totals { result ≡ numbers.totals_of (map numbers.slice_counts managers.now) }
    ensures bounded { numbers.IsBoundedBy 64 result }
{
    let mut totals = Numbers::none();
    for slice in managers {
        totals.join(&Numbers::of_slice(slice));
    }
    totals
}

/// So many items, or all if there are fewer.
pub(crate) fn first<T>(items: &[T], count: usize) -> &[T]
    ensures { result.now ≡ take count items.now }
{
    items.get(..count).unwrap_or(items)
}
