//! Outcomes counted.

ghost use Rattle.std.specs.Prelude.{◌≡◌, ◌++◌, ◌∷◌, [], ◌<◌, ◌^◌, ℕ, List, IfOk, OnOk, length};
ghost use Rattle.litmus.specs.Collecting.{AreRowsOf};
ghost use Rattle.litmus.specs.inner.Tallies.{IsTally, counted, count_in};

use super::table::Row;
use super::test::Litmus;
use std::alloc::{AllocError, Global};
use std::collections::BTreeMap;

/// How many of the outcomes so far are this one.
fn count_in(tally: &BTreeMap<Vec<u64>, u64>, outcome: &Vec<u64>) -> u64
    ensures { result ≡ count_in outcome.now.items (counted tally.now.entries) }
{
    match tally.get(outcome) {
        Some(count) => *count,
        None => 0,
    }
}

/// Counts one more outcome.
pub(crate) fn count_outcome(
    tally: &mut BTreeMap<Vec<u64>, u64>,
    outcome: Vec<u64>,
) -> Result<(), AllocError>
    requires { (outcomes : List (List ℕ)) × (length outcomes < 2 ^ 32) × IsTally outcomes tally.old.entries }
    ensures { OnOk result ((outcomes : List (List ℕ)) → IsTally outcomes tally.old.entries
        → IsTally (outcomes ++ outcome.items ∷ []) tally.new.entries) }
{
    let count = count_in(tally, &outcome);
    tally.insert(outcome, count + 1)?;
    Ok(())
}

/// The rows of a tally, one for each outcome, in ascending order.
pub(crate) fn rows_of(
    alloc: Global,
    test: &Litmus,
    tally: BTreeMap<Vec<u64>, u64>,
) -> Result<Vec<Row>, AllocError>
    ensures { IfOk result (λ rows. (outcomes : List (List ℕ)) → IsTally outcomes tally.entries
        → AreRowsOf test.now outcomes rows.items) }
{
    let mut rows = Vec::new(alloc);
    for (values, count) in tally {
        let forbidden = test.forbids(&values);
        rows.push(Row {
            values,
            count,
            forbidden,
        })?;
    }
    Ok(rows)
}
