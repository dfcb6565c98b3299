//! What the cores of a run that has ended have made.

ghost use Rattle.std.specs.Prelude.{◌≡◌, ◌≤◌, IfOk, length, map, take};
ghost use Rattle.mem_op.specs.Limits.{operation_limit};
ghost use Rattle.core_machine.specs.Works.{log_at};
ghost use Rattle.litmus.specs.Ends.{outcome_of, word_in};
ghost use Rattle.litmus.specs.inner.JudgedOutcome.{at_end};

use super::test::{Litmus, Shown};
use core_unit::CoreUnit;
use log_record::Record;
use mem_op::CoreId;
use std::alloc::{AllocError, Global};

/// The records of a core; none if it isn't there.
pub(crate) fn log_of(units: &[CoreUnit], core: CoreId) -> &[Record]
    ensures records { result.now ≡ log_at (at_end units.now) core }
    ensures few { length result.now ≤ operation_limit }
{
    let Some(unit) = units.get(core.get() as usize) else {
        return &[];
    };
    unit.log()
}

/// The word in a register of a core.
fn word_in(units: &[CoreUnit], shown: &Shown) -> u64
    ensures { result ≡ word_in (at_end units.now) shown.now }
{
    let Some(unit) = units.get(shown.core.get() as usize) else {
        return 0;
    };
    unit.program_state().reg(shown.register)
}

/// The outcome of a run that has ended.
pub(crate) fn outcome_of(
    alloc: Global,
    test: &Litmus,
    units: &[CoreUnit],
) -> Result<Vec<u64>, AllocError>
    ensures { IfOk result (λ outcome. outcome.items ≡ outcome_of test.now (at_end units.now)) }
{
    let mut outcome = Vec::new(alloc);
    for shown in test.shown() {
        outcome.push(word_in(units, shown))?;
    }
    Ok(outcome)
}
