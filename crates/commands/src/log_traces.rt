//! The traces of logs.

ghost use Rattle.std.specs.Prelude.{◌≡◌, ◌≤◌, All, IfOk, length, vec_len};
ghost use Rattle.flat_replay.specs.Accesses.{operation_lists};
ghost use Rattle.mem_op.specs.Limits.{operation_limit};
ghost use Rattle.log_record.specs.Entries.{operations_of, record_lists};
ghost use Rattle.trace.specs.Growing.{IsOfSize};

use line_stamps::{Rank, Stamp};
use log_record::Record;
use mem_op::CoreId;
use std::alloc::{AllocError, Global};
use trace::{Access, Trace, TraceFull};
use verdict::accesses_of;

/// Adds the keys of a core's log.
fn push_keys(
    keys: &mut Vec<(Stamp, Rank, CoreId)>,
    core: CoreId,
    log: &[Record],
) -> Result<(), AllocError> {
    for record in log {
        keys.push((record.ts, record.rank, core))?;
    }
    Ok(())
}

/// The cores of the records of logs, in the order of their keys.
fn cores_by_key(alloc: Global, logs: &[Vec<Record>]) -> Result<Vec<CoreId>, AllocError>
    requires { length logs.now ≤ 64 }
{
    let mut keys = Vec::new(alloc);
    for (core, log) in logs.iter().enumerate() {
        push_keys(&mut keys, CoreId::at(core), log)?;
    }
    keys.sort_unstable();
    keys.iter().map(|(_, _, core)| *core).collect(alloc)
}

/// The trace of these operations, written in the order of the keys of logs. Err if memory was refused.
pub(crate) fn keyed(
    alloc: Global,
    cores: Vec<Vec<Access>>,
    logs: &[Vec<Record>],
) -> Result<Trace, AllocError>
    requires few { length logs.now ≤ 64 }
    requires size { IsOfSize (operation_lists cores.items) }
    ensures { IfOk result (λ trace. trace ≡ operation_lists cores.items) }
{
    match Trace::of(alloc, cores) {
        Ok(trace) => Ok(trace.written_by(cores_by_key(alloc, logs)?)),
        Err(TraceFull::OutOfMemory) => Err(AllocError),
        Err(TraceFull::TooMany) => unreachable!(),
    }
}

/// The trace of logs, written in the order of their keys. Err if memory was refused.
pub(crate) fn trace_of(alloc: Global, logs: &[Vec<Record>]) -> Result<Trace, AllocError>
    requires few { length logs.now ≤ 64 }
    requires short { All (λ log. vec_len log ≤ operation_limit) logs.now }
    ensures { IfOk result (λ trace. trace ≡ operations_of (record_lists logs.now)) }
{
    keyed(alloc, accesses_of(alloc, logs)?, logs)
}
