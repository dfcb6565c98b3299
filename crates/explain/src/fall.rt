//! The explanation of a log along which stamp and rank fall.

ghost use Rattle.std.specs.Prelude.{◌<◌, IfOk, IfSome, IsSome, length};
ghost use Rattle.explain.specs.LogFaults.{IsFall};
ghost use Rattle.explain.specs.inner.CoreLog.{records_of, IsLogOf};

use super::around::entries_around;
use super::explanation::Fall;
use log_record::Entry;
use mem_op::OpId;
use std::alloc::{AllocError, Global};

/// The record of this id and the one before it, with these counts; none if it is the first of its log, or isn't there.
pub(crate) fn fall(
    alloc: Global,
    log: &[Entry],
    id: OpId,
    by_core: Vec<usize>,
) -> Result<Option<Fall>, AllocError>
    requires { IsLogOf id.core log.now }
    ensures found { IfOk result (λ o. IfSome o (IsFall (records_of log.now) id)) }
    ensures explained { IfOk result (λ o. 0 < id.index → id.index < length log.now → IsSome o) }
{
    let index = id.index.get() as usize;
    if index == 0 || index >= log.len() {
        return Ok(None);
    }
    Ok(Some(Fall {
        before: log[index - 1],
        fault: log[index],
        rows: entries_around(alloc, log, index)?,
        by_core,
    }))
}
