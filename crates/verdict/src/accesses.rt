//! The operations of logs, without their stamps, ranks and sources.

ghost use Rattle.std.specs.Prelude.{◌≡◌, IfOk, map};
ghost use Rattle.flat_replay.specs.Accesses.{operation_lists};
ghost use Rattle.log_record.specs.Entries.{record_lists, operation_of, operations_of};

use flat_replay::Access;
use log_record::{Act, Record};
use std::alloc::{AllocError, Global};

/// The operation of a record.
fn access_of(logged: &Record) -> Access
    ensures { result ≡ operation_of logged.now }
{
    let addr = logged.addr.get();
    match logged.act() {
        Act::Load(_) => Access::load(addr, logged.value),
        Act::Store => Access::store(addr, logged.value),
        Act::Swap(_, read) => Access::swap(addr, read, logged.value),
    }
}

/// The operations of a log.
fn accesses_of_log(alloc: Global, log: &[Record]) -> Result<Vec<Access>, AllocError>
    ensures { IfOk result (λ operations. operations.items ≡ map operation_of log.now) }
{
    log.iter().map(|logged| access_of(logged)).collect(alloc)
}

/// The operations of each log. Err if memory was refused.
pub fn accesses_of(alloc: Global, logs: &[Vec<Record>]) -> Result<Vec<Vec<Access>>, AllocError>
    ensures { IfOk result (λ cores.
        operation_lists cores.items ≡ operations_of (record_lists logs.now)) }
{
    let mut cores = Vec::with_capacity(alloc, logs.len())?;
    for log in logs {
        cores.push(accesses_of_log(alloc, log)?)?;
    }
    Ok(cores)
}
