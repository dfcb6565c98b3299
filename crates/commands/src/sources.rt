//! The trace of logs with the sources that they name in place of their words.

ghost use Rattle.std.specs.Prelude.{◌≡◌, ◌≤◌, All, IfOk, length, map, vec_len};
ghost use Rattle.flat_replay.specs.Accesses.{operation_lists};
ghost use Rattle.log_record.specs.Entries.{core_entries, operations_of, record_lists};
ghost use Rattle.mem_op.specs.Limits.{operation_limit};
ghost use Rattle.commands.specs.Sources as sources;

use super::log_traces::keyed;
use log_record::{Act, Record, source_number, store_number};
use mem_op::{CoreId, OpId, OpIndex, Source, Word};
use std::alloc::{AllocError, Global};
use trace::{Access, Address, Trace};

/// A number that no store has.
const NO_NUMBER: Word = u64::MAX;

/// Whether a read of this word at this address may have it from a source: the initial 0, or an operation that stored it there.
fn may_give(worded: &Trace, source: &Source, addr: Address, word: Word) -> bool
    ensures { result ≡ sources.may_give worded.now source.now addr word }
{
    match source {
        Source::Init => word == 0,
        Source::Store(id) => match worded.operation(id) {
            Some(access) => access.stores(addr, word),
            None => false,
        },
    }
}

/// The number that a read of this word gets: that of its source, if it may have the word from there.
fn number_read(worded: &Trace, source: &Source, addr: Address, word: Word) -> Word
    ensures { result ≡ sources.number_read worded.now source.now addr word }
{
    if may_give(worded, source, addr, word) {
        source_number(source)
    } else {
        NO_NUMBER
    }
}

/// The operation of a record with numbers in place of its words.
fn numbered(worded: &Trace, id: &OpId, logged: &Record) -> Access
    ensures { result ≡ sources.numbered_by worded.now id.now logged.now.addr logged.now.value logged.now.act }
{
    let addr = logged.addr.get();
    match logged.act() {
        Act::Load(source) => {
            Access::load(addr, number_read(worded, &source, addr, logged.value))
        }
        Act::Store => Access::store(addr, store_number(id)),
        Act::Swap(source, read) => {
            let number = number_read(worded, &source, addr, read);
            Access::swap(addr, number, store_number(id))
        }
    }
}

/// The operations of a core's log, so.
fn numbered_log(
    alloc: Global,
    worded: &Trace,
    core: CoreId,
    log: &[Record],
) -> Result<Vec<Access>, AllocError>
    requires { length log.now ≤ operation_limit }
    ensures { IfOk result (λ made. made.items
        ≡ map (sources.numbered worded.now) (core_entries core 0 log.now)) }
{
    let mut made = Vec::with_capacity(alloc, log.len())?;
    for (i, logged) in log.iter().enumerate() {
        let index = OpIndex::at(i);
        made.push(numbered(worded, &OpId { core, index }, logged))?;
    }
    Ok(made)
}

/// Those of all logs, so.
fn numbered_logs(
    alloc: Global,
    worded: &Trace,
    logs: &[Vec<Record>],
) -> Result<Vec<Vec<Access>>, AllocError>
    requires few { length logs.now ≤ 64 }
    requires short { All (λ log. vec_len log ≤ operation_limit) logs.now }
    ensures { IfOk result (λ made. operation_lists made.items
        ≡ sources.numbered_from worded.now 0 (record_lists logs.now)) }
{
    let mut made = Vec::with_capacity(alloc, logs.len())?;
    for (c, log) in logs.iter().enumerate() {
        made.push(numbered_log(alloc, worded, CoreId::at(c), log)?)?;
    }
    Ok(made)
}

/// The trace of logs, of which this is the trace with their words, with the sources that they name in place of the words: each store
/// stores a number of its own, and each load or swap reads the number of the store that it names, 0 for the initial 0, or one that no
/// store has, if it can't have its word from there. Err if memory was refused.
pub(crate) fn sourced_trace(
    alloc: Global,
    worded: &Trace,
    logs: &[Vec<Record>],
) -> Result<Trace, AllocError>
    requires few { length logs.now ≤ 64 }
    requires short { All (λ log. vec_len log ≤ operation_limit) logs.now }
    requires words { worded.now ≡ operations_of (record_lists logs.now) }
    ensures { IfOk result (λ trace. trace ≡ sources.sourced_operations (record_lists logs.now)) }
{
    keyed(alloc, numbered_logs(alloc, worded, logs)?, logs)
}

/// An order that explains the sources of a set explains its words. (This does nothing: its contract is the law.)
pub fn orders_explain_words()
    ensures { sources.OrdersExplainWords }
{}
