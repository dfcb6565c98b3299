//! The logs of a set again, from what its verdict stands on.

ghost use Rattle.std.specs.Prelude.{◌≡◌, IfOk, IsPermutation, List, length, map};
ghost use Rattle.std.specs.List.{range_with_len};
ghost use Rattle.log_record.specs.Entries.{entries, record_lists};
ghost use Rattle.log_record.specs.declared.record.Record.{Record};
ghost use Rattle.commands.specs.inner.ReadLogs.{AreLogsOf, own_log};

use address_check::AddressIndex;
use log_file::LogSet;
use log_record::{Entry, Record};
use mem_op::CoreId;
use std::alloc::{AllocError, Global};
use verdict::Basis;

/// How many records the set has.
pub(crate) fn records_in(basis: &Basis) -> usize {
    match basis {
        Basis::Logs(set) => records_of(set),
        Basis::Index(index) => index.all().len(),
    }
}

/// How many records logs have.
fn records_of(set: &LogSet) -> usize {
    let mut count: usize = 0;
    for core in 0..set.len() {
        if let Some(log) = set.get(CoreId::at(core)) {
            count = count.saturating_add(log.len());
        }
    }
    count
}

/// The logs of the set, of so many cores.
pub(crate) fn logs_of(
    alloc: Global,
    basis: &Basis,
    cores: usize,
) -> Result<Vec<Vec<Record>>, AllocError>
    ensures { (logs : List (List Record)) → AreLogsOf logs basis.now cores
        → IfOk result (λ read. record_lists read.items ≡ logs) }
{
    match basis {
        Basis::Logs(set) => set.logs(alloc),
        Basis::Index(index) => logs_in(alloc, index, cores),
    }
}

/// The logs of a set of so many cores, of which an index has all records.
fn logs_in(
    alloc: Global,
    index: &AddressIndex,
    cores: usize,
) -> Result<Vec<Vec<Record>>, AllocError>
    ensures { (logs : List (List Record)) → IsPermutation (entries logs) index.now → length logs ≡ cores
        → IfOk result (λ read. record_lists read.items ≡ logs) }
{
    let mut entries = Vec::from_slice(alloc, index.all())?;
    entries.sort_unstable_by_key(|entry| entry.id.index);
    own_logs(alloc, entries.as_slice(), cores)
}

/// The records of each of so many cores, in the order in which they stand.
fn own_logs(alloc: Global, entries: &[Entry], cores: usize) -> Result<Vec<Vec<Record>>, AllocError>
    ensures { IfOk result (λ logs. record_lists logs.items ≡ map (own_log entries.now) (range_with_len 0 cores)) }
{
    let mut logs = Vec::with_capacity(alloc, cores)?;
    for core in 0..cores {
        logs.push(own_log(alloc, entries, core as u64)?)?;
    }
    Ok(logs)
}

/// The records of a core, in the order in which they stand.
fn own_log(alloc: Global, entries: &[Entry], core: u64) -> Result<Vec<Record>, AllocError>
    ensures { IfOk result (λ log. log.items ≡ own_log entries.now core) }
{
    let mut log = Vec::new(alloc);
    for entry in entries {
        if entry.id.core.get() == core {
            log.push(entry.logged)?;
        }
    }
    Ok(log)
}
