//! The log of a core whose records are in memory.

ghost use Rattle.std.specs.Prelude.{◌≡◌, ◌<◌, IfSome, length, map, slice_get, false};
ghost use Rattle.log_record.specs.declared.format.Format.TheVariants.{Two};
ghost use Rattle.log_record.specs.declared.record.Record.{Record};
ghost use Rattle.log_record.specs.Line.{FitsIn};
ghost use Rattle.merge_judge.specs.Records.{AreOfLog};
ghost use Rattle.merge_judge.specs.inner.Given.{text_left};

use super::record_source::{Reading, RecordSource};
use log_file::LogFault;
use log_record::Record;
use mem_op::CoreId;
use std::alloc::{AllocError, Global};
use std::marker::Model;

/// A type that has the numbers of a record.
pub trait Recorded: Copy {
    /// The record.
    ghost recorded: { Self → Record };

    /// The record, if the numbers are in range.
    fn to_record(&self) -> Record
        requires { FitsIn Two (recorded self.now) }
        ensures { result ≡ recorded self.now };
}

/// The source of a core's log with these records. It hands them all to the log at once.
#[derive(Drop)]
pub struct RecordSlice<'a, T: Recorded> {
    core: CoreId,
    cores: u64,
    records: &'a [T],
    /// Whether it handed them over.
    given: bool,
}

impl<'a, T: Recorded> Model for RecordSlice<'a, T> {
    ghost use Rattle.std.specs.Prelude.{map};
    ghost use Rattle.merge_judge.specs.Records.{GivenLog};

    ghost Value = { GivenLog };

    ghost view = { λ a. record { core = a.core; cores = a.cores; records = map T.recorded a.records.now; given = a.given } };
}

impl<'a, T: Recorded> RecordSlice<'a, T> {
    /// The source of the log of this core of `cores`.
    pub fn new(core: CoreId, cores: u64, records: &'a [T]) -> RecordSlice<'a, T>
        ensures { result ≡ record { core = core; cores = cores; records = map T.recorded records.entry.now; given = false } }
    {
        RecordSlice {
            core,
            cores,
            records,
            given: false,
        }
    }
}

/// The log of a core, and how many of its records it gave.
#[derive(Drop)]
pub(crate) struct OpenSlice<'a, T: Recorded> {
    core: CoreId,
    cores: u64,
    records: &'a [T],
    given: usize,
}

impl<'a, T: Recorded> Model for OpenSlice<'a, T> {
    ghost use Rattle.std.specs.Prelude.{◌≤◌, length, map};
    ghost use Rattle.merge_judge.specs.LaneParts.{KeptLog};
    ghost use Rattle.merge_judge.specs.inner.Given.{IsOfCore, kept_at};

    ghost Value = { KeptLog };

    ghost view = { λ a. kept_at a.core a.cores (map T.recorded a.records.now) a.given };

    ghost invariant = { λ a. IsOfCore a.core a.cores (map T.recorded a.records.now) × (a.given ≤ length a.records.now) };
}

/// The item at an index, if there is one.
fn item_at<T: Copy>(items: &[T], index: usize) -> Option<T>
    ensures item { result ≡ slice_get items.now index }
    ensures within { IfSome result (λ _. index < length items.now) }
{
    items.get(index).copied()
}

impl<T: Recorded> Reading for OpenSlice<'_, T> {
    ghost kept = { λ log. log };
}

impl<'a, T: Recorded> RecordSource<OpenSlice<'a, T>> for RecordSlice<'a, T> {
    ghost use Rattle.std.specs.Prelude.{Some};

    ghost remaining = { λ source. Some (text_left source.core source.cores source.records source.given) };

    ghost failed = { λ _. 0 };

    ghost fits = { λ core cores source. (source.core ≡ core) × (source.cores ≡ cores)
        × AreOfLog source.records × (source.given ≡ false) };

    fn open(
        &mut self,
        _alloc: Global,
        core: CoreId,
        cores: u64,
    ) -> Result<OpenSlice<'a, T>, AllocError> {
        self.given = true;
        Ok(OpenSlice {
            core,
            cores,
            records: self.records,
            given: 0,
        })
    }

    fn next(&mut self, log: &mut OpenSlice<'a, T>) -> Result<Option<Record>, LogFault> {
        let Some(item) = item_at(log.records, log.given) else {
            return Ok(None);
        };
        log.given += 1;
        Ok(Some(item.to_record()))
    }
}
