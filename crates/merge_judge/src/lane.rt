//! One log of a merge.

ghost use Rattle.std.specs.Prelude.{◌≡◌, ◌↔◌, ◌<◌, ◌≤◌, ◌∷◌, ◌++◌, ℕ, List, [], Option, Some, None, IfOk, true};
ghost use Rattle.mem_op.specs.Limits.{operation_limit};
ghost use Rattle.log_record.specs.declared.record.Record.{Record};
ghost use Rattle.core_check.specs.CoreOrder.{falls};
ghost use Rattle.log_file.specs.Answering.{IsFaultless};
ghost use Rattle.log_file.specs.Devices.{Failed};
ghost use Rattle.merge_judge.specs.inner.Following.{FollowsOn};
ghost use Rattle.merge_judge.specs.inner.Lanes.{IsLaneAt, IsSound, IsStage, first_to_fall};

use super::record_source::{Reading, RecordSource};
use log_file::LogFault;
use log_record::Record;
use mem_op::CoreId;
use std::alloc::{AllocError, Global};
use std::marker::Model;

/// How far one core's log is merged.
#[derive(Drop)]
pub(crate) struct Lane<L: Reading> {
    /// The log, read up to and with the front.
    log: L,
    /// The first unmerged record, if there is one.
    front: Option<Record>,
    /// How many records are merged.
    merged: usize,
    /// The first index at which `(ts, rank)` is less than at the index before.
    falls: Option<usize>,
    /// Why the log has no more records, if it isn't whole.
    fault: Option<LogFault>,
}

impl<L: Reading> Model for Lane<L> {
    ghost use Rattle.merge_judge.specs.LaneParts.{LaneParts};

    ghost Value = { LaneParts };

    ghost view = { λ a. record { log = L.kept a.log; front = a.front; merged = a.merged; falls = a.falls; fault = a.fault } };
}

/// Whether `(ts, rank)` of the later record is less than that of the earlier.
pub(crate) fn falls(earlier: &Option<Record>, later: &Option<Record>) -> bool
    ensures { result ≡ falls earlier.now later.now }
{
    match (earlier, later) {
        (Some(earlier), Some(later)) => core_check::falls(earlier, later),
        _ => false,
    }
}

/// The first index at which a log falls: the known one, or else this one if the later record falls.
fn first_to_fall(
    known: Option<usize>,
    index: usize,
    earlier: &Option<Record>,
    later: &Option<Record>,
) -> Option<usize>
    ensures { result ≡ first_to_fall known index earlier.now later.now }
{
    match known {
        Some(_) => known,
        None if falls(earlier, later) => Some(index),
        None => None,
    }
}

/// The next record of a log, if there is one, and why the log has no more, if it isn't whole.
#[inline(always)]
fn read<L: Reading, S: RecordSource<L>>(
    source: &mut S,
    log: &mut L,
) -> (Option<Record>, Option<LogFault>)
    requires { IsFaultless (L.kept log.old).log.reader }
    ensures stage { (core cores : ℕ) (first : Option (List ℕ)) (records : List Record)
        → FollowsOn core cores first (S.remaining source.old) (L.kept log.old) records
        → IsStage core cores first (S.remaining source.new) (L.kept log.new) records result.0 result.1 }
    ensures read { result.1 ≡ Some LogFault.Read → Failed (S.failed source.old) (S.failed source.new) }
    ensures quiet { ¬ (result.1 ≡ Some LogFault.Read) → S.failed source.new ≡ S.failed source.old }
{
    match source.next(log) {
        Ok(next) => (next, None),
        Err(fault) => (None, Some(fault)),
    }
}

impl<L: Reading> Lane<L> {
    /// The log of this core of `cores`, read up to its first record. Err if memory was refused.
    pub(crate) fn new<S: RecordSource<L>>(
        alloc: Global,
        core: CoreId,
        cores: u64,
        source: &mut S,
    ) -> Result<Lane<L>, AllocError>
        requires core { core < cores }
        requires cores { cores ≤ 64 }
        requires fits { S.fits core cores source.old }
        ensures { IfOk result (λ lane.
            IsLaneAt S.remaining S.failed core cores source.old source.new lane []) }
    {
        let mut log = source.open(alloc, core, cores)?;
        let (front, fault) = read(source, &mut log);
        Ok(Lane {
            log,
            front,
            merged: 0,
            falls: None,
            fault,
        })
    }

    /// The first unmerged record, if there is one.
    pub(crate) fn front(&self) -> &Option<Record>
        ensures { result.now ≡ self.now.front }
    {
        &self.front
    }

    /// How many records are merged.
    pub(crate) fn merged(&self) -> usize
        ensures { result ≡ self.now.merged }
    {
        self.merged
    }

    /// The first index at which `(ts, rank)` is less than at the index before.
    pub(crate) fn falls(&self) -> Option<usize>
        ensures { result ≡ self.now.falls }
    {
        self.falls
    }

    /// Why the log has no more records, if it isn't whole.
    pub(crate) fn fault(&self) -> Option<LogFault>
        ensures { result ≡ self.now.fault }
    {
        self.fault
    }

    /// Whether no fault was found in the log.
    pub(crate) fn is_clean(&self) -> bool
        ensures { (result ≡ true) ↔ IsSound self.now }
    {
        self.falls.is_none() && self.fault.is_none()
    }

    /// Merges the front, and reads the next record.
    pub(crate) fn advance<S: RecordSource<L>>(&mut self, source: &mut S)
        requires faultless { IsFaultless self.old.log.log.reader }
        requires room { self.old.merged < operation_limit }
        ensures advanced { (core cores : ℕ) (before : S) (merged : List Record) (front : Record)
            → self.old.front ≡ Some front
            → IsLaneAt S.remaining S.failed core cores before source.old self.old merged
            → IsLaneAt S.remaining S.failed core cores before source.new self.new (merged ++ front ∷ []) }
        ensures falls { self.new.falls ≡ None → self.old.falls ≡ None }
    {
        let (next, fault) = read(source, &mut self.log);
        self.merged += 1;
        self.falls = first_to_fall(self.falls, self.merged, &self.front, &next);
        self.front = next;
        self.fault = fault;
    }
}
