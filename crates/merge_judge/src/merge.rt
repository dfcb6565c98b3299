//! The logs of a set, merged in the order of their keys.

ghost use Rattle.std.specs.Prelude.{◌≡◌, ◌<◌, ◌≤◌, ◌∷◌, ◌++◌, ℕ, List, [], Some, None, IfOk, MatchOption, length, true};
ghost use Rattle.log_record.specs.declared.record.Record.{Record};
ghost use Rattle.log_record.specs.declared.record.Entry.{Entry};
ghost use Rattle.merge_judge.specs.inner.Lanes.{AllEnded, IsFirstOf, IsTaken, add};
ghost use Rattle.merge_judge.specs.inner.Merging.{Fit, HasMerged, IsMerging, none_of};

use super::lane::{Lane, falls};
use super::record_source::{Reading, RecordSource};
use log_record::{Entry, Record};
use mem_op::{CoreId, OpId, OpIndex};
use std::alloc::{AllocError, Global};

/// How far the logs of a set are merged.
#[derive(Drop)]
pub(crate) struct Merge<L: Reading> {
    /// The logs, one for each core.
    pub(crate) lanes: Vec<Lane<L>>,
    /// Whether no log has a fault so far.
    pub(crate) clean: bool,
}

/// The core whose front is first in the order of keys; any core if all logs have ended.
fn first<L: Reading>(lanes: &[Lane<L>]) -> usize
    requires { 0 < length lanes.now }
    ensures within { result < length lanes.now }
    ensures first { IsFirstOf (length lanes.now) result lanes.now }
{
    let mut first = 0;
    for core in 1..lanes.len() {
        let least = lanes[first].front();
        if least.is_none() || falls(least, lanes[core].front()) {
            first = core;
        }
    }
    first
}

impl<L: Reading> Merge<L> {
    /// The logs of a set, each read up to its first record. Err if memory was refused.
    pub(crate) fn new<S: RecordSource<L>>(
        alloc: Global,
        readers: &mut [S],
    ) -> Result<Merge<L>, AllocError>
        requires some { 0 < length readers.old }
        requires few { length readers.old ≤ 64 }
        requires fit { Fit S.fits readers.old }
        ensures { IfOk result (λ merge. HasMerged S.remaining S.failed readers.old readers.new merge
            (none_of readers.old) []) }
    {
        let cores = readers.len() as u64;
        let mut lanes = Vec::new(alloc);
        let mut clean = true;
        for (core, reader) in readers.iter_mut().enumerate() {
            let lane = Lane::new(alloc, CoreId::at(core), cores, reader)?;
            clean &= lane.is_clean();
            lanes.push(lane)?;
        }
        Ok(Merge { lanes, clean })
    }

    /// Takes the front with the least key, and reads the record after it; None if all logs have ended.
    pub(crate) fn take_first<S: RecordSource<L>>(&mut self, readers: &mut [S]) -> Option<Entry>
        requires { IsMerging S.remaining S.failed readers.old self.old }
        ensures clean { self.new.clean ≡ true → self.old.clean ≡ true }
        ensures taken { MatchOption result (self.new.lanes.items ≡ self.old.lanes.items)
            (λ entry. IsTaken entry.id.core entry.logged self.old.lanes.items self.new.lanes.items) }
        ensures merged { (before : List S) (merged : List (List Record)) (done : List Entry)
            → HasMerged S.remaining S.failed before readers.old self.old merged done
            → MatchOption result
            (AllEnded self.new.lanes.items
            × HasMerged S.remaining S.failed before readers.new self.new merged done)
            (λ entry. HasMerged S.remaining S.failed before readers.new self.new
            (add merged entry.id.core entry.logged) (done ++ entry ∷ [])) }
    {
        let core = first(&self.lanes);
        let lane = &mut self.lanes[core];
        let Some(front) = lane.front() else {
            return None;
        };
        let (place, index) = (CoreId::at(core), OpIndex::at(lane.merged()));
        let entry = Entry {
            logged: *front,
            id: OpId { core: place, index },
        };
        lane.advance(&mut readers[core]);
        self.clean &= lane.is_clean();
        Some(entry)
    }
}
