//! The verdict on a set, once its logs are merged to their ends.

ghost use Rattle.std.specs.Prelude.{◌≡◌, ◌<◌, ℕ, List, [], None, Some, Ok, IfErr, MatchOption, length};
ghost use Rattle.verdict.specs.Counts.{IsBadCount};
ghost use Rattle.verdict.specs.declared.answer.Verdict.TheVariants.{Yes};
ghost use Rattle.log_record.specs.declared.record.Record.{Record};
ghost use Rattle.log_record.specs.declared.record.Entry.{Entry};
ghost use Rattle.merge_judge.specs.inner.Lanes.{AllEnded, NoFalls};
ghost use Rattle.merge_judge.specs.inner.Merging.{HasMerged, IsMerging};
ghost use Rattle.merge_judge.specs.inner.FinalVerdict.{IsFirstFall, IsFirstFaulty, NoneFaulty, NoneFalls, IsFinalVerdict};
ghost use Rattle.merge_judge.specs.inner.Memory.{first_along};

use super::lane::Lane;
use super::merge::Merge;
use super::record_source::{Reading, RecordSource};
use address_check::AddressFault;
use log_file::SetFault;
use mem_op::{CoreId, OpId, OpIndex};
use verdict::{Fault, JudgeFault, Rule, Verdict};

/// The fault of the least file that has one.
fn first_faulty<L: Reading>(lanes: &[Lane<L>]) -> Option<SetFault>
    ensures { MatchOption result (NoneFaulty lanes.now (length lanes.now)) (IsFirstFaulty lanes.now) }
{
    for (file, lane) in lanes.iter().enumerate() {
        if let Some(fault) = lane.fault() {
            return Some(SetFault { file, fault });
        }
    }
    None
}

/// The least core whose log falls, and the first index at which it does.
fn first_fall<L: Reading>(lanes: &[Lane<L>]) -> Option<(usize, usize)>
    ensures { MatchOption result (NoneFalls lanes.now (length lanes.now)) (IsFirstFall lanes.now) }
{
    for (core, lane) in lanes.iter().enumerate() {
        if let Some(index) = lane.falls() {
            return Some((core, index));
        }
    }
    None
}

impl<L: Reading> Merge<L> {
    /// The verdict on logs that are merged to their ends, or the fault of the least log that has one.
    /// `address` is the first fault along the order of keys, if no core's log falls, and `count` the
    /// number of records.
    pub(crate) fn final_verdict<S: RecordSource<L>>(
        &self,
        readers: &[S],
        address: Option<AddressFault>,
        count: usize,
    ) -> Result<Verdict, JudgeFault>
        requires merged { IsMerging S.remaining S.failed readers.now self.now }
        requires ended { AllEnded self.now.lanes.items }
        ensures yes { (n : ℕ) → result ≡ Ok (Yes n) → (address ≡ None) × (n ≡ count) }
        ensures fault { IfErr result (λ fault. ¬ IsBadCount fault) }
        ensures answer { (before : List S) (merged : List (List Record)) (done : List Entry)
            → HasMerged S.remaining S.failed before readers.now self.now merged done
            → (NoFalls self.now.lanes.items → address ≡ first_along [] done) → count ≡ length done
            → IsFinalVerdict S.remaining S.failed before readers.now self.now.lanes.items merged result }
    {
        if let Some(found) = first_faulty(&self.lanes) {
            return Err(JudgeFault::from(found));
        }
        if let Some((core, index)) = first_fall(&self.lanes) {
            return Ok(Verdict::No(Fault {
                id: OpId {
                    core: CoreId::at(core),
                    index: OpIndex::at(index),
                },
                rule: Rule::CoreOrder,
            }));
        }
        match address {
            Some(fault) => Ok(Verdict::No(Fault::from(fault))),
            None => Ok(Verdict::Yes(count)),
        }
    }
}
