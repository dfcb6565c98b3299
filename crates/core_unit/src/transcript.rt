//! Transcripts that grow.

ghost use Rattle.std.specs.Prelude.{◌≡◌, ◌+◌, ◌<◌, ◌≤◌, ◌++◌, ◌∷◌, [], true, IfErr, IfOk, MatchResult, OnOk, length, slice_get, vec_len, vec_capacity};
ghost use Rattle.manager_slice.specs.Limits.{entry_limit};
ghost use Rattle.core_unit.specs.Outcomes.{IsLackOfRoom};
ghost use Rattle.core_unit.specs.declared.entry.CoreEntry.TheVariants as entry;
ghost use Rattle.core_unit.specs.declared.fault.UnitFault.TheVariants.{TranscriptFull};

use super::entry::CoreEntry;
use super::fault::UnitFault;
use std::alloc::{AllocError, Global};
use std::marker::Model;

/// The most entries of a transcript.
const ENTRY_LIMIT: usize = 1_048_576;

/// How many entries an operation makes if another core wants its line too: the core takes the
/// line, performs the operation, gives the line back, and takes the reply to that.
const ENTRIES_PER_OPERATION: usize = 4;

/// An entry as a transcript keeps it. It takes 8 bytes, where an entry with a message and its reply takes 104.
#[derive(Clone, Copy, Debug, PartialEq, Eq)]
enum KeptEntry {
    /// The core performed the next operation.
    Performed,
    /// The entry at this place among the others.
    Other(u32),
}

/// What a core did, in order: at most 1,048,576 entries. Most are operations, which take few bytes.
#[derive(Drop)]
pub struct Transcript {
    kept: Vec<KeptEntry>,
    /// The entries that aren't operations.
    others: Vec<CoreEntry>,
}

impl Model for Transcript {
    ghost use Rattle.std.specs.Prelude.{nat_lt, ◌&&◌, vec_len, vec_capacity};
    ghost use Rattle.core_unit.specs.Transcript.{IsTranscript, TranscriptParts, entries_of};

    ghost Value = { TranscriptParts };

    ghost view = { λ t. record {
      entries = entries_of t.others.items t.kept.items;
      has_room = nat_lt (vec_len t.kept) (vec_capacity t.kept)
          && nat_lt (vec_len t.others) (vec_capacity t.others);
    } };

    ghost invariant = { λ t. IsTranscript t.others.items t.kept.items };
}

impl Transcript {
    /// An empty transcript, with room for this many operations whose lines other cores want too. Err if
    /// memory was refused.
    pub(crate) fn with_room(alloc: Global, operations: usize) -> Result<Transcript, AllocError>
        ensures { IfOk result (λ t. t.entries ≡ []) }
    {
        let entries = operations.saturating_mul(ENTRIES_PER_OPERATION);
        let kept = Vec::with_capacity(alloc, entries)?;
        let others = Vec::with_capacity(alloc, entries.saturating_sub(operations))?;
        Ok(Transcript { kept, others })
    }

    /// How many entries there are.
    pub fn len(&self) -> usize
        ensures len { result ≡ length self.now.entries }
        ensures limit { length self.now.entries ≤ entry_limit }
    {
        self.kept.len()
    }

    /// The entry at a place, from 0; none after the last.
    pub fn get(&self, place: usize) -> Option<CoreEntry>
        ensures { result ≡ slice_get self.now.entries place }
    {
        match self.kept.get(place)? {
            KeptEntry::Performed => Some(CoreEntry::Performed),
            KeptEntry::Other(other) => self.others.get(*other as usize).copied(),
        }
    }

    /// Makes room for one more entry. Err if memory was refused.
    pub(crate) fn reserve(&mut self) -> Result<(), AllocError>
        ensures entries { self.new.entries ≡ self.old.entries }
        ensures room { OnOk result (self.new.has_room ≡ true) }
    {
        self.kept.reserve(1)?;
        self.others.reserve(1)?;
        Ok(())
    }

    /// Adds an operation.
    pub(crate) fn push_performed(&mut self)
        requires room { self.old.has_room ≡ true }
        requires fits { length self.old.entries < entry_limit }
        ensures { self.new.entries ≡ self.old.entries ++ entry.Performed ∷ [] }
    {
        self.kept.push_reserved(KeptEntry::Performed);
    }

    /// Adds an entry that isn't an operation.
    pub(crate) fn push(&mut self, entry: CoreEntry)
        requires room { self.old.has_room ≡ true }
        requires fits { length self.old.entries < entry_limit }
        ensures { self.new.entries ≡ self.old.entries ++ entry ∷ [] }
    {
        let place = self.others.len() as u32;
        push_other(&mut self.others, entry);
        self.kept.push_reserved(KeptEntry::Other(place));
    }
}

// Adds an entry. Each push spells the entry out, since the prover can't follow one that is passed on whole.
fn push_other(others: &mut Vec<CoreEntry>, entry: CoreEntry)
    requires { vec_len others.old < vec_capacity others.old }
    ensures { others.new.items ≡ others.old.items ++ entry ∷ [] }
{
    match entry {
        CoreEntry::Performed => others.push_reserved(CoreEntry::Performed),
        CoreEntry::Dropped(addr) => others.push_reserved(CoreEntry::Dropped(addr)),
        CoreEntry::Gave(message) => others.push_reserved(CoreEntry::Gave(message)),
        CoreEntry::Got(message, reply) => others.push_reserved(CoreEntry::Got(message, reply)),
        CoreEntry::Bumped => others.push_reserved(CoreEntry::Bumped),
    }
}

/// 13 TranscriptFull if one more entry doesn't fit.
pub(crate) fn check_room(transcript: &Transcript) -> Result<(), UnitFault>
    ensures { MatchResult result
        (λ _. length transcript.now.entries < entry_limit)
        (λ fault. (fault ≡ TranscriptFull) × (entry_limit ≤ length transcript.now.entries)) }
{
    if transcript.len() >= ENTRY_LIMIT {
        return Err(UnitFault::TranscriptFull);
    }
    Ok(())
}

/// Makes room for one more entry: 13 TranscriptFull if it doesn't fit, otherwise 10 OutOfMemory if
/// memory was refused. A refusal changes nothing.
pub(crate) fn make_room(transcript: &mut Transcript) -> Result<(), UnitFault>
    ensures entries { transcript.new.entries ≡ transcript.old.entries }
    ensures room { OnOk result (transcript.new.has_room ≡ true) }
    ensures fits { OnOk result (length transcript.old.entries < entry_limit) }
    ensures refused { IfErr result (λ fault. IsLackOfRoom transcript.old.entries fault) }
{
    check_room(transcript)?;
    transcript.reserve()?;
    Ok(())
}
