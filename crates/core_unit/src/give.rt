//! Recalls and evictions.

ghost use Rattle.std.specs.Prelude.{◌≡◌, Some, None, Ok, IsNone, OnErr};
ghost use Rattle.private_cache.specs.Steps.{line_at};
ghost use Rattle.private_cache.specs.Table.{recalled};
ghost use Rattle.core_unit.specs.Outcomes.{IsLackOfRoom, OutcomeLeads, eviction, evict_outcome, give_outcome, recall_outcome};
ghost use Rattle.core_unit.specs.Parts.{SameUnit, UnitParts};

use super::entry::CoreEntry;
use super::fault::UnitFault;
use super::outcome::Outcome;
use super::transcript::make_room;
use super::unit::CoreUnit;
use line_stamps::{Message, Recall};
use mem_op::Addr;
use private_cache::{Evicted, PrivateCache};

impl CoreUnit {
    /// Gives the recall's line back if the core has it as Exclusive: Gave with the give-back, which
    /// is then in hand. NoEffect if the core doesn't have it so, or while a message is in hand. It
    /// doesn't look at the recall's owner.
    ///
    /// The refusals, in this order: 13 TranscriptFull, 4 StampLimit, 10 OutOfMemory. They change
    /// nothing.
    pub fn recall(&mut self, recall: &Recall) -> Result<Outcome, UnitFault>
        ensures outcome { OutcomeLeads (recall_outcome self.old recall.now) result self.old self.new }
        ensures same { SameUnit self.old self.new }
        ensures refused { OnErr result (self.new ≡ self.old) }
    {
        if self.hand.is_some() {
            return Ok(Outcome::NoEffect);
        }
        let CoreUnit {
            config,
            cache,
            hand,
            transcript,
            ..
        } = self;
        if let Err(refused) = make_room(transcript) {
            return recall_without_room(cache, recall, config.lease(), refused);
        }
        let Some(message) = &cache.recall(recall, config.lease())? else {
            return Ok(Outcome::NoEffect);
        };
        *hand = Some(*message);
        transcript.push(CoreEntry::Gave(*message));
        Ok(Outcome::Gave(*message))
    }

    /// Evicts the line of an address: Dropped if it was Shared, Gave with the give-back in hand if
    /// it was Exclusive. NoEffect if the core doesn't have it, or while a message is in hand.
    ///
    /// The refusals, in this order: 13 TranscriptFull, 10 OutOfMemory. They change nothing.
    pub fn evict(&mut self, addr: Addr) -> Result<Outcome, UnitFault>
        ensures outcome { OutcomeLeads (evict_outcome self.old addr) result self.old self.new }
        ensures same { SameUnit self.old self.new }
        ensures refused { OnErr result (self.new ≡ self.old) }
    {
        if self.hand.is_some() {
            return Ok(Outcome::NoEffect);
        }
        self.evict_line(addr)
    }

    /// Evicts the line of an address. No message is in hand.
    pub(crate) fn evict_line(&mut self, addr: Addr) -> Result<Outcome, UnitFault>
        requires { self.old.hand ≡ None }
        ensures outcome { OutcomeLeads (eviction self.old (λ m. Outcome.Gave m) addr (line_at self.old.cache addr))
            result self.old self.new }
        ensures effect { result ≡ Ok Outcome.NoEffect → IsNone (line_at self.old.cache addr) }
        ensures same { SameUnit self.old self.new }
        ensures refused { OnErr result (self.new ≡ self.old) }
    {
        let CoreUnit {
            cache,
            hand,
            transcript,
            ..
        } = self;
        if cache.line(addr).is_none() {
            return Ok(Outcome::NoEffect);
        }
        make_room(transcript)?;
        match &cache.evict(addr) {
            Evicted::GiveBack(message) => {
                *hand = Some(*message);
                transcript.push(CoreEntry::Gave(*message));
                Ok(Outcome::Gave(*message))
            }
            Evicted::Dropped => {
                transcript.push(CoreEntry::Dropped(addr));
                Ok(Outcome::Dropped(addr))
            }
            Evicted::Nothing => Ok(Outcome::NoEffect),
        }
    }
}

// The outcome of a recall when there is no room for one more entry. It may have no effect all the
// same. Otherwise 13 comes first, then its own fault, then lack of memory.
fn recall_without_room(
    cache: &PrivateCache,
    recall: &Recall,
    lease: u64,
    refused: UnitFault,
) -> Result<Outcome, UnitFault>
    ensures { (p : UnitParts) → IsLackOfRoom p.transcript refused
        → OutcomeLeads (give_outcome p recall.now (recalled recall.now lease (line_at cache.now recall.now.addr))) result p p }
{
    match cache.peek_recall(recall, lease) {
        Ok(None) => Ok(Outcome::NoEffect),
        Ok(Some(_)) => Err(refused),
        Err(fault) => match refused {
            UnitFault::TranscriptFull => Err(refused),
            _ => Err(UnitFault::Stamp(fault)),
        },
    }
}
