//! Taking replies.

ghost use Rattle.std.specs.Prelude.{◌≡◌, Some, OnErr, true, false};
ghost use Rattle.private_cache.specs.Steps.{fill_line};
ghost use Rattle.line_stamps.specs.Messages.{addr_of};
ghost use Rattle.manager_slice.specs.Messages.{is_request};
ghost use Rattle.core_unit.specs.Core.{fits};
ghost use Rattle.core_unit.specs.Outcomes.{OutcomeLeads, recorded, fill_outcome, take_outcome, without_hand};
ghost use Rattle.core_unit.specs.Parts.{SameUnit};
ghost use Rattle.core_unit.specs.declared.entry.CoreEntry.TheVariants as entry;
ghost use Rattle.line_stamps.specs.declared.message.Reply.TheVariants.{Taken};

use super::entry::CoreEntry;
use super::fault::UnitFault;
use super::message::{fits, is_request};
use super::outcome::Outcome;
use super::transcript::make_room;
use super::unit::CoreUnit;
use line_stamps::{Message, Reply};

impl CoreUnit {
    /// Takes the reply to the message in hand, which is then no longer in hand: Busy with the
    /// recall, or Took. With Took, the reply to a request has filled its line, and a later turn
    /// performs the operation.
    ///
    /// The refusals, in this order: 14 BadReply if no message is in hand, or the reply isn't of a
    /// kind for which the message asks, or doesn't fit the line or the cache; 13 TranscriptFull,
    /// but not for a Busy, which makes no entry; 10 OutOfMemory. They change nothing.
    pub fn take(&mut self, reply: &Reply) -> Result<Outcome, UnitFault>
        ensures outcome { OutcomeLeads (take_outcome self.old reply.now) result self.old self.new }
        ensures same { SameUnit self.old self.new }
        ensures refused { OnErr result (self.new ≡ self.old) }
    {
        let Some(message) = &self.hand.as_ref().copied() else {
            return Err(UnitFault::BadReply);
        };
        match reply {
            Reply::Busy(recall) if is_request(message) => {
                self.hand = None;
                Ok(Outcome::Busy(*recall))
            }
            Reply::Taken if !is_request(message) => self.end_give_back(message),
            _ if fits(message, reply) => self.fill(message, reply),
            _ => Err(UnitFault::BadReply),
        }
    }

    // The slice took the line back: the give-back is no longer in hand.
    fn end_give_back(&mut self, message: &Message) -> Result<Outcome, UnitFault>
        requires hand { self.old.hand ≡ Some message.now }
        requires gives { is_request message.now ≡ false }
        ensures outcome { OutcomeLeads (recorded self.old (entry.Got message.now Taken) None Outcome.Took (without_hand self.old))
            result self.old self.new }
        ensures same { SameUnit self.old self.new }
        ensures refused { OnErr result (self.new ≡ self.old) }
    {
        let CoreUnit {
            hand,
            transcript,
            ..
        } = self;
        make_room(transcript)?;
        *hand = None;
        transcript.push(CoreEntry::Got(*message, Reply::Taken));
        Ok(Outcome::Took)
    }

    // A reply of a kind for which the request in hand asks fills its line.
    fn fill(&mut self, message: &Message, reply: &Reply) -> Result<Outcome, UnitFault>
        requires hand { self.old.hand ≡ Some message.now }
        requires kind { fits message.now reply.now ≡ true }
        ensures outcome { OutcomeLeads (fill_outcome self.old message.now reply.now
            (fill_line self.old.cache (addr_of message.now) reply.now)) result self.old self.new }
        ensures same { SameUnit self.old self.new }
        ensures refused { OnErr result (self.new ≡ self.old) }
    {
        let CoreUnit {
            cache,
            hand,
            transcript,
            ..
        } = self;
        let addr = message.addr();
        if let Err(refused) = make_room(transcript) {
            // A reply that doesn't fit is refused before lack of room.
            if cache.fits(addr, reply) {
                return Err(refused);
            }
            return Err(UnitFault::BadReply);
        }
        cache.fill(addr, reply)?;
        *hand = None;
        transcript.push(CoreEntry::Got(*message, *reply));
        Ok(Outcome::Took)
    }
}
