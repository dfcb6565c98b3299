//! Self-increments: a core adds 1 to its own stamp.

ghost use Rattle.std.specs.Prelude.{◌≡◌, OnErr};
ghost use Rattle.core_unit.specs.Outcomes.{OutcomeLeads, increment_outcome};
ghost use Rattle.core_unit.specs.Parts.{SameUnit};

use super::entry::CoreEntry;
use super::fault::UnitFault;
use super::outcome::Outcome;
use super::transcript::check_room;
use super::unit::CoreUnit;
use lease_rule::self_increment;
use line_stamps::Rank;

impl CoreUnit {
    /// Adds 1 to the core's stamp: Bumped, or NoEffect while a message is in hand.
    ///
    /// The refusals, in this order: 13 TranscriptFull, 4 StampLimit, 10 OutOfMemory. They change
    /// nothing.
    pub fn increment(&mut self) -> Result<Outcome, UnitFault>
        ensures outcome { OutcomeLeads (increment_outcome self.old) result self.old self.new }
        ensures same { SameUnit self.old self.new }
        ensures refused { OnErr result (self.new ≡ self.old) }
    {
        let CoreUnit {
            pts,
            r,
            hand,
            transcript,
            ..
        } = self;
        if hand.is_some() {
            return Ok(Outcome::NoEffect);
        }
        check_room(transcript)?;
        let after = self_increment(*pts)?;
        transcript.reserve()?;
        *pts = after;
        *r = Rank::ZERO;
        transcript.push(CoreEntry::Bumped);
        Ok(Outcome::Bumped)
    }
}
