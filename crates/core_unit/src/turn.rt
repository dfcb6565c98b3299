//! Turns of a core.

ghost use Rattle.std.specs.Prelude.{◌≡◌, Some, None, IsSome, IsSomeAnd, Ok, OnErr};
ghost use Rattle.private_cache.specs.Answers.{hit_fault};
ghost use Rattle.private_cache.specs.Steps.{has_room, least_recently_used};
ghost use Rattle.core_unit.specs.Core.{next_of, next_request, op_addr, record_of, tries};
ghost use Rattle.core_unit.specs.Outcomes.{OutcomeLeads, miss_outcome, op_outcome, turn_outcome};
ghost use Rattle.core_unit.specs.Parts.{core_of, SameUnit};

use super::fault::UnitFault;
use super::operation::{after, op_addr, perform_at, record_of};
use super::outcome::Outcome;
use super::transcript::check_room;
use super::unit::CoreUnit;
use line_stamps::Message;
use log_record::Record;
use mem_op::{Op, OpId, OpIndex};
use private_cache::Read;

impl CoreUnit {
    /// Makes a turn. If the next operation hits, the core performs it: Performed with its id. On a
    /// miss with no room for the line, the victim goes: Dropped, or Sent with its give-back in hand.
    /// On any other miss the core takes the request in hand: Sent. Ended if the program has ended,
    /// and NoEffect while a message is in hand.
    ///
    /// The refusals, in this order: 13 TranscriptFull, 4 StampLimit or 5 RankLimit of the operation,
    /// 4 StampLimit of the self-increment that is due after it, 10 OutOfMemory. They change nothing.
    pub fn turn(&mut self) -> Result<Outcome, UnitFault>
        ensures outcome { OutcomeLeads (turn_outcome self.old) result self.old self.new }
        ensures barred { result ≡ Ok Outcome.NoEffect → IsSome self.old.hand }
        ensures same { SameUnit self.old self.new }
        ensures refused { OnErr result (self.new ≡ self.old) }
    {
        if self.hand.is_some() {
            return Ok(Outcome::NoEffect);
        }
        let Some(op) = &self.state.next_op(&self.program) else {
            return Ok(Outcome::Ended);
        };
        match &self.look(op) {
            Ok(
                Read::Hit {
                    value,
                    source,
                    stamp,
                    rank,
                },
            ) => {
                let made = record_of(op, *value, *source, *stamp, *rank);
                self.perform(op, &made)
            }
            Ok(Read::Miss(request)) => self.ask(op, request),
            Err(fault) => {
                check_room(&self.transcript)?;
                Err(UnitFault::Stamp(*fault))
            }
        }
    }

    // Performs the next operation, which hits.
    fn perform(&mut self, op: &Op, made: &Record) -> Result<Outcome, UnitFault>
        requires free { self.old.hand ≡ None }
        requires next { next_of (core_of self.old None) ≡ Some op.now }
        requires hits { IsSomeAnd (tries self.old.core (core_of self.old None) op.now)
            (λ hit. (made.now ≡ record_of op.now hit) × (hit_fault (Some hit) ≡ None)) }
        ensures outcome { OutcomeLeads (op_outcome self.old op.now (tries self.old.core (core_of self.old None) op.now))
            result self.old self.new }
        ensures same { SameUnit self.old self.new }
        ensures refused { OnErr result (self.new ≡ self.old) }
    {
        let CoreUnit {
            core,
            program,
            config,
            state,
            pts,
            r,
            cache,
            transcript,
            log,
            ..
        } = self;
        check_room(transcript)?;
        let (pts_after, r_after) = after(config, log.len() as u64 + 1, made.ts, made.rank)?;
        log.reserve(1)?;
        transcript.reserve()?;
        let id = OpId {
            core: *core,
            index: OpIndex::new(log.len() as u64).unwrap(),
        };
        perform_at(cache, op, id, made);
        state.answer(program, made.word_answered());
        *pts = pts_after;
        *r = r_after;
        log.push_reserved(*made);
        transcript.push_performed();
        Ok(Outcome::Performed(id))
    }

    // The next operation misses: takes its request in hand if there is room for the line, and
    // otherwise lets the victim go.
    fn ask(&mut self, op: &Op, request: &Message) -> Result<Outcome, UnitFault>
        requires free { self.old.hand ≡ None }
        requires next { next_of (core_of self.old None) ≡ Some op.now }
        requires misses { tries self.old.core (core_of self.old None) op.now ≡ None }
        requires asked { request.now ≡ next_request (core_of self.old None) op.now }
        ensures outcome { OutcomeLeads (miss_outcome self.old op.now (has_room self.old.cache (op_addr op.now))
            (least_recently_used self.old.cache)) result self.old self.new }
        ensures effect { ¬ (result ≡ Ok Outcome.NoEffect) }
        ensures same { SameUnit self.old self.new }
        ensures refused { OnErr result (self.new ≡ self.old) }
    {
        let Some(victim) = self.cache.victim(op_addr(op)) else {
            self.hand = Some(*request);
            return Ok(Outcome::Sent(*request));
        };
        let gone = &self.evict_line(victim)?;
        match gone {
            Outcome::Gave(message) => Ok(Outcome::Sent(*message)),
            _ => Ok(*gone),
        }
    }
}
