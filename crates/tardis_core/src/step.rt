//! One event. When the caller knows which event it is, little is left of a step, so the step and its calls for a core are
//! inlined.

ghost use Rattle.std.specs.Prelude.{◌≡◌, true, false, Some, IfErr};
ghost use Rattle.core_machine.specs.Machine.{core_event, is_alone};
ghost use Rattle.core_machine.specs.Parts.{programs_of, world};
ghost use Rattle.core_machine.specs.Steps.{OutcomeLeads, MachineLeads, alone, spill_told, step_outcome};
ghost use Rattle.machine_laws.specs.Laws.{GetYes, GetYesBy, HaveEnded, logs_of};
ghost use Rattle.machine_laws.specs.Refusals.{is_protocol_fault};

use super::keeping::keep;
use super::machine::{Core, Machine};
use super::seat::{asking, perform};
use core_machine::{CoreFault, Event};
use core_unit::Outcome;
use machine_laws::refusals::never_refused;
use machine_laws::verdicts::{ended_runs_get_yes, runs_get_yes};
use mem_op::{Addr, CoreId};

impl Core {
    /// Performs an event, and answers its outcome, or NoEffect if it doesn't apply, and then nothing
    /// changes. It doesn't apply if the core isn't there, a message in hand bars it, or Serve finds
    /// no message without a reply, Take no reply, Recall no Exclusive line, Evict no line or Spill
    /// no Shared line.
    ///
    /// The refusals, in this order: of a core, 13 TranscriptFull if an entry is due and doesn't fit, 4
    /// StampLimit or 5 RankLimit of the operation or the recall, 4 StampLimit of the self-increment,
    /// 10 OutOfMemory; of a slice, 4 StampLimit, 12 HistoryFull, 10 OutOfMemory. They change nothing.
    ///
    /// Before and after each event, the logs that the cores have made get Yes: their operations
    /// are sequentially consistent. If every program has ended, they get Yes against the programs.
    #[inline(always)]
    pub fn step(&mut self, event: Event) -> Result<Outcome, CoreFault>
        // The event leads to the new state by the machine's relation, and NoEffect comes exactly if
        // the event doesn't apply.
        ensures leads { MachineLeads event self.old result self.new }

        // The orders of use and of service settle which line goes. Each refusal comes exactly when
        // it is due; 10 comes only instead of a step. For Serve and Spill it is the slice's,
        // otherwise the core's.
        ensures outcome { OutcomeLeads (step_outcome self.old event) result self.old self.new }

        // The logs so far get Yes.
        ensures before { GetYes (logs_of (world self.old)) }
        ensures after { GetYes (logs_of (world self.new)) }
        // If every program has ended then, they get it against the programs too.
        ensures ended { HaveEnded (world self.new) → GetYesBy (programs_of self.old) (logs_of (world self.new)) }

        // It refuses no event with 14 BadReply or 11 NotOwner.
        ensures passes { IfErr result (λ fault. is_protocol_fault fault ≡ false) }
    {
        runs_get_yes();
        ended_runs_get_yes();
        never_refused();
        self.machine.keeps();
        self.apply(event)
    }

    // Makes an event, for which it needs no law, and keeps it if the machine keeps events.
    #[inline(always)]
    fn apply(&mut self, event: Event) -> Result<Outcome, CoreFault>
        ensures leads { MachineLeads event self.old result self.new }
        ensures outcome { OutcomeLeads (step_outcome self.old event) result self.old self.new }
    {
        let Core { machine, events } = self;
        let outcome = machine.make(event)?;
        keep(events, &event);
        Ok(outcome)
    }
}

impl Machine {
    /// Makes an event.
    #[inline(always)]
    fn make(&mut self, event: Event) -> Result<Outcome, CoreFault>
        ensures leads { MachineLeads event self.old result self.new }
        ensures outcome { OutcomeLeads (step_outcome self.old event) result self.old self.new }
    {
        match &event {
            Event::Serve(core) => self.serve(*core),
            Event::Spill(addr) => self.spill(*addr),
            Event::Turn(core)
            | Event::Take(core)
            | Event::Recall(core, _)
            | Event::Evict(core, _)
            | Event::Increment(core) => self.alone(*core, &event),
        }
    }

    // Makes an event of a core alone.
    #[inline(always)]
    fn alone(&mut self, core: CoreId, event: &Event) -> Result<Outcome, CoreFault>
        requires own { core_event event.now ≡ Some core }
        requires alone { is_alone event.now ≡ true }
        ensures outcome { OutcomeLeads (alone self.old core event.now) result self.old self.new }
        ensures leads { MachineLeads event.now self.old result self.new }
    {
        let Machine { units, kept, .. } = self;
        let at = core.get() as usize;
        let Some(kept) = kept.get_mut(at) else {
            return Ok(Outcome::NoEffect);
        };
        let unit = &mut units[at];
        Ok(perform(unit, kept, event)?)
    }

    // A slice serves the core's message in hand.
    #[inline(always)]
    fn serve(&mut self, core: CoreId) -> Result<Outcome, CoreFault>
        ensures outcome { OutcomeLeads (step_outcome self.old (Event.Serve core)) result self.old self.new }
        ensures leads { MachineLeads (Event.Serve core) self.old result self.new }
    {
        let Machine {
            config,
            units,
            kept,
            slices,
        } = self;
        let at = core.get() as usize;
        let Some(kept) = kept.get_mut(at) else {
            return Ok(Outcome::NoEffect);
        };
        let unit = &units[at];
        let Some(message) = asking(unit, kept) else {
            return Ok(Outcome::NoEffect);
        };
        let slice = &mut slices[config.slice_of(message.addr())];
        let reply = &slice.handle(core, message)?;
        *kept = Some(*reply);
        Ok(Outcome::Served(*reply))
    }

    // A slice evicts the line of an address, if it is Shared.
    fn spill(&mut self, addr: Addr) -> Result<Outcome, CoreFault>
        ensures outcome { OutcomeLeads (step_outcome self.old (Event.Spill addr)) result self.old self.new }
        ensures leads { MachineLeads (Event.Spill addr) self.old result self.new }
    {
        let Machine { config, slices, .. } = self;
        let slice = &mut slices[config.slice_of(addr)];
        let went = slice.evict(addr)?;
        Ok(spill_told(went))
    }
}

// The outcome of a spill, by whether a line went to memory.
fn spill_told(went: bool) -> Outcome
    ensures { result ≡ spill_told went }
{
    if went {
        Outcome::Spilled
    } else {
        Outcome::NoEffect
    }
}
