//! The work of a core's thread.

ghost use Rattle.std.specs.Prelude.{◌≡◌, None, IfOk, IsOk, IsSome, OnOk};
ghost use Rattle.core_unit.specs.Parts.{SameUnit};
ghost use Rattle.machine.specs.declared.core_thread.Turned.TheVariants.{Performed};
ghost use Rattle.machine.specs.inner.Giving.{HasGivenAll, HasTaken};

use super::ends::ThreadEnd;
use super::gate::StartGate;
use super::pace::{Go, Pace};
use audit::Cause;
use core_unit::{CoreUnit, Outcome};
use inbox::Inbox;
use line_stamps::{Message, Recall, Reply};
use mem_op::CoreId;
use slice_bank::Port;
use std::hint::spin_loop;
use std::sync::Wait;
use std::thread;

/// How often a core looks into its inbox after a Busy, before it asks again. So the owner of the line finds the lock of the slice
/// free, and two cores that wait for each other's lines find each other's recalls. After a recall it asks at once.
const INBOX_LOOKS_AFTER_BUSY: u32 = 64;

/// After every so many turns for an operation, a core that got Busy lets other threads have its processor, since the owner of the
/// line may wait for one.
const BUSY_TURNS_BETWEEN_YIELDS: u64 = 2;

// The result of a turn.
#[derive(Clone, Copy, Debug, PartialEq, Eq)]
enum Turned {
    // The turn performed an operation.
    Performed,
    // It filled a line, and the next turn may perform its operation.
    Filled,
    // The slice answered its request with Busy.
    Refused,
    // None of these.
    Waits,
}

/// Waits at the gate, and runs a core. If a thread was refused, the unit comes back as it is.
pub(crate) fn run_behind<T: Port + Drop, P: Pace, R: Wait>(
    rt: &R,
    gate: &StartGate,
    unit: CoreUnit,
    port: T,
    inboxes: &[Inbox],
    pace: &P,
) -> ThreadEnd
    ensures { SameUnit unit result.unit }
{
    if !gate.pass(rt) {
        return ThreadEnd { unit, fault: None };
    }
    run_core(rt, unit, port, inboxes, pace)
}

// Runs a core's program to its end or to the first fault, and then gives the core's Exclusive lines back.
fn run_core<T: Port + Drop, P: Pace, R: Wait>(
    rt: &R,
    unit: CoreUnit,
    port: T,
    inboxes: &[Inbox],
    pace: &P,
) -> ThreadEnd
    ensures same { SameUnit unit result.unit }
    ensures given { result.fault ≡ None → unit.hand ≡ None → HasGivenAll result.unit }
{
    let mut unit = unit;
    let mut port = port;
    let ran = run_program(rt, &mut unit, &mut port, inboxes, pace);
    let given = give_lines_back(&mut unit, &mut port);
    ThreadEnd {
        unit,
        fault: ran.and(given).err(),
    }
}

// Performs the operations of the core's program up to its end.
fn run_program<T: Port, P: Pace, R: Wait>(
    rt: &R,
    unit: &mut CoreUnit,
    port: &mut T,
    inboxes: &[Inbox],
    pace: &P,
) -> Result<(), Cause>
    ensures same { SameUnit unit.old unit.new }
    ensures free { OnOk result (unit.old.hand ≡ None → unit.new.hand ≡ None) }
{
    // Jumps only skip, so there are at most as many operations as instructions.
    let most = unit.program().instructions().len();
    for _ in 0..most {
        if has_ended(unit) {
            break;
        }
        perform(rt, unit, port, inboxes, pace)?;
    }
    Ok(())
}

// Whether the core's program has ended.
fn has_ended(unit: &CoreUnit) -> bool {
    unit.program_state().position() >= unit.program().instructions().len()
}

// Makes turns until the core has performed one more operation: 31 if the pace says Stop, 30 if as many turns as the
// configuration allows bring none. Before each turn it asks the pace, and then takes at most one recall, and none after a
// turn that filled a line.
fn perform<T: Port, P: Pace, R: Wait>(
    rt: &R,
    unit: &mut CoreUnit,
    port: &mut T,
    inboxes: &[Inbox],
    pace: &P,
) -> Result<(), Cause>
    ensures same { SameUnit unit.old unit.new }
    ensures free { OnOk result (unit.new.hand ≡ None) }
{
    let mut looks = 1;
    for turn in 0..unit.config().turns() {
        if pace.before(unit.core(), unit.log().len(), turn) == Go::Stop {
            return Err(Cause::Stopped);
        }
        answer_recall(rt, unit, port, inboxes, looks)?;
        match make_turn(rt, unit, port, inboxes)? {
            Turned::Performed => return Ok(()),
            Turned::Filled => looks = 0,
            Turned::Waits => looks = 1,
            Turned::Refused => {
                looks = INBOX_LOOKS_AFTER_BUSY;
                if turn % BUSY_TURNS_BETWEEN_YIELDS == BUSY_TURNS_BETWEEN_YIELDS - 1 {
                    thread::yield_now();
                }
            }
        }
    }
    Err(Cause::GaveUp)
}

// Takes a recall from the core's inbox, if one is there within so many looks, and gives its line back.
fn answer_recall<T: Port, R: Wait>(
    rt: &R,
    unit: &mut CoreUnit,
    port: &mut T,
    inboxes: &[Inbox],
    looks: u32,
) -> Result<(), Cause>
    ensures { SameUnit unit.old unit.new }
{
    match next_recall(rt, unit.core(), inboxes, looks) {
        Some(recall) => give_back(unit, port, &recall),
        None => Ok(()),
    }
}

// The next recall in a core's inbox, if one is there within so many looks.
fn next_recall<R: Wait>(rt: &R, core: CoreId, inboxes: &[Inbox], looks: u32) -> Option<Recall> {
    let own = inboxes.get(core.get() as usize)?;
    for look in 0..looks {
        if look > 0 {
            spin_loop();
        }
        if let Some(recall) = own.poll(rt) {
            return Some(recall);
        }
    }
    None
}

// Gives back the line that a recall asks for, if the core has it as Exclusive.
fn give_back<T: Port>(unit: &mut CoreUnit, port: &mut T, recall: &Recall) -> Result<(), Cause>
    ensures { SameUnit unit.old unit.new }
{
    match unit.recall(recall) {
        Ok(Outcome::Gave(message)) => {
            exchange(unit, port, &message)?;
            Ok(())
        }
        Ok(_) => Ok(()),
        Err(fault) => Err(Cause::Unit(fault)),
    }
}

// Makes a turn, and has a slice answer the message that the turn brings.
fn make_turn<T: Port, R: Wait>(
    rt: &R,
    unit: &mut CoreUnit,
    port: &mut T,
    inboxes: &[Inbox],
) -> Result<Turned, Cause>
    ensures same { SameUnit unit.old unit.new }
    ensures free { IfOk result (λ turned. turned ≡ Performed → unit.new.hand ≡ None) }
{
    let message = match unit.turn() {
        Ok(Outcome::Performed(_)) => return Ok(Turned::Performed),
        Ok(Outcome::Sent(message)) => message,
        Ok(_) => return Ok(Turned::Waits),
        Err(fault) => return Err(Cause::Unit(fault)),
    };
    match exchange(unit, port, &message)? {
        Reply::Busy(recall) => {
            offer(rt, inboxes, recall);
            Ok(Turned::Refused)
        }
        Reply::Taken => Ok(Turned::Waits),
        _ => Ok(Turned::Filled),
    }
}

// Leaves a recall for the owner that it names. If the owner's inbox is full, it lets the recall go: the next Busy brings another.
fn offer<R: Wait>(rt: &R, inboxes: &[Inbox], recall: Recall) {
    if let Some(theirs) = inboxes.get(recall.owner.get() as usize) {
        let _full = theirs.offer(rt, recall);
    }
}

// Has a slice serve the message in hand, and takes the reply.
fn exchange<T: Port>(unit: &mut CoreUnit, port: &mut T, message: &Message) -> Result<Reply, Cause>
    ensures same { SameUnit unit.old unit.new }
    ensures taken { IfOk result (λ reply. HasTaken unit.old reply unit.new) }
{
    let reply = match port.serve(unit.core(), message) {
        Ok(reply) => reply,
        Err(fault) => return Err(Cause::Slice(fault)),
    };
    match unit.take(&reply) {
        Ok(_) => Ok(reply),
        Err(fault) => Err(Cause::Unit(fault)),
    }
}

// Gives the core's Exclusive lines back, in ascending order of their addresses. Does nothing while a message is in hand.
fn give_lines_back<T: Port>(unit: &mut CoreUnit, port: &mut T) -> Result<(), Cause>
    ensures same { SameUnit unit.old unit.new }
    ensures given { unit.old.hand ≡ None → OnOk result (HasGivenAll unit.new) }
    ensures barred { IsSome unit.old.hand → IsOk result × (unit.new ≡ unit.old) }
{
    while let Some(addr) = unit.next_exclusive() {
        match unit.evict(addr) {
            Ok(Outcome::Gave(message)) => {
                exchange(unit, port, &message)?;
            }
            Ok(_) => break,
            Err(fault) => return Err(Cause::Unit(fault)),
        }
    }
    Ok(())
}
