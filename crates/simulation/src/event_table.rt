//! A run as a table, a line for each event.

ghost use Rattle.std.specs.Prelude.{◌≡◌, ◌∷◌, ◌++◌, [], IfOk, OnOk, string_bytes};
ghost use Rattle.std.specs.Io.KnownBytes.{Appends};
ghost use Rattle.csv.specs.Records.{fields_of};
ghost use Rattle.csv.specs.Writing.{default_writer, row_text};
ghost use Rattle.csv_lines.specs.Lines.{IsFresh, written};
ghost use Rattle.core_machine.specs.Parts.{CoreParts};
ghost use Rattle.simulation.specs.Commands.{CommandLeads, EventLeadsAnyhow, IsAtOwner};
ghost use Rattle.simulation.specs.EventTable.{AreCellsOf, IsTable, command_of};

use super::command::Command;
use super::event_text::OutcomeText;
use core_machine::{CoreFault, Event};
use core_program::ProgramSet;
use core_unit::{CoreUnit, Outcome};
use csv::{StringRecord, Writer};
use csv_lines::{new_writer, push_blank, push_number, text_of};
use line_stamps::Line;
use log_record::Record;
use manager_slice::{ManagedLine, ManagerSlice};
use mem_op::{Addr, CoreId};
use private_cache::Held;
use std::alloc::{AllocError, Global};
use tardis_core::Core;

/// The columns: the event, what came of it, and then, as they are after it, the line concerned in the cache of the event's core and in its slice, the
/// stamp and the rank of the slice's memory, and those of the core.
const COLUMNS: [&str; 18] = [
    "number",
    "event",
    "outcome",
    "address",
    "cache",
    "modified",
    "wts",
    "rts",
    "wr",
    "slice",
    "owner",
    "slice_wts",
    "slice_rts",
    "slice_wr",
    "mts",
    "mrank",
    "pts",
    "r",
];

/// An event, what came of it, and the machine after it.
#[derive(Clone, Copy)]
struct Step<'a> {
    event: &'a Event,
    outcome: &'a Outcome,
    /// The address of the message that its core had in hand before it.
    asked: Option<Addr>,
    machine: &'a Core,
}

/// The table of the events that a machine of these programs has kept from its start on: comma-separated values, a line for
/// the columns and one for each event. Err if memory was refused, now or before, when an event was to be kept.
pub fn print_events(alloc: Global, programs: &ProgramSet, run: &Core) -> Result<Vec<u8>, AllocError>
    ensures { IfOk result (λ text. IsTable run.now text.items) }
{
    let Some(events) = run.events() else {
        return Err(AllocError);
    };
    let Ok(mut machine) = Core::new(alloc, programs, run.config()) else {
        return Err(AllocError);
    };
    let mut writer = new_writer(alloc);
    let names = header_cells(alloc)?;
    write_cells(&mut writer, &names)?;
    for (at, event) in events.iter().enumerate() {
        let asked = asked_by(&machine, event);
        let Ok(outcome) = &machine.step(*event) else {
            return Err(AllocError);
        };
        let step = Step {
            event,
            outcome,
            asked,
            machine: &machine,
        };
        let told = told_cells(alloc, &step)?;
        let cells = row_cells(alloc, at as u64 + 1, event, &told)?;
        write_cells(&mut writer, &cells)?;
    }
    let text = text_of(writer)?;
    Ok(text)
}

/// Writes a line of these cells.
fn write_cells(writer: &mut Writer<Vec<u8>>, cells: &StringRecord) -> Result<(), AllocError>
    ensures text { OnOk result (IsFresh writer.old → Appends (written writer.old) (written writer.new)
        (row_text default_writer (fields_of cells.now))) }
    ensures fresh { OnOk result (IsFresh writer.old → IsFresh writer.new) }
{
    match writer.write_byte_record(cells.as_byte_record()) {
        Ok(()) => Ok(()),
        Err(_) => Err(AllocError),
    }
}

/// The cells of the first line.
fn header_cells(alloc: Global) -> Result<StringRecord, AllocError> {
    let mut cells = StringRecord::new(alloc);
    for name in COLUMNS {
        cells.push_field(name)?;
    }
    Ok(cells)
}

/// The cells of a line: the number of its event, counted from 1, the event, and what it tells of it.
fn row_cells(
    alloc: Global,
    number: u64,
    event: &Event,
    told: &StringRecord,
) -> Result<StringRecord, AllocError>
    ensures { IfOk result (λ cells. AreCellsOf number event.now (fields_of cells)) }
{
    let mut cells = StringRecord::new(alloc);
    push_number(alloc, &mut cells, number)?;
    push_text(&mut cells, &command_of(event).to_string(alloc)?)?;
    for at in 0..told.len() {
        if let Some(cell) = told.get(at) {
            cells.push_field(cell)?;
        }
    }
    Ok(cells)
}

/// The cells that tell what came of an event.
fn told_cells(alloc: Global, step: &Step<'_>) -> Result<StringRecord, AllocError> {
    let mut cells = StringRecord::new(alloc);
    let unit = unit_of(step.machine, step.event);
    let made = made_by(unit, step.outcome);
    let outcome = OutcomeText {
        outcome: step.outcome,
        made,
    };
    push_text(&mut cells, &outcome.to_string(alloc)?)?;
    push_line(alloc, &mut cells, step, unit, addr_of(step, made))?;
    match unit {
        Some(unit) => {
            push_number(alloc, &mut cells, unit.pts().get())?;
            push_number(alloc, &mut cells, unit.rank().get())?;
        }
        None => push_blanks(&mut cells, 2)?,
    }
    Ok(cells)
}

/// Adds the cells of the line that an event concerns; blank ones if it concerns none.
fn push_line(
    alloc: Global,
    cells: &mut StringRecord,
    step: &Step<'_>,
    unit: Option<&CoreUnit>,
    addr: Option<Addr>,
) -> Result<(), AllocError> {
    let Some(addr) = addr else {
        return push_blanks(cells, 13);
    };
    push_number(alloc, cells, addr.get())?;
    match unit {
        Some(unit) => push_held(alloc, cells, unit.cache().line(addr))?,
        None => push_blanks(cells, 5)?,
    }
    let number = step.machine.config().slice_of(addr);
    match step.machine.slices().get(number) {
        Some(slice) => push_managed(alloc, cells, slice, addr),
        None => push_blanks(cells, 7),
    }
}

/// Adds the cells of a line as a cache has it.
fn push_held(
    alloc: Global,
    cells: &mut StringRecord,
    held: Option<&Held>,
) -> Result<(), AllocError> {
    match held {
        None => push_blanks(cells, 5),
        Some(Held::Shared(line)) => {
            cells.push_field("Shared")?;
            push_blank(cells)?;
            push_stamps(alloc, cells, line)
        }
        Some(Held::Exclusive { modified, line }) => {
            cells.push_field("Exclusive")?;
            cells.push_field(if *modified { "yes" } else { "no" })?;
            push_stamps(alloc, cells, line)
        }
    }
}

/// Adds the cells of a line as its slice has it, and of the slice's memory.
fn push_managed(
    alloc: Global,
    cells: &mut StringRecord,
    slice: &ManagerSlice,
    addr: Addr,
) -> Result<(), AllocError> {
    match slice.state().lines.get(addr) {
        None => push_blanks(cells, 5)?,
        Some(ManagedLine::Shared(line)) => {
            cells.push_field("Shared")?;
            push_blank(cells)?;
            push_stamps(alloc, cells, line)?;
        }
        Some(ManagedLine::Exclusive(owner)) => {
            cells.push_field("Exclusive")?;
            push_number(alloc, cells, owner.get())?;
            push_blanks(cells, 3)?;
        }
    }
    push_number(alloc, cells, slice.state().memory.mts.get())?;
    push_number(alloc, cells, slice.state().memory.mrank.get())
}

/// Adds the cells of a line's stamps.
fn push_stamps(alloc: Global, cells: &mut StringRecord, line: &Line) -> Result<(), AllocError> {
    let stamps = line.stamps();
    push_number(alloc, cells, stamps.wts.get())?;
    push_number(alloc, cells, stamps.rts.get())?;
    push_number(alloc, cells, stamps.wr.get())
}

/// Adds a cell of this text.
fn push_text(cells: &mut StringRecord, text: &String) -> Result<(), AllocError>
    ensures { OnOk result (fields_of cells.new ≡ fields_of cells.old ++ string_bytes text.now ∷ []) }
{
    cells.push_field(text.as_str())
}

/// Adds this many cells that have nothing in them.
fn push_blanks(cells: &mut StringRecord, count: usize) -> Result<(), AllocError> {
    for _ in 0..count {
        push_blank(cells)?;
    }
    Ok(())
}

/// The command of a schedule that makes just this event, if a recall comes to the owner that it names.
fn command_of(event: &Event) -> Command
    ensures command { result ≡ command_of event.now }
    ensures leads { IsAtOwner event.now → (p q : CoreParts) → CommandLeads p result q → EventLeadsAnyhow p event.now q }
{
    match event {
        Event::Turn(core) => Command::Turn(*core),
        Event::Serve(core) => Command::Serve(*core),
        Event::Take(core) => Command::Take(*core),
        Event::Recall(_, recall) => Command::Recall(*recall),
        Event::Evict(core, addr) => Command::Evict(*core, *addr),
        Event::Spill(addr) => Command::Spill(*addr),
        Event::Increment(core) => Command::Bump(*core),
    }
}

/// The core of an event, if it has one, and that is there.
fn unit_of<'a>(machine: &'a Core, event: &Event) -> Option<&'a CoreUnit> {
    match event {
        Event::Spill(_) => None,
        Event::Turn(core)
        | Event::Serve(core)
        | Event::Take(core)
        | Event::Recall(core, _)
        | Event::Evict(core, _)
        | Event::Increment(core) => machine.unit(*core),
    }
}

/// The address of the message that the core of an event has in hand, if it has one.
fn asked_by(machine: &Core, event: &Event) -> Option<Addr> {
    Some(unit_of(machine, event)?.in_hand()?.addr())
}

/// The record of the operation that an event has performed, if it performed one.
fn made_by<'a>(unit: Option<&'a CoreUnit>, outcome: &Outcome) -> Option<&'a Record> {
    match outcome {
        Outcome::Performed(id) => unit?.log().get(id.index.get() as usize),
        _ => None,
    }
}

/// The address of the line that an event concerns: the one that it names, or that of its operation or message. A bump concerns none.
fn addr_of(step: &Step<'_>, made: Option<&Record>) -> Option<Addr> {
    match step.event {
        Event::Increment(_) => None,
        Event::Evict(_, addr) => Some(*addr),
        Event::Spill(addr) => Some(*addr),
        Event::Recall(_, recall) => Some(recall.addr),
        Event::Turn(_) | Event::Serve(_) | Event::Take(_) => match step.outcome {
            Outcome::Performed(_) => Some(made?.addr),
            Outcome::Dropped(addr) => Some(*addr),
            Outcome::Sent(message) => Some(message.addr()),
            _ => step.asked,
        },
    }
}
