//! Programs run on the core machine, one event after the other.

ghost use Rattle.std.specs.Prelude.{◌≡◌, ◌≤◌, IfErr, IfOk, OnOk, length};
ghost use Rattle.command_line.specs.Files.{IsApart};
ghost use Rattle.command_line.specs.declared.request.Request.TheVariants as request;
ghost use Rattle.core_machine.specs.Opening.{opening_parts};
ghost use Rattle.core_machine.specs.Parts.{world};
ghost use Rattle.core_machine.specs.Works.{log_at};
ghost use Rattle.host_files.specs.Files.{IsOnlyRead, IsUnread, KeepsFiles};
ghost use Rattle.log_file.specs.Sinks.{sink_of};
ghost use Rattle.commands.specs.Logs.{TellsFirst};
ghost use Rattle.commands.specs.Outputs.{IsNameOf};
ghost use Rattle.commands.specs.Programmed as programmed;
ghost use Rattle.commands.specs.Simulating as simulating;
ghost use Rattle.commands.specs.inner.Performing.{Came, IsReadFault, IsUnprinted};

use super::answer::CommandAnswer;
use super::config::{config_of, log_format};
use super::left::{Leaving, leave};
use super::output::print_done;
use super::place::{Input, Output};
use super::putting::put_under;
use super::refusal::Refusal;
use super::text::{read_programs, read_text};
use command_line::Sim;
use core_program::ProgramSet;
use host_files::Folder;
use lease_rule::Config;
use log_file::{ByteSink, ReadFault};
use simulation::{Command, parse_schedule, print_events, simulate};
use std::alloc::Global;
use tardis_core::{Core, CoreFault};

/// Runs the programs in a file of the folder by a schedule and then to their ends, and writes the log of each core, and then the run's numbers
/// and its events if files are given for them, also if a fault ends the run. It prints the number of operations that were performed.
pub(crate) fn sim<F: Folder, O: ByteSink>(
    alloc: Global,
    folder: &mut F,
    asked: &Sim<'_>,
    out: &mut O,
) -> Result<CommandAnswer, Refusal>
    ensures { Came (F.files folder.old) (F.files folder.new)
        (IsUnread F.Source.remaining F.Source.failed (F.files folder.old) (F.files folder.new))
        (sink_of O.contents O.failed out.old) (sink_of O.contents O.failed out.new) (request.Sim asked.now) result }
{
    let config = config_of(&asked.limits)?;
    let programs = read_programs(alloc, folder, asked.programs)?;
    let commands = read_schedule(alloc, folder, asked, programs.len())?;
    let Ok(mut machine) = new_machine(alloc, &programs, &config, asked.events.is_some()) else {
        return Err(Refusal::OutOfMemory);
    };
    let ended = simulate(
        alloc,
        &mut machine,
        commands.as_slice(),
        asked.seed,
        asked.stress,
    );
    let left = leave_machine(alloc, folder, asked, &programs, &config, &machine);
    ended?;
    let count = left?;
    print_done(alloc, out, count)
}

/// The machine at the start of these programs, which keeps its events or doesn't.
fn new_machine(
    alloc: Global,
    programs: &ProgramSet,
    config: &Config,
    keeps: bool,
) -> Result<Core, CoreFault>
    ensures { IfOk result (λ machine. machine ≡ opening_parts programs.now.programs config.now) }
{
    if keeps {
        Core::keeping_events(alloc, programs, config)
    } else {
        Core::new(alloc, programs, config)
    }
}

/// Writes the log of each core of a machine, and then the run's numbers and its events if files are given for them. How many operations were
/// performed. What can't be written ends it.
fn leave_machine<F: Folder>(
    alloc: Global,
    folder: &mut F,
    asked: &Sim<'_>,
    programs: &ProgramSet,
    config: &Config,
    machine: &Core,
) -> Result<u64, Refusal>
    ensures ok { OnOk result (IsApart (request.Sim asked.now) → TellsFirst (programmed.log_format programs.now.format)
        (F.files folder.new).told asked.now.out.now (length programs.now.programs) (log_at (world machine.now)) (length programs.now.programs)) }
    ensures err { IfErr result IsUnprinted }
    ensures far { simulating.LeavesMachine (F.files folder.old) (F.files folder.new) asked.now programs.now config.now machine.now }
    ensures files { KeepsFiles (F.files folder.old).told (F.files folder.new).told (simulating.IsSimName asked.now) }
{
    let leaving = Leaving {
        out: asked.out,
        statistics: asked.statistics,
        format: log_format(programs.format()),
        cores: programs.len(),
        slices: config.slices(),
    };
    let count = leave(alloc, folder, &leaving, machine.units(), machine.slices())?;
    leave_events(alloc, folder, asked.events, programs, machine)?;
    Ok(count)
}

/// Puts the events of a run under the name that is given for them, if one is.
fn leave_events<F: Folder>(
    alloc: Global,
    folder: &mut F,
    name: Option<&str>,
    programs: &ProgramSet,
    machine: &Core,
) -> Result<(), Refusal>
    ensures tried { simulating.TriesEvents (F.files folder.old) (F.files folder.new) name.entry }
    ensures err { IfErr result IsUnprinted }
    ensures others { KeepsFiles (F.files folder.old).told (F.files folder.new).told (IsNameOf name.entry) }
{
    let Some(name) = name else {
        return Ok(());
    };
    let Ok(text) = print_events(alloc, programs, machine) else {
        return Err(Refusal::OutOfMemory);
    };
    put_under(folder, Some(name), text.as_slice(), Output::Events)
}

/// The commands of the schedule that is asked for, for `cores` cores; none if no file is given for it.
fn read_schedule<F: Folder>(
    alloc: Global,
    folder: &mut F,
    asked: &Sim<'_>,
    cores: usize,
) -> Result<Vec<Command>, Refusal>
    requires { cores ≤ 64 }
    ensures ok { IfOk result (λ commands.
        simulating.AreCommandsOf (F.files folder.old).told asked.now.schedule cores commands.items) }
    ensures err { IfErr result (IsReadFault
        (IsUnread F.Source.remaining F.Source.failed (F.files folder.old) (F.files folder.new)) (request.Sim asked.now)) }
    ensures quiet { OnOk result (F.files folder.new ≡ F.files folder.old) }
    ensures read { IsOnlyRead (F.files folder.old) (F.files folder.new) }
{
    let Some(name) = asked.schedule else {
        return Ok(Vec::new(alloc));
    };
    let text = match read_text(alloc, folder, name) {
        Ok(text) => text,
        Err(ReadFault::Read) => return Err(Refusal::Unread(Input::Schedule)),
        Err(ReadFault::OutOfMemory) => return Err(Refusal::OutOfMemory),
    };
    let commands = parse_schedule(alloc, text.as_slice(), cores)?;
    Ok(commands)
}
