//! Programs run in threads.

ghost use Rattle.command_line.specs.declared.request.Request.TheVariants as request;
ghost use Rattle.host_files.specs.Files.{IsUnread};
ghost use Rattle.log_file.specs.Sinks.{sink_of};
ghost use Rattle.commands.specs.inner.Performing.{Came};

use super::answer::CommandAnswer;
use super::config::{config_of, log_format};
use super::left::{Leaving, leave};
use super::output::print_done;
use super::refusal::Refusal;
use super::text::read_programs;
use super::watch::{Watch, Watched};
use command_line::Run;
use host_files::Folder;
use log_file::ByteSink;
use machine::{ThreadsFault, run_threads};
use std::alloc::Global;
use std::sync::Wait;
use std::thread::Threads;

/// Runs the programs in a file of the folder, each core in a thread of its own, and writes the log of each core, and then the run's
/// numbers if a file is given for them, also if a fault ends the run. It prints the number of operations that were performed.
pub(crate) fn run<R: Threads + Wait + Sync, W: Watch + Sync, F: Folder, O: ByteSink>(
    rt: &R,
    alloc: Global,
    watch: &W,
    folder: &mut F,
    asked: &Run<'_>,
    out: &mut O,
) -> Result<CommandAnswer, Refusal>
    ensures { Came (F.files folder.old) (F.files folder.new)
        (IsUnread F.Source.remaining F.Source.failed (F.files folder.old) (F.files folder.new))
        (sink_of O.contents O.failed out.old) (sink_of O.contents O.failed out.new) (request.Run asked.now) result }
{
    let config = config_of(&asked.limits)?;
    let programs = read_programs(alloc, folder, asked.programs)?;
    let ran = run_threads(rt, alloc, &programs, &config, &Watched { watch });
    watch.over();
    let leaving = Leaving {
        out: asked.out,
        statistics: asked.statistics,
        format: log_format(programs.format()),
        cores: programs.len(),
        slices: config.slices(),
    };
    match ran {
        Ok(end) => {
            let (units, slices) = (end.units.as_slice(), end.slices.as_slice());
            let count = leave(alloc, folder, &leaving, units, slices)?;
            print_done(alloc, out, count)
        }
        Err(fault) => {
            let (units, slices) = (fault.units.as_slice(), fault.slices.as_slice());
            let _left = leave(alloc, folder, &leaving, units, slices);
            Err(Refusal::Run(ThreadsFault::of(&fault)))
        }
    }
}
