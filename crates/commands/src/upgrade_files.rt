//! The logs of a set, written anew in format 2.

ghost use Rattle.command_line.specs.declared.request.Request.TheVariants as request;
ghost use Rattle.host_files.specs.Files.{IsUnread};
ghost use Rattle.log_file.specs.Sinks.{sink_of};
ghost use Rattle.commands.specs.inner.Performing.{Came};

use super::answer::CommandAnswer;
use super::log_files::read_log_files;
use super::output::print_done;
use super::refusal::Refusal;
use super::writing::{CoreLogs, write_logs};
use command_line::Upgrade;
use host_files::Folder;
use log_file::ByteSink;
use log_record::Format;
use std::alloc::Global;

/// Reads the logs in files of the folder, writes each in format 2, and prints how many operations they have. 6 of files comes before a
/// file is opened, 28 of one that can't be opened before one is read, and the first fault of the set before a log is written.
pub(crate) fn upgrade<F: Folder, O: ByteSink>(
    alloc: Global,
    folder: &mut F,
    asked: &Upgrade<'_>,
    out: &mut O,
) -> Result<CommandAnswer, Refusal>
    ensures { Came (F.files folder.old) (F.files folder.new)
        (IsUnread F.Source.remaining F.Source.failed (F.files folder.old) (F.files folder.new))
        (sink_of O.contents O.failed out.old) (sink_of O.contents O.failed out.new) (request.Upgrade asked.now) result }
{
    let read = read_log_files(alloc, folder, asked.files.as_slice())?;
    let logs = read.as_slice();
    let count = write_logs(
        alloc,
        folder,
        asked.out,
        Format::Two,
        CoreLogs::Read(logs),
        logs.len(),
    )?;
    print_done(alloc, out, count)
}
