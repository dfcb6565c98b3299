//! The order of the logs of a set.

ghost use Rattle.command_line.specs.declared.request.Request.TheVariants as request;
ghost use Rattle.host_files.specs.Files.{IsUnread};
ghost use Rattle.log_file.specs.Sinks.{sink_of};
ghost use Rattle.commands.specs.inner.Performing.{Came};

use super::answer::CommandAnswer;
use super::log_files::open_all;
use super::refusal::Refusal;
use command_line::Order;
use host_files::Folder;
use log_file::ByteSink;
use merge_judge::merge_judge;
use std::alloc::Global;

/// The verdict on the logs in files of the folder, with a Yes the order of their operations, written,
/// or why there is none: 6 of files comes before a file is opened, and 28 of one that can't be opened
/// before one is read. What is written else lacks the `end` line.
pub(crate) fn order<F: Folder, O: ByteSink>(
    alloc: Global,
    folder: &mut F,
    asked: &Order<'_>,
    out: &mut O,
) -> Result<CommandAnswer, Refusal>
    ensures { Came (F.files folder.old) (F.files folder.new)
        (IsUnread F.Source.remaining F.Source.failed (F.files folder.old) (F.files folder.new))
        (sink_of O.contents O.failed out.old) (sink_of O.contents O.failed out.new) (request.Order asked.now) result }
{
    let mut sources = open_all(alloc, folder, asked.files.as_slice())?;
    let verdict = merge_judge(alloc, sources.as_mut_slice(), out)?;
    Ok(CommandAnswer::Ordered(verdict))
}
