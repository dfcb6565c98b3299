//! A look at a file of a litmus test, of programs, or of a trace.

ghost use Rattle.std.specs.Prelude.{IfErr};
ghost use Rattle.command_line.specs.declared.request.Request.TheVariants as request;
ghost use Rattle.host_files.specs.Files.{IsOnlyRead, IsUnread};
ghost use Rattle.log_file.specs.Sinks.{sink_of};
ghost use Rattle.commands.specs.inner.Performing.{Came, IsReadFault};

use super::answer::CommandAnswer;
use super::litmus_files::read_test;
use super::output::print_answer;
use super::refusal::Refusal;
use super::text::read_programs;
use super::trace_file::read_trace;
use command_line::{FileKind, Inspect};
use host_files::Folder;
use log_file::ByteSink;
use std::alloc::Global;

/// Reads a file of a litmus test, of programs, or of a trace, as the commands do that take one, and prints how many cores it is for.
pub(crate) fn inspect<F: Folder, O: ByteSink>(
    alloc: Global,
    folder: &mut F,
    asked: &Inspect<'_>,
    out: &mut O,
) -> Result<CommandAnswer, Refusal>
    ensures { Came (F.files folder.old) (F.files folder.new)
        (IsUnread F.Source.remaining F.Source.failed (F.files folder.old) (F.files folder.new))
        (sink_of O.contents O.failed out.old) (sink_of O.contents O.failed out.new) (request.Inspect asked.now) result }
{
    let cores = cores_in(alloc, folder, asked)?;
    print_answer(alloc, out, CommandAnswer::Readable(asked.kind, cores))
}

/// How many cores the file is for, or why it is refused.
fn cores_in<F: Folder>(alloc: Global, folder: &mut F, asked: &Inspect<'_>) -> Result<usize, Refusal>
    ensures err { IfErr result (IsReadFault
        (IsUnread F.Source.remaining F.Source.failed (F.files folder.old) (F.files folder.new)) (request.Inspect asked.now)) }
    ensures read { IsOnlyRead (F.files folder.old) (F.files folder.new) }
{
    match asked.kind {
        FileKind::Litmus => Ok(read_test(alloc, folder, asked.file)?.programs().len()),
        FileKind::Programs => Ok(read_programs(alloc, folder, asked.file)?.len()),
        FileKind::Trace => Ok(read_trace(alloc, folder, asked.file)?.cores().len()),
    }
}
