//! The search of a trace.

ghost use Rattle.command_line.specs.declared.request.Request.TheVariants as request;
ghost use Rattle.host_files.specs.Files.{IsUnread};
ghost use Rattle.log_file.specs.Sinks.{sink_of};
ghost use Rattle.mem_op.specs.Consistency.{IsSequentialOrder};
ghost use Rattle.refutation.specs.Refuting.{IsRefutation};
ghost use Rattle.commands.specs.Traces.{IsTraceIn};
ghost use Rattle.commands.specs.inner.Performing.{Came};

use super::answer::CommandAnswer;
use super::output::print_answer;
use super::printing::print_no;
use super::proof_files::{put_order, put_picture, put_refutation};
use super::refusal::Refusal;
use super::search_answer::SearchAnswer;
use super::text::read_names;
use super::trace_files::{AskedTrace, read_files};
use command_line::Search;
use host_files::Folder;
use log_file::{ByteSink, write_all};
use mem_op::OpId;
use refutation::{Answer, Refutation};
use refuted_cases::Names;
use search::{SearchWatch, search_watched};
use std::alloc::Global;
use telling::count_of;
use trace::Trace;

/// How many steps a search may make where nothing is said, which take a minute at most.
const STEPS: u64 = 100_000_000;

/// Searches an order of the trace in files of the folder, or a refutation, puts what it finds where that was asked for, and prints
/// the answer's line and why it is so, with names in place of addresses where a file gives some. The answer, or why there is none: the
/// names are read first; 29 of a file that can't be put comes before anything is
/// printed, and 44 if the search gives up. A watch is told how far the search is.
pub(crate) fn search<W: SearchWatch, F: Folder, O: ByteSink>(
    alloc: Global,
    watch: &W,
    folder: &mut F,
    asked: &Search<'_>,
    out: &mut O,
) -> Result<CommandAnswer, Refusal>
    ensures { Came (F.files folder.old) (F.files folder.new)
        (IsUnread F.Source.remaining F.Source.failed (F.files folder.old) (F.files folder.new))
        (sink_of O.contents O.failed out.old) (sink_of O.contents O.failed out.new) (request.Search asked.now) result }
{
    let names = read_names(alloc, folder, asked.names)?;
    let read = read_files(alloc, folder, &asked.trace)?;
    match search_watched(alloc, &read.trace, asked.budget.unwrap_or(STEPS), watch)? {
        Answer::Order(order) => show_order(alloc, folder, asked, &read.trace, &order, out),
        Answer::Refutation(refutation) => show_refutation(
            alloc,
            folder,
            asked,
            &names,
            &read,
            &refutation,
            out,
        ),
        Answer::Undecided => Err(Refusal::Undecided),
    }
}

/// Puts an order of the trace where that was asked for, and prints the answer.
fn show_order<F: Folder, O: ByteSink>(
    alloc: Global,
    folder: &mut F,
    asked: &Search<'_>,
    trace: &Trace,
    order: &[OpId],
    out: &mut O,
) -> Result<CommandAnswer, Refusal>
    requires read { IsTraceIn (F.files folder.old).told asked.now.trace trace.now }
    requires order { IsSequentialOrder trace.now order.now }
    ensures { Came (F.files folder.old) (F.files folder.new)
        (IsUnread F.Source.remaining F.Source.failed (F.files folder.old) (F.files folder.new))
        (sink_of O.contents O.failed out.old) (sink_of O.contents O.failed out.new) (request.Search asked.now) result }
{
    put_order(alloc, folder, asked.order, order)?;
    let answer = SearchAnswer::Yes(count_of(trace) as u64);
    print_answer(alloc, out, CommandAnswer::Searched(answer))
}

/// Puts a refutation of the trace, and then a picture of it, each where that was asked for, and prints the answer and why it is so.
fn show_refutation<F: Folder, O: ByteSink>(
    alloc: Global,
    folder: &mut F,
    asked: &Search<'_>,
    names: &Names,
    read: &AskedTrace,
    refutation: &Refutation,
    out: &mut O,
) -> Result<CommandAnswer, Refusal>
    requires read { IsTraceIn (F.files folder.old).told asked.now.trace read.now.trace }
    requires refutation { IsRefutation read.now.trace refutation.now }
    ensures { Came (F.files folder.old) (F.files folder.new)
        (IsUnread F.Source.remaining F.Source.failed (F.files folder.old) (F.files folder.new))
        (sink_of O.contents O.failed out.old) (sink_of O.contents O.failed out.new) (request.Search asked.now) result }
{
    let answer = SearchAnswer::no_of(&asked.trace, count_of(&read.trace) as u64);
    let told = read.told(refutation);
    let text = print_no(alloc, names, told, refutation, &answer)?;
    put_refutation(alloc, folder, asked.refutation, refutation)?;
    put_picture(alloc, folder, asked.picture, names, told, refutation)?;
    write_all(out, text.as_bytes())?;
    Ok(CommandAnswer::Searched(answer))
}
