//! The replay of a trace.

ghost use Rattle.std.specs.Prelude.{◌≡◌, ℕ, List, ◌++◌, IfErr, IfOk, OnOk, string_bytes};
ghost use Rattle.command_line.specs.declared.request.Request.TheVariants as request;
ghost use Rattle.host_files.specs.Files.{IsOnlyRead, IsUnread};
ghost use Rattle.log_file.specs.Devices.{Failed, Tells};
ghost use Rattle.trace_replay.specs.Answers.{IsVerdict};
ghost use Rattle.trace_replay.specs.Texts.{verdict_text};
ghost use Rattle.commands.specs.Replaying.{TellsText};
ghost use Rattle.log_file.specs.Sinks.{line, sink_of};
ghost use Rattle.commands.specs.inner.Performing.{Came, IsInputFault};

use super::answer::CommandAnswer;
use super::place::Input;
use super::refusal::Refusal;
use command_line::Replay;
use host_files::Folder;
use log_file::{ByteSink, ByteSource, ReadFault, write_all};
use std::alloc::{AllocError, Global};
use trace::TraceFault;
use trace_replay::{ReplayFault, ReplayVerdict, StepId, StoresByWord, WrongLoad};

/// Hears what a replay finds.
pub trait ReplayWatch {
    /// The first load or swap that read another word, if standard output isn't told why.
    fn wrong(&self, wrong: &WrongLoad);
}

/// Replays the trace in a file of the folder, in the order of its lines, and prints the line of the verdict; after a no, if that is asked,
/// also what should have been read. It answers the verdict, or why there is none: 42 with the first line that isn't one of a trace, before
/// which all was right, and 28 if the file can't be opened or read. At the first load or swap that read another word it tells the watch, and
/// stops.
pub(crate) fn replay<W: ReplayWatch, F: Folder, O: ByteSink>(
    alloc: Global,
    watch: &W,
    folder: &mut F,
    asked: &Replay<'_>,
    out: &mut O,
) -> Result<CommandAnswer, Refusal>
    ensures { Came (F.files folder.old) (F.files folder.new)
        (IsUnread F.Source.remaining F.Source.failed (F.files folder.old) (F.files folder.new))
        (sink_of O.contents O.failed out.old) (sink_of O.contents O.failed out.new) (request.Replay asked.now) result }
{
    let mut stores = asked.why.then(|| StoresByWord::new(alloc));
    let verdict = replay_trace(alloc, folder, asked.trace, &mut stores)?;
    let text = told_lines(alloc, asked.why, &verdict, &stores)?;
    write_all(out, text.as_bytes())?;
    if !asked.why {
        tell(watch, &verdict);
    }
    Ok(CommandAnswer::Replayed(verdict))
}

/// Tells a watch of the load at which a verdict is no.
fn tell<W: ReplayWatch>(watch: &W, verdict: &ReplayVerdict) {
    if let ReplayVerdict::No(wrong) = verdict {
        watch.wrong(wrong);
    }
}

/// The line of a verdict, and what is told after it. If it is asked why, the stores before it were kept by their words.
fn told_lines(
    alloc: Global,
    why: bool,
    verdict: &ReplayVerdict,
    stores: &Option<StoresByWord>,
) -> Result<String, AllocError>
    ensures { IfOk result (λ text. (more : List ℕ) × (string_bytes text ≡ line (verdict_text verdict.now) ++ more)) }
{
    let more = match verdict {
        ReplayVerdict::No(wrong) if why => no_lines(alloc, wrong, source_of(stores, wrong))?,
        _ => String::new(alloc),
    };
    text_of(alloc, verdict, more.as_str())
}

/// The line of a verdict, and these words after it.
fn text_of(alloc: Global, verdict: &ReplayVerdict, more: &str) -> Result<String, AllocError>
    ensures { IfOk result (λ text. string_bytes text ≡ line (verdict_text verdict.now) ++ more.now) }
{
    let mut text = format!(in alloc; "{verdict}\n")?;
    text.push_str(more)?;
    Ok(text)
}

/// The last store of the word that a wrong load read, if there was one.
fn source_of(stores: &Option<StoresByWord>, wrong: &WrongLoad) -> Option<StepId> {
    stores.as_ref()?.last(wrong.addr, wrong.read)
}

/// The lines after that of a no, if it is asked why.
fn no_lines(
    alloc: Global,
    wrong: &WrongLoad,
    source: Option<StepId>,
) -> Result<String, AllocError> {
    let read = wrong.read;
    match source {
        Some(id) => format!(in alloc; "{wrong}\n{id} had stored {read} there before\n"),
        None => format!(in alloc; "{wrong}\n"),
    }
}

/// The verdict on the trace in a file of the folder, or why there is none.
fn replay_trace<F: Folder>(
    alloc: Global,
    folder: &mut F,
    name: &str,
    stores: &mut Option<StoresByWord>,
) -> Result<ReplayVerdict, Refusal>
    ensures ok { IfOk result (λ verdict. TellsText (F.files folder.old).told name.now
        (λ text. IsVerdict text verdict)) }
    ensures err { IfErr result (IsInputFault Input.Trace
        (IsUnread F.Source.remaining F.Source.failed (F.files folder.old) (F.files folder.new) name.now)) }
    ensures read { IsOnlyRead (F.files folder.old) (F.files folder.new) }
{
    let mut source = match folder.open_file(name) {
        Ok(source) => source,
        Err(ReadFault::Read) => return Err(Refusal::Unread(Input::Trace)),
        Err(ReadFault::OutOfMemory) => return Err(Refusal::OutOfMemory),
    };
    replay_source(alloc, &mut source, stores)
}

/// The verdict on the trace whose text the source's bytes are.
fn replay_source<S: ByteSource>(
    alloc: Global,
    source: &mut S,
    stores: &mut Option<StoresByWord>,
) -> Result<ReplayVerdict, Refusal>
    ensures ok { IfOk result (λ verdict. (bytes : List ℕ) × Tells (S.remaining source.old) bytes × IsVerdict bytes verdict) }
    ensures err { IfErr result (IsInputFault Input.Trace (Failed (S.failed source.old) (S.failed source.new))) }
{
    match trace_replay::replay(alloc, source, stores) {
        Ok(verdict) => Ok(verdict),
        Err(ReplayFault::BadTraceLine { line }) => {
            Err(Refusal::Trace(TraceFault::BadTraceLine { line }))
        }
        Err(ReplayFault::OutOfMemory) => Err(Refusal::OutOfMemory),
        Err(ReplayFault::Read) => Err(Refusal::Unread(Input::Trace)),
    }
}
