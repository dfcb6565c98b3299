//! The trace that was asked about.

ghost use Rattle.std.specs.Prelude.{◌≡◌, IfErr, IfOk, OnOk, length};
ghost use Rattle.host_files.specs.Files.{IsOnlyRead, IsUnread};
ghost use Rattle.verdict.specs.Counts.{IsInRange};
ghost use Rattle.command_line.specs.declared.request.Request.{Request};
ghost use Rattle.commands.specs.Promises as promises;
ghost use Rattle.commands.specs.Traces as traces;
ghost use Rattle.commands.specs.declared.place.Input.TheVariants as input;
ghost use Rattle.commands.specs.inner.Performing.{IsReadFault};
ghost use Rattle.commands.specs.inner.ReadLogs.{AreLogless};

use super::log_files::read_log_files;
use super::log_traces::trace_of;
use super::refusal::Refusal;
use super::sources::sourced_trace;
use super::trace_file::read_trace;
use command_line::TraceFiles;
use host_files::Folder;
use refutation::{Refutation, Step};
use std::alloc::Global;
use trace::Trace;

/// The trace that was asked about.
#[derive(Drop)]
pub(crate) struct AskedTrace {
    pub(crate) trace: Trace,
    /// The same operations with their words, if the trace has sources in place of these.
    worded: Option<Trace>,
}

impl AskedTrace {
    /// A trace that has its own words.
    fn of(trace: Trace) -> AskedTrace
        ensures { result.trace ≡ trace }
    {
        AskedTrace {
            trace,
            worded: None,
        }
    }

    /// The trace by which a refutation is told: the one with the words, unless states are shown, which have those of the trace.
    pub(crate) fn told(&self, refutation: &Refutation) -> &Trace {
        match &self.worded {
            Some(worded) if !shows_states(refutation) => worded,
            _ => &self.trace,
        }
    }
}

/// Whether a step of a refutation shows states.
fn shows_states(refutation: &Refutation) -> bool {
    refutation
        .as_slice()
        .iter()
        .any(|step| matches!(step, Step::States { .. }))
}

/// The trace in these files of the folder, or why there is none.
pub(crate) fn read_files<F: Folder>(
    alloc: Global,
    folder: &mut F,
    files: &TraceFiles<'_>,
) -> Result<AskedTrace, Refusal>
    ensures ok { IfOk result (λ read. traces.IsTraceIn (F.files folder.old).told files.now read.trace) }
    ensures err { IfErr result (λ refusal. (request : Request) → promises.logs_read request ≡ promises.trace_logs files.now
        → promises.file_at request input.Trace ≡ promises.trace_file files.now → IsReadFault (IsUnread F.Source.remaining F.Source.failed (F.files folder.old) (F.files folder.new)) request refusal) }
    ensures quiet { OnOk result (F.files folder.new ≡ F.files folder.old) }
    ensures read { IsOnlyRead (F.files folder.old) (F.files folder.new) }
{
    match files {
        TraceFiles::One(name) => Ok(AskedTrace::of(read_trace(alloc, folder, name)?)),
        TraceFiles::Logs(names) => Ok(AskedTrace::of(read_logs(alloc, folder, names.as_slice())?)),
        TraceFiles::Sourced(names) => read_sourced(alloc, folder, names.as_slice()),
    }
}

/// The trace of the logs in files of the folder, or why there is none: 6 of files comes before a file is opened, and 28 of one that
/// can't be opened before one is read.
fn read_logs<F: Folder>(alloc: Global, folder: &mut F, names: &[&str]) -> Result<Trace, Refusal>
    ensures ok { IfOk result (λ cores. IsInRange (length names.now)
        × traces.SpellLogsAt (F.files folder.old).told names.now cores) }
    ensures err { IfErr result (AreLogless
        (IsUnread F.Source.remaining F.Source.failed (F.files folder.old) (F.files folder.new)) names.now) }
    ensures quiet { OnOk result (F.files folder.new ≡ F.files folder.old) }
    ensures read { IsOnlyRead (F.files folder.old) (F.files folder.new) }
{
    let logs = read_log_files(alloc, folder, names)?;
    Ok(trace_of(alloc, logs.as_slice())?)
}

/// The same with the sources that the logs name in place of their words.
fn read_sourced<F: Folder>(
    alloc: Global,
    folder: &mut F,
    names: &[&str],
) -> Result<AskedTrace, Refusal>
    ensures ok { IfOk result (λ read. IsInRange (length names.now)
        × traces.SpellSourcesAt (F.files folder.old).told names.now read.trace) }
    ensures err { IfErr result (AreLogless
        (IsUnread F.Source.remaining F.Source.failed (F.files folder.old) (F.files folder.new)) names.now) }
    ensures quiet { OnOk result (F.files folder.new ≡ F.files folder.old) }
    ensures read { IsOnlyRead (F.files folder.old) (F.files folder.new) }
{
    let logs = read_log_files(alloc, folder, names)?;
    let logs = logs.as_slice();
    let worded = trace_of(alloc, logs)?;
    let trace = sourced_trace(alloc, &worded, logs)?;
    let worded = Some(worded);
    Ok(AskedTrace { trace, worded })
}
