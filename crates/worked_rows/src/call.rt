//! One call of the program.

ghost use Rattle.std.specs.Prelude.{◌≡◌, [], IfOk};
ghost use Rattle.command_line.specs.Asking.{texts};
ghost use Rattle.rows.specs.Files.{told_of};
ghost use Rattle.commands.specs.Promises.{AreConsistent, AskFor};

use super::fault::{RowsFault, text_of};
use super::watch::Counting;
use commands::{command, open_all};
use host_files::Folder;
use log_file::{MemSink, Step};
use rows::{File, Given, MemoryFolder};
use std::alloc::Global;
use std::sync::Wait;
use std::thread::Threads;
use verdict::{OpenGate, judge, report};

/// How the writes of a call go.
#[derive(Clone, Copy)]
pub(crate) struct Outputs<'a> {
    /// Those of standard output.
    pub(crate) writes: &'a [Step],
    /// Those of standard error.
    pub(crate) complaints: &'a [Step],
}

/// Writes that don't fail.
pub(crate) const SOUND: Outputs<'static> = Outputs {
    writes: &[],
    complaints: &[],
};

/// What a call did.
#[derive(Drop)]
pub(crate) struct Done {
    pub(crate) status: u8,
    /// What standard output took.
    pub(crate) printed: String,
    /// What standard error took.
    pub(crate) told: String,
    pub(crate) put: Vec<File>,
    /// How many turns were seen, and how many runs were over.
    pub(crate) seen: (u64, u64),
}

/// Calls the program over files in memory. If a verdict was asked for and the answer is 0, the given files spell a set of logs whose operations are
/// sequentially consistent.
pub(crate) fn call<R: Threads + Wait + Sync>(
    rt: &R,
    alloc: Global,
    words: &[&str],
    given: Given<'_>,
    outputs: Outputs<'_>,
) -> Result<Done, RowsFault>
    ensures sound { IfOk result (λ done. done.status ≡ 0 → AskFor (texts words.entry.now)
        (AreConsistent (told_of given.entry.files.now []))) }
{
    let mut folder = MemoryFolder::new(alloc, given);
    let mut done = call_over(rt, alloc, words, &mut folder, outputs)?;
    done.put = folder.into_put();
    Ok(done)
}

/// Calls the program over any folder, without a look at the files that it puts.
pub(crate) fn call_over<R: Threads + Wait + Sync, F: Folder>(
    rt: &R,
    alloc: Global,
    words: &[&str],
    folder: &mut F,
    outputs: Outputs<'_>,
) -> Result<Done, RowsFault>
    ensures sound { IfOk result (λ done. done.status ≡ 0 → AskFor (texts words.entry.now)
        (AreConsistent (F.files folder.old).told)) }
{
    let mut out = MemSink::new(alloc, outputs.writes);
    let mut err = MemSink::new(alloc, outputs.complaints);
    let watch = Counting::new();
    let status = command(rt, alloc, words, &watch, folder, &mut out, &mut err);
    Ok(Done {
        status,
        printed: text_of(Vec::from_slice(alloc, out.bytes())?)?,
        told: text_of(Vec::from_slice(alloc, err.bytes())?)?,
        put: Vec::new(alloc),
        seen: watch.seen(),
    })
}

/// Judges the logs in files of these names and prints the answer, as the program `tardis_check` does.
pub(crate) fn check_alone<R: Threads + Sync>(
    rt: &R,
    alloc: Global,
    names: &[&str],
    given: Given<'_>,
) -> Result<Done, RowsFault> {
    let mut folder = MemoryFolder::new(alloc, given);
    let mut out = MemSink::new(alloc, &[]);
    let mut err = MemSink::new(alloc, &[]);
    let answer = match open_all(alloc, &mut folder, names) {
        Ok(mut logs) => judge(rt, alloc, logs.as_mut_slice(), 1, &OpenGate),
        Err(fault) => Err(fault),
    };
    let status = report(alloc, answer, &mut out, &mut err);
    Ok(Done {
        status,
        printed: text_of(Vec::from_slice(alloc, out.bytes())?)?,
        told: text_of(Vec::from_slice(alloc, err.bytes())?)?,
        put: Vec::new(alloc),
        seen: (0, 0),
    })
}
