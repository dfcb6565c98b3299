//! The check of the logs of a set.

ghost use Rattle.std.specs.Prelude.{◌≡◌, IfErr, IfOk, Ok, option_map, OnOk};
ghost use Rattle.command_line.specs.declared.request.Request.TheVariants as request;
ghost use Rattle.host_files.specs.Files.{IsOnlyRead, IsUnread};
ghost use Rattle.log_file.specs.Sinks.{sink_of};
ghost use Rattle.verdict.specs.CoreFaultsOf.{given};
ghost use Rattle.commands.specs.Checking.{AreProgramsOf, FilesGet, IsJudged};
ghost use Rattle.commands.specs.inner.Performing.{Came, IsReadFault};
ghost use Rattle.commands.specs.inner.ReadLogs.{IsExaminationIn};

use super::answer::CommandAnswer;
use super::log_files::open_all;
use super::output::print_answer;
use super::refusal::Refusal;
use super::text::read_programs;
use command_line::Check;
use core_program::ProgramSet;
use host_files::Folder;
use log_file::ByteSink;
use std::alloc::Global;
use std::thread::Threads;
use verdict::{Examined, OpenGate, Verdict, check_counts, examine};

/// The verdict on the logs of a set with what it stands on, and the programs against which it was judged, if there are any.
#[derive(Drop)]
pub(crate) struct Found {
    pub(crate) examined: Examined,
    pub(crate) programs: Option<ProgramSet>,
}

impl Found {
    /// The verdict.
    fn verdict(&self) -> Verdict
        ensures { result ≡ self.now.examined.verdict }
    {
        self.examined.verdict
    }
}

/// Judges the logs in files of the folder, against the programs in another where one is asked for, and prints the line of the verdict. The
/// verdict, or why there is none: 6 of files and workers comes before a file is opened, the programs before the logs, and 28 of a log that
/// can't be opened before one is read.
pub(crate) fn check<R: Threads + Sync, F: Folder, O: ByteSink>(
    rt: &R,
    alloc: Global,
    folder: &mut F,
    asked: &Check<'_>,
    out: &mut O,
) -> Result<CommandAnswer, Refusal>
    ensures { Came (F.files folder.old) (F.files folder.new)
        (IsUnread F.Source.remaining F.Source.failed (F.files folder.old) (F.files folder.new))
        (sink_of O.contents O.failed out.old) (sink_of O.contents O.failed out.new) (request.Check asked.now) result }
{
    let found = judge(rt, alloc, folder, asked)?;
    print_answer(alloc, out, CommandAnswer::Judged(found.verdict()))
}

/// The verdict on the logs in files of the folder, with what it stands on, or why there is none, as `check` refuses it.
pub(crate) fn judge<R: Threads + Sync, F: Folder>(
    rt: &R,
    alloc: Global,
    folder: &mut F,
    asked: &Check<'_>,
) -> Result<Found, Refusal>
    ensures verdict { IfOk result (λ found. FilesGet (F.files folder.old).told asked.now found.examined.verdict) }
    ensures examined { IfOk result (λ found. IsExaminationIn (F.files folder.old).told asked.now.files.items
        (option_map (λ set. set.programs) found.programs) found.examined) }
    ensures err { IfErr result (IsReadFault
        (IsUnread F.Source.remaining F.Source.failed (F.files folder.old) (F.files folder.new)) (request.Check asked.now)) }
    ensures read { IsOnlyRead (F.files folder.old) (F.files folder.new) }
{
    check_counts(asked.files.len(), asked.workers as usize)?;
    let programs = read_given(alloc, folder, asked)?;
    let examined = examine_files(rt, alloc, folder, asked, programs.as_ref())?;
    Ok(Found { examined, programs })
}

/// The programs in a file of the folder, if its name is given.
fn read_given<F: Folder>(
    alloc: Global,
    folder: &mut F,
    asked: &Check<'_>,
) -> Result<Option<ProgramSet>, Refusal>
    ensures ok { IfOk result (λ programs. AreProgramsOf (F.files folder.old).told asked.now.program
        (option_map (λ set. set.programs) programs)) }
    ensures err { IfErr result (IsReadFault
        (IsUnread F.Source.remaining F.Source.failed (F.files folder.old) (F.files folder.new)) (request.Check asked.now)) }
    ensures quiet { OnOk result (F.files folder.new ≡ F.files folder.old) }
    ensures read { IsOnlyRead (F.files folder.old) (F.files folder.new) }
{
    match asked.program {
        None => Ok(None),
        Some(name) => match read_programs(alloc, folder, name) {
            Ok(programs) => Ok(Some(programs)),
            Err(fault) => Err(fault),
        },
    }
}

/// The verdict on the logs in files of the folder, against these programs if they are given, with what it stands on.
fn examine_files<R: Threads + Sync, F: Folder>(
    rt: &R,
    alloc: Global,
    folder: &mut F,
    asked: &Check<'_>,
    programs: Option<&ProgramSet>,
) -> Result<Examined, Refusal>
    ensures verdict { IfOk result (λ examined. IsJudged (F.files folder.old).told (given programs.entry) asked.now (Ok examined.verdict)) }
    ensures examined { IfOk result (IsExaminationIn (F.files folder.old).told asked.now.files.items (given programs.entry)) }
    ensures err { IfErr result (IsReadFault
        (IsUnread F.Source.remaining F.Source.failed (F.files folder.old) (F.files folder.new)) (request.Check asked.now)) }
    ensures read { IsOnlyRead (F.files folder.old) (F.files folder.new) }
{
    let mut sources = open_all(alloc, folder, asked.files.as_slice())?;
    let workers = asked.workers as usize;
    let examined = examine(
        rt,
        alloc,
        programs,
        sources.as_mut_slice(),
        workers,
        &OpenGate,
    )?;
    Ok(examined)
}
