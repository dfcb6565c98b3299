//! The outcomes of a litmus test.

ghost use Rattle.std.specs.Prelude.{◌≡◌, IfErr, IfOk};
ghost use Rattle.command_line.specs.declared.request.Request.TheVariants as request;
ghost use Rattle.host_files.specs.Files.{IsOnlyRead, IsUnread};
ghost use Rattle.litmus.specs.Collecting.{TellsNo};
ghost use Rattle.log_file.specs.Sinks.{sink_of};
ghost use Rattle.commands.specs.Tabling as tabling;
ghost use Rattle.commands.specs.inner.Performing.{Came, IsInputFault};

use super::answer::CommandAnswer;
use super::config::config_of;
use super::place::{Input, Output};
use super::putting::put_under;
use super::refusal::Refusal;
use super::text::read_text;
use command_line::LitmusRuns;
use host_files::Folder;
use lease_rule::Config;
use litmus::{
    CollectFault, Collected, Litmus, Table, collect_seeded, collect_threaded, write_table,
};
use log_file::{ByteSink, ReadFault};
use statistics::{Numbers, print_totals};
use std::alloc::{AllocError, Global};
use std::sync::Wait;
use std::thread::Threads;

/// The most runs.
const RUN_LIMIT: u64 = 100_000;

/// Whether an outcome of a table is forbidden.
fn has_forbidden(table: &Table) -> bool
    ensures { result ≡ tabling.has_forbidden table.now }
{
    table.rows().iter().any(|row| row.forbidden)
}

/// The test in a file of the folder: 28 if it can't be opened or read.
pub(crate) fn read_test<F: Folder>(
    alloc: Global,
    folder: &mut F,
    name: &str,
) -> Result<Litmus, Refusal>
    ensures ok { IfOk result (λ test. tabling.IsTestIn (F.files folder.old).told name.now test) }
    ensures err { IfErr result (IsInputFault Input.Test
        (IsUnread F.Source.remaining F.Source.failed (F.files folder.old) (F.files folder.new) name.now)) }
    ensures read { IsOnlyRead (F.files folder.old) (F.files folder.new) }
{
    let text = match read_text(alloc, folder, name) {
        Ok(text) => text,
        Err(ReadFault::Read) => return Err(Refusal::Unread(Input::Test)),
        Err(ReadFault::OutOfMemory) => return Err(Refusal::OutOfMemory),
    };
    let test = Litmus::parse(alloc, text.as_slice())?;
    Ok(test)
}

/// The table and the totals of the runs of a test: of threads, or by the seeds.
fn collect<R: Threads + Wait + Sync>(
    rt: &R,
    alloc: Global,
    test: &Litmus,
    config: &Config,
    asked: &LitmusRuns<'_>,
) -> Result<Collected, CollectFault>
    ensures ok { IfOk result
        (tabling.IsTableBy asked.now.threads test.now config.now asked.now.runs asked.now.seed asked.now.stress) }
    ensures err { IfErr result (λ fault. ¬ (TellsNo fault)) }
{
    if asked.threads {
        return collect_threaded(rt, alloc, test, config, asked.runs);
    }
    collect_seeded(
        rt,
        alloc,
        test,
        config,
        asked.runs,
        asked.seed,
        asked.stress,
    )
}

/// The table and the totals of the runs that are asked for, or why there are none: 6 of the configuration, and then of
/// the number of runs, comes before the test is read.
fn collected_of<R: Threads + Wait + Sync, F: Folder>(
    rt: &R,
    alloc: Global,
    folder: &mut F,
    asked: &LitmusRuns<'_>,
) -> Result<Collected, Refusal>
    ensures ok { IfOk result (tabling.IsTabled (F.files folder.old).told asked.now) }
    ensures err { IfErr result (IsInputFault Input.Test
        (IsUnread F.Source.remaining F.Source.failed (F.files folder.old) (F.files folder.new) asked.now.test.now)) }
    ensures read { IsOnlyRead (F.files folder.old) (F.files folder.new) }
{
    let config = config_of(&asked.limits)?;
    if asked.runs < 1 || asked.runs > RUN_LIMIT {
        return Err(Refusal::Collect(CollectFault::BadRuns));
    }
    let test = read_test(alloc, folder, asked.test)?;
    Ok(collect(rt, alloc, &test, &config, asked)?)
}

/// The text of the totals, if a file is given for it; else none.
fn text_of(
    alloc: Global,
    statistics: Option<&str>,
    totals: &Numbers,
) -> Result<Vec<u8>, AllocError> {
    match statistics {
        Some(_) => print_totals(alloc, totals),
        None => Ok(Vec::new(alloc)),
    }
}

/// Writes the table of the runs that are asked for, then puts their totals if a file is given for them, and answers whether an outcome
/// is forbidden, or why there is no table: 29 if standard output failed, and then it took a beginning of it, or if the totals can't
/// be put.
pub(crate) fn count_outcomes<R: Threads + Wait + Sync, F: Folder, O: ByteSink>(
    rt: &R,
    alloc: Global,
    folder: &mut F,
    asked: &LitmusRuns<'_>,
    out: &mut O,
) -> Result<CommandAnswer, Refusal>
    ensures { Came (F.files folder.old) (F.files folder.new)
        (IsUnread F.Source.remaining F.Source.failed (F.files folder.old) (F.files folder.new))
        (sink_of O.contents O.failed out.old) (sink_of O.contents O.failed out.new) (request.Litmus asked.now) result }
{
    let collected = collected_of(rt, alloc, folder, asked)?;
    let Ok(text) = text_of(alloc, asked.statistics, &collected.totals) else {
        return Err(Refusal::OutOfMemory);
    };
    write_table(alloc, out, &collected.table)?;
    put_under(
        folder,
        asked.statistics,
        text.as_slice(),
        Output::Statistics,
    )?;
    Ok(CommandAnswer::Counted(has_forbidden(&collected.table)))
}
