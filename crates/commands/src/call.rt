//! One call of the program.

ghost use Rattle.std.specs.Prelude.{◌≡◌, ◌<◌, ◌≤◌, ◌⊎◌};
ghost use Rattle.host_files.specs.Files.{IsUnread};
ghost use Rattle.command_line.specs.Asking.{texts};
ghost use Rattle.commands.specs.Promises as promises;
ghost use Rattle.commands.specs.inner.Performing.{Came};

use super::answer::CommandAnswer;
use super::check_files::check;
use super::confirm_files::{confirm, vet};
use super::explain_files::explain;
use super::inspect_files::inspect;
use super::litmus_files::count_outcomes;
use super::more::tell_more;
use super::order_files::order;
use super::output::{print_answer, refuse, tell_answer, tell_usage};
use super::refusal::Refusal;
use super::replay_file::{ReplayWatch, replay};
use super::run_files::run;
use super::search_files::search;
use super::sim_files::sim;
use super::upgrade_files::upgrade;
use super::watch::Watch;
use command_line::{Misuse, Request, read};
use host_files::Folder;
use log_file::ByteSink;
use search::SearchWatch;
use std::alloc::Global;
use std::sync::Wait;
use std::thread::Threads;

/// The exit status of a call whose words aren't a command line of the program.
const USAGE: u8 = 3;

/// Does what the words of a command line ask for; the first word is the program's own name. It answers the exit status: 0 for Yes or
/// done; 1 for No or a forbidden outcome; 2 if a log, the programs, the schedule, the test, the trace or the certificate is refused; 3 if
/// the words are, or a number is out of range; else 4.
///
/// An answer goes to standard output, and a refusal to standard error; so does the verdict of an order, which itself goes to standard
/// output. If an explanation, or a look at a file, is refused, standard output tells more. The only files that it puts into the folder are
/// the logs of a run or of an upgrade, a run's numbers and events, the totals of a litmus test's runs, the picture of an explanation, and
/// what a search finds.
pub fn command<
    R: Threads + Wait + Sync,
    W: Watch + SearchWatch + ReplayWatch + Sync,
    F: Folder,
    O: ByteSink,
    E: ByteSink,
>(rt: &R, alloc: Global, words: &[&str], watch: &W, folder: &mut F, out: &mut O, err: &mut E) -> u8
    ensures answered { result < 2 → promises.AskFor (texts words.entry.now) (λ asked. promises.IsAnswered
        (F.files folder.old) (F.files folder.new)
        (promises.sink_of O.contents O.failed out.old) (promises.sink_of O.contents O.failed out.new) asked result) }
    ensures aside { result < 2 → promises.AskFor (texts words.entry.now) (λ asked. promises.AreToldAside (F.files folder.old).told
        (promises.sink_of E.contents E.failed err.old) (promises.sink_of E.contents E.failed err.new) asked result) }
    ensures files { promises.KeepsFiles (F.files folder.old).told (F.files folder.new).told
        (λ name. promises.AskFor (texts words.entry.now) (λ asked. promises.IsPutUnread asked name)) }
    ensures refused { 2 ≤ result → promises.AreUnasked (F.files folder.old) (F.files folder.new)
        (texts words.entry.now) (promises.sink_of O.contents O.failed out.old) (promises.sink_of O.contents O.failed out.new)
        (promises.sink_of E.contents E.failed err.old) (promises.sink_of E.contents E.failed err.new) result
        ⊎ promises.AskFor (texts words.entry.now) (promises.IsRefusedCall (F.files folder.old) (F.files folder.new)
        (IsUnread F.Source.remaining F.Source.failed (F.files folder.old) (F.files folder.new))
        (promises.sink_of O.contents O.failed out.old) (promises.sink_of O.contents O.failed out.new)
        (promises.sink_of E.contents E.failed err.old) (promises.sink_of E.contents E.failed err.new) result) }
{
    let request = match read(alloc, words) {
        Ok(request) => request,
        Err(Misuse::Usage(text)) => {
            tell_usage(err, text.as_str());
            return USAGE;
        }
        Err(Misuse::OutOfMemory) => {
            return refuse(alloc, err, Refusal::OutOfMemory);
        }
    };
    match perform(rt, alloc, &request, watch, folder, out) {
        Ok(answer) => tell_answer(err, &answer),
        Err(refusal) => {
            let status = refuse(alloc, err, refusal);
            tell_more(alloc, folder, &request, &refusal, out);
            status
        }
    }
}

/// Does what was asked, and prints the answer.
fn perform<
    R: Threads + Wait + Sync,
    W: Watch + SearchWatch + ReplayWatch + Sync,
    F: Folder,
    O: ByteSink,
>(
    rt: &R,
    alloc: Global,
    request: &Request<'_>,
    watch: &W,
    folder: &mut F,
    out: &mut O,
) -> Result<CommandAnswer, Refusal>
    ensures { Came (F.files folder.old) (F.files folder.new)
        (IsUnread F.Source.remaining F.Source.failed (F.files folder.old) (F.files folder.new))
        (promises.sink_of O.contents O.failed out.old) (promises.sink_of O.contents O.failed out.new) request.now result }
{
    match request {
        Request::Check(asked) => check(rt, alloc, folder, asked, out),
        Request::Order(asked) => order(alloc, folder, asked, out),
        Request::Explain(asked) => explain(rt, alloc, watch, folder, asked, out),
        Request::Inspect(asked) => inspect(alloc, folder, asked, out),
        Request::Sim(asked) => sim(alloc, folder, asked, out),
        Request::Run(asked) => run(rt, alloc, watch, folder, asked, out),
        Request::Upgrade(asked) => upgrade(alloc, folder, asked, out),
        Request::Search(asked) => search(alloc, watch, folder, asked, out),
        Request::Confirm(asked) => confirm(alloc, folder, asked, out),
        Request::Vet(asked) => vet(alloc, folder, asked, out),
        Request::Replay(asked) => replay(alloc, watch, folder, asked, out),
        Request::Version => print_answer(alloc, out, CommandAnswer::Version),
        Request::Litmus(asked) => count_outcomes(rt, alloc, folder, asked, out),
    }
}
