//! Reads the words of a command line.

ghost use Rattle.std.specs.Prelude.{◌≡◌, ◌∷◌, ◌↔◌, IfErr, IfOk, IsTrue, [], codes, false, unwrap_or};
ghost use Rattle.clap.specs.Words.{all_of, first_of, found_of, kind_of, one_of, rows_of};
ghost use Rattle.clap.specs.declared.error.kind.ErrorKind.TheVariants as kind;
ghost use Rattle.command_line.specs.Asking as asking;
ghost use Rattle.command_line.specs.Files.{IsApart};
ghost use Rattle.command_line.specs.inner.Names.{is_subcommand};
ghost use Rattle.command_line.specs.inner.Numbers.{HasNumbers, takes_number};

use super::apart::are_apart;
use super::explaining::explaining_of;
use super::grammar::tardis;
use super::misuse::Misuse;
use super::request::{
    Check, Confirm, Limits, LitmusRuns, Order, Replay, Request, Run, Search, Sim, TraceFiles,
    Upgrade,
};
use clap::error::ErrorKind;
use clap::{ArgMatches, Error};
use std::alloc::{AllocError, Global};

/// What the words ask for; the first is the program's own name. Numbers are those of a
/// u64, and another word in the place of one is refused; whether they are in range isn't looked at. Nothing that is asked for takes the
/// place of a file that is read, or of something else that is put.
pub fn read<'a>(alloc: Global, words: &'a [&'a str]) -> Result<Request<'a>, Misuse>
    ensures request { IfOk result (asking.Asks (asking.texts words.entry.now)) }
    ensures apart { IfOk result IsApart }
    ensures usage { IfErr result (asking.IsRefusalOf (asking.texts words.entry.now)) }
{
    let request = request_of(alloc, words)?;
    if !are_apart(alloc, &request)? {
        return Err(misuse(alloc, NOT_APART));
    }
    Ok(request)
}

/// What the user reads about an output that would take the place of another file.
const NOT_APART: &str =
    "error: an output would take the place of a file that is read, of a log or of another output\n\nFor more information, try '--help'.\n";

/// What the words ask for, whatever files it would take the place of.
fn request_of<'a>(alloc: Global, words: &'a [&'a str]) -> Result<Request<'a>, Misuse>
    ensures request { IfOk result (asking.Asks (asking.texts words.entry.now)) }
    ensures usage { IfErr result (asking.IsRefusalOf (asking.texts words.entry.now)) }
{
    if asks_version(words) {
        return Ok(Request::Version);
    }
    let matches = match tardis(alloc)?.try_get_matches_from(words) {
        Ok(matches) => matches,
        Err(error) => return Err(refusal(alloc, &error)),
    };
    let Some((name, asked)) = matches.subcommand() else {
        unreachable!()
    };
    asked_of(alloc, name, asked)
}

/// What the words after the subcommand of this name ask for, or why they ask for nothing.
fn asked_of<'a>(alloc: Global, name: &str, matches: &ArgMatches<'a>) -> Result<Request<'a>, Misuse>
    requires named { IsTrue (is_subcommand name.now) }
    requires numbers { HasNumbers (rows_of (found_of matches.now)) }
    ensures request { IfOk result (asking.IsAskedBy (name.now, rows_of (found_of matches.now))) }
    ensures usage { IfErr result (asking.IsRefusedBy (name.now, rows_of (found_of matches.now))) }
{
    match name {
        "check" => check_of(alloc, matches),
        "order" => order_of(alloc, matches),
        "explain" => explaining_of(alloc, matches),
        "upgrade" => upgrade_of(alloc, matches),
        "sim" => Ok(sim_of(matches)),
        "run" => Ok(run_of(matches)),
        "litmus" => Ok(litmus_of(matches)),
        "search" => search_of(alloc, matches),
        "confirm" => confirm_of(alloc, matches),
        "replay" => Ok(replay_of(matches)),
        _ => unreachable!(),
    }
}

/// Whether `--version` is the only word after the program's own name.
fn asks_version(words: &[&str]) -> bool
    ensures { IsTrue result ↔ asking.AskVersion (asking.texts words.now) }
{
    match words {
        [_, word] => *word == "--version",
        _ => false,
    }
}

/// What the words after `check` ask for.
fn check_of<'a>(alloc: Global, matches: &ArgMatches<'a>) -> Result<Request<'a>, Misuse>
    requires { HasNumbers (rows_of (found_of matches.now)) }
    ensures check { IfOk result (asking.IsAskedBy (codes "check", rows_of (found_of matches.now))) }
    ensures memory { IfErr result (λ misuse. misuse ≡ Misuse.OutOfMemory) }
{
    let files = files_of(alloc, matches)?;
    Ok(Request::Check(Check {
        workers: count_of(matches, "workers", 1),
        program: name_of(matches, "program"),
        files,
    }))
}

/// What the words after `order` ask for.
fn order_of<'a>(alloc: Global, matches: &ArgMatches<'a>) -> Result<Request<'a>, Misuse>
    ensures order { IfOk result (asking.IsAskedBy (codes "order", rows_of (found_of matches.now))) }
    ensures memory { IfErr result (λ misuse. misuse ≡ Misuse.OutOfMemory) }
{
    let files = files_of(alloc, matches)?;
    Ok(Request::Order(Order { files }))
}

/// The refusal of what isn't done, with what the user reads about it.
pub(crate) fn misuse(alloc: Global, text: &str) -> Misuse {
    match String::from_str(alloc, text) {
        Ok(text) => Misuse::Usage(text),
        Err(_) => Misuse::OutOfMemory,
    }
}

/// What the words after `upgrade` ask for.
fn upgrade_of<'a>(alloc: Global, matches: &ArgMatches<'a>) -> Result<Request<'a>, Misuse>
    ensures upgrade { IfOk result (asking.IsAskedBy (codes "upgrade", rows_of (found_of matches.now))) }
    ensures memory { IfErr result (λ misuse. misuse ≡ Misuse.OutOfMemory) }
{
    let files = files_of(alloc, matches)?;
    Ok(Request::Upgrade(Upgrade {
        out: word_of(matches, "OUT"),
        files,
    }))
}

/// What the words after `search` ask for, or why they ask for nothing.
fn search_of<'a>(alloc: Global, matches: &ArgMatches<'a>) -> Result<Request<'a>, Misuse>
    requires { HasNumbers (rows_of (found_of matches.now)) }
    ensures search { IfOk result (asking.IsAskedBy (codes "search", rows_of (found_of matches.now))) }
    ensures usage { IfErr result (asking.IsStrayIn (rows_of (found_of matches.now))) }
{
    let files = files_of(alloc, matches)?;
    let (are_logs, are_sourced) = (flag_of(matches, "logs"), flag_of(matches, "sources"));
    let trace = trace_of(alloc, are_logs, are_sourced, files)?;
    Ok(Request::Search(Search {
        budget: number_of(matches, "budget"),
        order: name_of(matches, "order"),
        refutation: name_of(matches, "refutation"),
        picture: name_of(matches, "svg"),
        names: name_of(matches, "names"),
        trace,
    }))
}

/// What the words after `confirm` ask for, or why they ask for nothing.
fn confirm_of<'a>(alloc: Global, matches: &ArgMatches<'a>) -> Result<Request<'a>, Misuse>
    ensures confirm { IfOk result (asking.IsAskedBy (codes "confirm", rows_of (found_of matches.now))) }
    ensures usage { IfErr result (asking.IsStrayIn (rows_of (found_of matches.now))) }
{
    let first = word_of(matches, "TRACE");
    let files = files_of(alloc, matches)?;
    match (flag_of(matches, "logs"), flag_of(matches, "sources")) {
        (true, true) => Ok(Request::Confirm(Confirm {
            certificate: first,
            trace: TraceFiles::Sourced(files),
        })),
        (true, false) => Ok(Request::Confirm(Confirm {
            certificate: first,
            trace: TraceFiles::Logs(files),
        })),
        (false, true) => Err(misuse(alloc, STRAY_SOURCES)),
        (false, false) => Ok(Request::Confirm(Confirm {
            certificate: only(alloc, files.as_slice(), STRAY_FILE)?,
            trace: TraceFiles::One(first),
        })),
    }
}

/// What the words after `replay` ask for.
fn replay_of<'a>(matches: &ArgMatches<'a>) -> Request<'a>
    ensures { asking.IsAskedBy (codes "replay", rows_of (found_of matches.now)) result }
{
    Request::Replay(Replay {
        why: flag_of(matches, "why"),
        trace: word_of(matches, "TRACE"),
    })
}

/// The files as those of logs, whose sources are taken as given or aren't, or the only one as that of a trace.
fn trace_of<'a>(
    alloc: Global,
    are_logs: bool,
    are_sourced: bool,
    files: Vec<&'a str>,
) -> Result<TraceFiles<'a>, Misuse>
    ensures trace { IfOk result (asking.IsTraceOf are_logs are_sourced (asking.texts files.entry.items)) }
    ensures usage { IfErr result (asking.IsStrayOf are_logs are_sourced (asking.texts files.entry.items)) }
{
    match (are_logs, are_sourced) {
        (true, true) => Ok(TraceFiles::Sourced(files)),
        (true, false) => Ok(TraceFiles::Logs(files)),
        (false, true) => Err(misuse(alloc, STRAY_SOURCES)),
        (false, false) => Ok(TraceFiles::One(only(alloc, files.as_slice(), STRAY_FILE)?)),
    }
}

/// The name of the only file, or the refusal of others, with what the user reads about them.
pub(crate) fn only<'a>(alloc: Global, files: &[&'a str], text: &str) -> Result<&'a str, Misuse>
    ensures one { IfOk result (λ name. asking.texts files.now ≡ name.now ∷ []) }
    ensures usage { IfErr result (asking.IsNotOneOf (asking.texts files.now)) }
{
    match files {
        [name] => Ok(name),
        _ => Err(misuse(alloc, text)),
    }
}

/// What the user reads if there are several files and one is due.
const STRAY_FILE: &str =
    "error: more files than one are read as logs only, with '--logs'\n\nFor more information, try '--help'.\n";

/// What the user reads about sources that aren't those of logs.
const STRAY_SOURCES: &str =
    "error: sources are those of logs, with '--logs'\n\nFor more information, try '--help'.\n";

/// What the words after `sim` ask for.
fn sim_of<'a>(matches: &ArgMatches<'a>) -> Request<'a>
    requires { HasNumbers (rows_of (found_of matches.now)) }
    ensures { asking.IsAskedBy (codes "sim", rows_of (found_of matches.now)) result }
{
    Request::Sim(Sim {
        limits: limits_of(matches),
        schedule: name_of(matches, "schedule"),
        seed: number_of(matches, "seed"),
        stress: number_of(matches, "stress"),
        statistics: name_of(matches, "stats"),
        events: name_of(matches, "trace"),
        programs: word_of(matches, "PROGRAMS"),
        out: word_of(matches, "OUT"),
    })
}

/// What the words after `run` ask for.
fn run_of<'a>(matches: &ArgMatches<'a>) -> Request<'a>
    requires { HasNumbers (rows_of (found_of matches.now)) }
    ensures { asking.IsAskedBy (codes "run", rows_of (found_of matches.now)) result }
{
    Request::Run(Run {
        limits: limits_of(matches),
        statistics: name_of(matches, "stats"),
        programs: word_of(matches, "PROGRAMS"),
        out: word_of(matches, "OUT"),
    })
}

/// What the words after `litmus` ask for.
fn litmus_of<'a>(matches: &ArgMatches<'a>) -> Request<'a>
    requires { HasNumbers (rows_of (found_of matches.now)) }
    ensures { asking.IsAskedBy (codes "litmus", rows_of (found_of matches.now)) result }
{
    Request::Litmus(LitmusRuns {
        limits: limits_of(matches),
        runs: count_of(matches, "runs", 100),
        seed: count_of(matches, "seed", 1),
        stress: number_of(matches, "stress"),
        threads: flag_of(matches, "threads"),
        statistics: name_of(matches, "stats"),
        test: word_of(matches, "TEST"),
    })
}

/// The numbers of the machine.
fn limits_of(matches: &ArgMatches<'_>) -> Limits
    requires { HasNumbers (rows_of (found_of matches.now)) }
    ensures { asking.AreLimits (rows_of (found_of matches.now)) result }
{
    Limits {
        slices: count_of(matches, "slices", 1),
        lease: count_of(matches, "lease", 10),
        period: count_of(matches, "period", 100),
        cache_lines: count_of(matches, "cache", 64),
        slice_lines: count_of(matches, "slice-lines", 64),
        inbox: count_of(matches, "inbox", 8),
    }
}

/// The number that an option gives, or this one where the option isn't there.
fn count_of(matches: &ArgMatches<'_>, name: &str, default: u64) -> u64
    requires named { IsTrue (takes_number name.now) }
    requires numbers { HasNumbers (rows_of (found_of matches.now)) }
    ensures { asking.IsCountOr default (one_of name.now (rows_of (found_of matches.now))) result }
{
    number_of(matches, name).unwrap_or(default)
}

/// The number that an option gives, or none if the option isn't there.
fn number_of(matches: &ArgMatches<'_>, name: &str) -> Option<u64>
    requires named { IsTrue (takes_number name.now) }
    requires numbers { HasNumbers (rows_of (found_of matches.now)) }
    ensures { asking.IsNumberOf (one_of name.now (rows_of (found_of matches.now))) result }
{
    matches.get_one(name)
}

/// Whether an option that takes nothing is there.
pub(crate) fn flag_of(matches: &ArgMatches<'_>, name: &str) -> bool
    ensures { asking.IsFlag (one_of name.now (rows_of (found_of matches.now))) result }
{
    matches.get_flag(name)
}

/// The name of the file that an option gives, or none if the option isn't there.
pub(crate) fn name_of<'a>(matches: &ArgMatches<'a>, option: &str) -> Option<&'a str>
    ensures { asking.text_of result ≡ first_of option.now (rows_of (found_of matches.now)) }
{
    matches.get_str(option)
}

/// The word at this place. It is always there.
fn word_of<'a>(matches: &ArgMatches<'a>, place: &str) -> &'a str
    ensures { result.now ≡ unwrap_or (first_of place.now (rows_of (found_of matches.now))) [] }
{
    name_of(matches, place).unwrap_or("")
}

/// The names of the files.
pub(crate) fn files_of<'a>(
    alloc: Global,
    matches: &ArgMatches<'a>,
) -> Result<Vec<&'a str>, AllocError>
    ensures { IfOk result (λ names. asking.texts names.items
        ≡ unwrap_or (all_of (codes "FILE") (rows_of (found_of matches.now))) []) }
{
    Vec::from_slice(alloc, matches.get_strs("FILE").unwrap_or(&[]))
}

/// The refusal that an error of the reading is.
fn refusal(alloc: Global, error: &Error) -> Misuse
    ensures { kind_of error.now ≡ kind.OutOfMemory → result ≡ Misuse.OutOfMemory }
{
    if error.kind() == ErrorKind::OutOfMemory {
        return Misuse::OutOfMemory;
    }
    match format!(in alloc; "{error}") {
        Ok(text) => Misuse::Usage(text),
        Err(_) => Misuse::OutOfMemory,
    }
}
