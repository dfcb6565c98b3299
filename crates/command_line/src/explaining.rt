//! What the words after `explain` ask for.

ghost use Rattle.std.specs.Prelude.{◌≡◌, ◌∷◌, IfErr, IfOk, IsOk, IsTrue, None, Some, [], codes, false};
ghost use Rattle.clap.specs.Words.{found_of, rows_of};
ghost use Rattle.command_line.specs.Asking as asking;

use super::misuse::Misuse;
use super::request::{Check, Confirm, Explain, FileKind, Inspect, Request, TraceFiles};
use super::words::{files_of, flag_of, misuse, name_of, only};
use clap::ArgMatches;
use std::alloc::Global;

/// What the words after `explain` ask for, or why they ask for nothing.
pub(crate) fn explaining_of<'a>(
    alloc: Global,
    matches: &ArgMatches<'a>,
) -> Result<Request<'a>, Misuse>
    ensures asked { IfOk result (asking.IsAskedBy (codes "explain", rows_of (found_of matches.now))) }
    ensures usage { IfErr result (asking.IsMixedIn (rows_of (found_of matches.now))) }
{
    let (litmus, programs) = (flag_of(matches, "litmus"), flag_of(matches, "programs"));
    let (trace, certificate) = (flag_of(matches, "trace"), name_of(matches, "certificate"));
    match (litmus, programs, trace, certificate) {
        (false, false, false, None) => explain_of(alloc, matches),
        (true, false, false, None) => inspect_of(alloc, matches, FileKind::Litmus),
        (false, true, false, None) => inspect_of(alloc, matches, FileKind::Programs),
        (false, false, true, None) => inspect_of(alloc, matches, FileKind::Trace),
        (false, false, false, Some(certificate)) => vet_of(alloc, matches, certificate),
        _ => Err(misuse(alloc, NOT_ALONE)),
    }
}

/// What is asked of the one file that is given, whose kind a flag tells, or why nothing is.
fn inspect_of<'a>(
    alloc: Global,
    matches: &ArgMatches<'a>,
    kind: FileKind,
) -> Result<Request<'a>, Misuse>
    requires { asking.AreMarked (asking.is_litmus kind) (asking.is_programs kind) (asking.is_trace kind) None
        (rows_of (found_of matches.now)) }
    ensures asked { IfOk result (asking.IsAskedBy (codes "explain", rows_of (found_of matches.now))) }
    ensures usage { IfErr result (asking.IsMixedIn (rows_of (found_of matches.now))) }
{
    let file = alone(alloc, matches)?;
    Ok(Request::Inspect(Inspect { kind, file }))
}

/// What is asked of this certificate and the trace in the one file that is given, or why nothing is.
fn vet_of<'a>(
    alloc: Global,
    matches: &ArgMatches<'a>,
    certificate: &'a str,
) -> Result<Request<'a>, Misuse>
    requires { asking.AreMarked false false false (Some certificate.now) (rows_of (found_of matches.now)) }
    ensures asked { IfOk result (asking.IsAskedBy (codes "explain", rows_of (found_of matches.now))) }
    ensures usage { IfErr result (asking.IsMixedIn (rows_of (found_of matches.now))) }
{
    let trace = TraceFiles::One(alone(alloc, matches)?);
    Ok(Request::Vet(Confirm { certificate, trace }))
}

/// The name of the one file that is given, without an option that is of logs, or the refusal of others.
fn alone<'a>(alloc: Global, matches: &ArgMatches<'a>) -> Result<&'a str, Misuse>
    ensures one { IfOk result (λ name. asking.files_given (rows_of (found_of matches.now)) ≡ name.now ∷ []) }
    ensures lack { IsOk result → asking.LackLogOptions (rows_of (found_of matches.now)) }
    ensures usage { IfErr result (asking.IsNotAloneOf (rows_of (found_of matches.now))) }
{
    let files = files_of(alloc, matches)?;
    if has_log_option(matches) {
        return Err(misuse(alloc, NOT_ALONE));
    }
    only(alloc, files.as_slice(), NOT_ALONE)
}

/// Whether an option is there that is of logs.
fn has_log_option(matches: &ArgMatches<'_>) -> bool
    ensures some { IsTrue result → asking.HaveLogOption (rows_of (found_of matches.now)) }
    ensures none { result ≡ false → asking.LackLogOptions (rows_of (found_of matches.now)) }
{
    if name_of(matches, "program").is_some() || name_of(matches, "svg").is_some() {
        return true;
    }
    name_of(matches, "names").is_some() || flag_of(matches, "no-search")
}

/// What the user reads if a file that isn't a log isn't the only one, or options stand beside it that are of logs.
const NOT_ALONE: &str =
    "error: with '--litmus', '--programs', '--trace' or '--certificate' one FILE is given, and no other option\n\nFor more information, try '--help'.\n";

/// What the words after `explain` ask for of logs.
fn explain_of<'a>(alloc: Global, matches: &ArgMatches<'a>) -> Result<Request<'a>, Misuse>
    requires { asking.AreMarked false false false None (rows_of (found_of matches.now)) }
    ensures asked { IfOk result (asking.IsAskedBy (codes "explain", rows_of (found_of matches.now))) }
    ensures memory { IfErr result (λ misuse. misuse ≡ Misuse.OutOfMemory) }
{
    let check = Check {
        workers: 1,
        program: name_of(matches, "program"),
        files: files_of(alloc, matches)?,
    };
    Ok(Request::Explain(Explain {
        check,
        picture: name_of(matches, "svg"),
        names: name_of(matches, "names"),
        no_search: flag_of(matches, "no-search"),
    }))
}
