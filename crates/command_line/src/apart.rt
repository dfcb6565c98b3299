//! Whether what a request puts takes the place of no file that it reads, and of nothing else that it puts.

ghost use Rattle.std.specs.Prelude.{◌≡◌, ◌∷◌, ◌↔◌, ◌++◌, IfOk, IsTrue, []};
ghost use Rattle.command_line.specs.Asking.{text_of, texts};
ghost use Rattle.command_line.specs.Files as files;

use super::log_names::{has_log_name, is_among};
use super::request::{Request, TraceFiles};
use std::alloc::{AllocError, Global};

/// Whether the names that a request puts are apart from each other and from those that it reads. Err if memory was refused.
pub(crate) fn are_apart(alloc: Global, request: &Request<'_>) -> Result<bool, AllocError>
    ensures { IfOk result (λ are. IsTrue are ↔ files.IsApart request.now) }
{
    let mut names = files_read(alloc, request)?;
    let put = files_put(alloc, request)?;
    if !are_new(put.as_slice(), names.as_slice()) {
        return Ok(false);
    }
    let Some(out) = logs_put(request) else {
        return Ok(true);
    };
    names.extend_from_slice(put.as_slice())?;
    Ok(!has_log_name(alloc, out, names.as_slice())?)
}

/// Whether none of the names that are put is one that is read, and no two of them are the same.
fn are_new(put: &[&str], read: &[&str]) -> bool
    ensures { IsTrue result ↔ (files.AreKept (texts read.now) (texts put.now) × files.AreOnce (texts put.now)) }
{
    match put {
        [name, more @ ..] => !is_among(name, read) && !is_among(name, more) && are_new(more, read),
        [] => true,
    }
}

/// The names of the files that a request reads. Err if memory was refused.
fn files_read<'a>(alloc: Global, request: &Request<'a>) -> Result<Vec<&'a str>, AllocError>
    ensures { IfOk result (λ names. texts names.items ≡ files.files_read request.now) }
{
    match request {
        Request::Check(asked) => names_of(alloc, &[asked.program], asked.files.as_slice()),
        Request::Order(asked) => names_of(alloc, &[], asked.files.as_slice()),
        Request::Explain(asked) => {
            let given = [asked.check.program, asked.names];
            names_of(alloc, &given, asked.check.files.as_slice())
        }
        Request::Inspect(asked) => names_of(alloc, &[], &[asked.file]),
        Request::Upgrade(asked) => names_of(alloc, &[], asked.files.as_slice()),
        Request::Sim(asked) => names_of(alloc, &[asked.schedule], &[asked.programs]),
        Request::Run(asked) => names_of(alloc, &[], &[asked.programs]),
        Request::Litmus(asked) => names_of(alloc, &[], &[asked.test]),
        Request::Search(asked) => names_of_trace(alloc, asked.names, &asked.trace),
        Request::Confirm(asked) | Request::Vet(asked) => {
            names_of_trace(alloc, Some(asked.certificate), &asked.trace)
        }
        Request::Replay(asked) => names_of(alloc, &[], &[asked.trace]),
        Request::Version => Ok(Vec::new(alloc)),
    }
}

/// The names of the files that a request puts, but for logs. Err if memory was refused.
fn files_put<'a>(alloc: Global, request: &Request<'a>) -> Result<Vec<&'a str>, AllocError>
    ensures { IfOk result (λ names. texts names.items ≡ files.files_put request.now) }
{
    match request {
        Request::Explain(asked) => names_of(alloc, &[asked.picture], &[]),
        Request::Sim(asked) => names_of(alloc, &[asked.statistics, asked.events], &[]),
        Request::Run(asked) => names_of(alloc, &[asked.statistics], &[]),
        Request::Litmus(asked) => names_of(alloc, &[asked.statistics], &[]),
        Request::Search(asked) => {
            names_of(alloc, &[asked.order, asked.refutation, asked.picture], &[])
        }
        _ => Ok(Vec::new(alloc)),
    }
}

/// What the names of the logs begin with that a request puts, if it puts logs.
fn logs_put<'a>(request: &Request<'a>) -> Option<&'a str>
    ensures { text_of result ≡ files.logs_put request.now }
{
    match request {
        Request::Upgrade(asked) => Some(asked.out),
        Request::Sim(asked) => Some(asked.out),
        Request::Run(asked) => Some(asked.out),
        _ => None,
    }
}

/// The names of the files of a trace, behind that of another file, if one is given. Err if memory was refused.
fn names_of_trace<'a>(
    alloc: Global,
    given: Option<&'a str>,
    trace: &TraceFiles<'a>,
) -> Result<Vec<&'a str>, AllocError>
    ensures { IfOk result (λ names. texts names.items ≡ files.names_given (given.entry ∷ []) ++ files.names_of trace.now) }
{
    match trace {
        TraceFiles::One(name) => names_of(alloc, &[given], &[*name]),
        TraceFiles::Logs(names) | TraceFiles::Sourced(names) => {
            names_of(alloc, &[given], names.as_slice())
        }
    }
}

/// The names of the files that were given, and behind them these. Err if memory was refused.
fn names_of<'a>(
    alloc: Global,
    given: &[Option<&'a str>],
    more: &[&'a str],
) -> Result<Vec<&'a str>, AllocError>
    ensures { IfOk result (λ names. texts names.items ≡ files.names_given given.now ++ texts more.now) }
{
    let mut names = Vec::new(alloc);
    for file in given {
        if let Some(name) = file {
            names.push(*name)?;
        }
    }
    names.extend_from_slice(more)?;
    Ok(names)
}
