//! What is told more of a refusal, below its line.

ghost use Rattle.std.specs.Prelude.{◌≡◌, ◌⊎◌, IsSome};
ghost use Rattle.host_files.specs.Files.{IsOnlyRead};
ghost use Rattle.log_file.specs.Sinks.{sink_of};
ghost use Rattle.command_line.specs.declared.request.Request.TheVariants as request;
ghost use Rattle.commands.specs.inner.Performing.{IsOfInput, IsToldMore};

use super::place::Input;
use super::refusal::Refusal;
use super::refusal_telling::tell_refusal;
use super::refused_file::{RefusedCertificate, RefusedFile, RefusedLog, TextFault};
use command_line::{Confirm, Explain, Request, TraceFiles};
use host_files::Folder;
use log_file::ByteSink;
use refutation::CertificateFault;
use std::alloc::Global;
use verdict::JudgeFault;

/// Tells on standard output more of a refusal, where an explanation or a look at a file was asked for.
pub(crate) fn tell_more<F: Folder, O: ByteSink>(
    alloc: Global,
    folder: &mut F,
    request: &Request<'_>,
    refusal: &Refusal,
    out: &mut O,
)
    ensures read { IsOnlyRead (F.files folder.old) (F.files folder.new) }
    ensures quiet { IsToldMore request.now refusal.now
        ⊎ ((F.files folder.new ≡ F.files folder.old)
        × (sink_of O.contents O.failed out.new ≡ sink_of O.contents O.failed out.old)) }
{
    if let Some(refused) = refused_file(request, refusal) {
        let _ = tell_refusal(alloc, folder, refused, out);
    }
}

/// The file that was refused, if standard output tells more of it: of an explanation, and of a look at a file.
fn refused_file<'a>(request: &'a Request<'a>, refusal: &Refusal) -> Option<RefusedFile<'a>>
    ensures { IsSome result → IsToldMore request.now refusal.now }
{
    match request {
        Request::Explain(asked) => refused_of_logs(asked, refusal),
        Request::Inspect(asked) => refused_of_look(asked.file, refusal),
        Request::Vet(asked) => refused_of_vet(asked, refusal),
        _ => None,
    }
}

/// The file for which these logs aren't explained.
fn refused_of_logs<'a>(asked: &'a Explain<'a>, refusal: &Refusal) -> Option<RefusedFile<'a>>
    ensures { IsSome result → IsToldMore (request.Explain asked.now) refusal.now }
{
    let files = asked.check.files.as_slice();
    match refusal {
        Refusal::Judge(JudgeFault::Log { file, line, fault }) => {
            let log = RefusedLog {
                files,
                file: *file,
                line: *line,
                fault: *fault,
            };
            Some(RefusedFile::Text(*files.get(*file)?, TextFault::Log(log)))
        }
        Refusal::Judge(JudgeFault::Read { file }) => Some(RefusedFile::Unread(*files.get(*file)?)),
        Refusal::Judge(JudgeFault::BadConfig(count)) => Some(RefusedFile::Count(*count)),
        Refusal::Names { line } => Some(RefusedFile::Text(asked.names?, TextFault::Names(*line))),
        Refusal::Unread(Input::Names) => Some(RefusedFile::Unread(asked.names?)),
        _ => refused_of_look(asked.check.program?, refusal),
    }
}

/// The file of this name, where it was refused.
fn refused_of_look<'a>(name: &'a str, refusal: &Refusal) -> Option<RefusedFile<'a>>
    ensures { IsSome result → IsOfInput refusal.now }
{
    match refusal {
        Refusal::Test(fault) => Some(RefusedFile::Text(name, TextFault::Test(*fault))),
        Refusal::Programs(fault) => Some(RefusedFile::Text(name, TextFault::Programs(*fault))),
        Refusal::Trace(fault) => Some(RefusedFile::Text(name, TextFault::Trace(*fault))),
        Refusal::Unread(_) => Some(RefusedFile::Unread(name)),
        _ => None,
    }
}

/// The certificate or the trace for which a look at them was refused.
fn refused_of_vet<'a>(asked: &'a Confirm<'a>, refusal: &Refusal) -> Option<RefusedFile<'a>> {
    let TraceFiles::One(trace) = &asked.trace else {
        return None;
    };
    match refusal {
        Refusal::Certificate(CertificateFault::BadCertificate { line }) => {
            Some(RefusedFile::Certificate(RefusedCertificate {
                name: asked.certificate,
                trace: *trace,
                line: *line,
            }))
        }
        Refusal::Unread(Input::Certificate) => Some(RefusedFile::Unread(asked.certificate)),
        _ => refused_of_look(*trace, refusal),
    }
}
