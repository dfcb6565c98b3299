//! The look at a certificate.

ghost use Rattle.std.specs.Prelude.{◌≡◌, IfErr, IfOk};
ghost use Rattle.command_line.specs.declared.request.Request.TheVariants as request;
ghost use Rattle.host_files.specs.Files.{IsOnlyRead, IsUnread};
ghost use Rattle.log_file.specs.Sinks.{sink_of};
ghost use Rattle.commands.specs.Confirming.{Certifies, TellsBoth};
ghost use Rattle.commands.specs.inner.Performing.{Came, IsReadFault};

use super::answer::CommandAnswer;
use super::order_certificate::first_bad_line_of_order;
use super::output::print_answer;
use super::place::Input;
use super::refusal::Refusal;
use super::search_answer::SearchAnswer;
use super::text::read_text;
use super::trace_files::read_files;
use command_line::{Confirm, TraceFiles};
use decimal_text::after_text;
use host_files::Folder;
use log_file::{ByteSink, ReadFault};
use refutation::{CertificateFault, first_bad_line};
use std::alloc::Global;
use telling::count_of;
use trace::Trace;

/// The first line of a refutation's text.
const HEADER: &[u8] = b"tardis-refutation 1\n";

/// Looks whether the certificate in a file of the folder holds of the trace in others, and prints the answer that it gives. The trace is
/// read first, and 43 comes with the first line of the certificate that isn't as it should be.
pub(crate) fn confirm<F: Folder, O: ByteSink>(
    alloc: Global,
    folder: &mut F,
    asked: &Confirm<'_>,
    out: &mut O,
) -> Result<CommandAnswer, Refusal>
    ensures { Came (F.files folder.old) (F.files folder.new)
        (IsUnread F.Source.remaining F.Source.failed (F.files folder.old) (F.files folder.new))
        (sink_of O.contents O.failed out.old) (sink_of O.contents O.failed out.new) (request.Confirm asked.now) result }
{
    let answer = answer_of(alloc, folder, asked)?;
    print_answer(alloc, out, CommandAnswer::Searched(answer))
}

/// Looks whether the certificate holds, as `confirm` does, and prints that it is right.
pub(crate) fn vet<F: Folder, O: ByteSink>(
    alloc: Global,
    folder: &mut F,
    asked: &Confirm<'_>,
    out: &mut O,
) -> Result<CommandAnswer, Refusal>
    ensures { Came (F.files folder.old) (F.files folder.new)
        (IsUnread F.Source.remaining F.Source.failed (F.files folder.old) (F.files folder.new))
        (sink_of O.contents O.failed out.old) (sink_of O.contents O.failed out.new) (request.Vet asked.now) result }
{
    let answer = answer_of(alloc, folder, asked)?;
    print_answer(alloc, out, CommandAnswer::Certified(answer))
}

/// The answer that the certificate gives of the trace.
fn answer_of<F: Folder>(
    alloc: Global,
    folder: &mut F,
    asked: &Confirm<'_>,
) -> Result<SearchAnswer, Refusal>
    ensures ok { IfOk result (λ answer. TellsBoth (F.files folder.old).told asked.now
        (λ cores text. Certifies asked.now.trace cores text answer)) }
    ensures err { IfErr result (IsReadFault
        (IsUnread F.Source.remaining F.Source.failed (F.files folder.old) (F.files folder.new)) (request.Confirm asked.now)) }
    ensures read { IsOnlyRead (F.files folder.old) (F.files folder.new) }
{
    let read = read_files(alloc, folder, &asked.trace)?;
    let text = match read_text(alloc, folder, asked.certificate) {
        Ok(text) => text,
        Err(ReadFault::Read) => return Err(Refusal::Unread(Input::Certificate)),
        Err(ReadFault::OutOfMemory) => return Err(Refusal::OutOfMemory),
    };
    match look_at(alloc, &asked.trace, &read.trace, text.as_slice()) {
        Ok(answer) => Ok(answer),
        Err(CertificateFault::OutOfMemory) => Err(Refusal::OutOfMemory),
        Err(fault) => Err(Refusal::Certificate(fault)),
    }
}

/// The answer that a certificate gives of the trace in these files, or its first line that isn't as it should be.
pub(crate) fn look_at(
    alloc: Global,
    files: &TraceFiles<'_>,
    trace: &Trace,
    text: &[u8],
) -> Result<SearchAnswer, CertificateFault>
    ensures { IfOk result (Certifies files.now trace.now text.now) }
{
    let operations = count_of(trace) as u64;
    match after_text(HEADER, text) {
        Some(_) => match first_bad_line(alloc, trace, text)? {
            None => Ok(SearchAnswer::no_of(files, operations)),
            Some(line) => Err(CertificateFault::BadCertificate { line }),
        },
        None => match first_bad_line_of_order(alloc, trace, text)? {
            None => Ok(SearchAnswer::Yes(operations)),
            Some(line) => Err(CertificateFault::BadCertificate { line }),
        },
    }
}
