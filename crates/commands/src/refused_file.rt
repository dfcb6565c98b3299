//! A file that was refused, and how it is read again.

ghost use Rattle.std.specs.Prelude.{◌≡◌, IsSome};
ghost use Rattle.host_files.specs.Files.{IsOnlyRead};

use super::confirm_files::look_at;
use super::text::read_text;
use super::trace_file::read_trace;
use command_line::TraceFiles;
use core_program::{ProgramFault, ProgramSet};
use host_files::Folder;
use litmus::{Litmus, LitmusFault};
use log_file::{FormatFault, LogFault, LogReader};
use mem_op::CoreId;
use refutation::CertificateFault;
use refuted_cases::{Names, NamesFault};
use std::alloc::Global;
use trace::{Trace, TraceFault};
use verdict::Count;

/// A file that was refused, and why.
#[derive(Clone, Copy)]
pub(crate) enum RefusedFile<'a> {
    /// The text in the file of this name.
    Text(&'a str, TextFault<'a>),
    /// A certificate.
    Certificate(RefusedCertificate<'a>),
    /// The file of this name, which can't be opened or read.
    Unread(&'a str),
    /// A set of logs, or the programs beside it: their number is wrong.
    Count(Count),
}

/// What a text isn't, and why.
#[derive(Clone, Copy)]
pub(crate) enum TextFault<'a> {
    /// A log.
    Log(RefusedLog<'a>),
    /// A litmus test.
    Test(LitmusFault),
    /// A set of programs.
    Programs(ProgramFault),
    /// A trace.
    Trace(TraceFault),
    /// The names of addresses, at this line.
    Names(u64),
}

/// A log that was refused.
#[derive(Clone, Copy)]
pub(crate) struct RefusedLog<'a> {
    /// The names of all files of its set, that of core 0 first.
    pub files: &'a [&'a str],
    /// Its number among them, counted from 0.
    pub file: usize,
    /// The line of its first fault, counted from 1.
    pub line: u64,
    /// What is wrong there.
    pub fault: FormatFault,
}

/// A certificate that was refused.
#[derive(Clone, Copy)]
pub(crate) struct RefusedCertificate<'a> {
    /// The name of its file.
    pub name: &'a str,
    /// The name of the file of its trace.
    pub trace: &'a str,
    /// The first line that isn't as it should be, counted from 1.
    pub line: u64,
}

/// The bytes of a text that is read again, if they have the fault for which it was refused; none of a file that can be read once.
pub(crate) fn text_again<F: Folder>(
    alloc: Global,
    folder: &mut F,
    name: &str,
    fault: &TextFault<'_>,
) -> Option<Vec<u8>>
    ensures quiet { IsSome result → F.files folder.new ≡ F.files folder.old }
    ensures read { IsOnlyRead (F.files folder.old) (F.files folder.new) }
{
    let bytes = read_text(alloc, folder, name).ok()?;
    if has_fault(alloc, bytes.as_slice(), fault) {
        return Some(bytes);
    }
    None
}

/// Whether the first fault of a text is this one.
fn has_fault(alloc: Global, text: &[u8], fault: &TextFault<'_>) -> bool {
    match fault {
        TextFault::Log(log) => {
            fault_of_log(alloc, log, text) == Some(LogFault::At(log.line, log.fault))
        }
        TextFault::Test(fault) => Litmus::parse(alloc, text).err() == Some(*fault),
        TextFault::Programs(fault) => ProgramSet::parse(alloc, text).err() == Some(*fault),
        TextFault::Trace(fault) => Trace::parse(alloc, text).err() == Some(*fault),
        TextFault::Names(line) => {
            Names::parse(alloc, text).err() == Some(NamesFault::BadLine { line: *line })
        }
    }
}

/// The first fault of a text in the place of a log, if it has one.
fn fault_of_log(alloc: Global, log: &RefusedLog<'_>, text: &[u8]) -> Option<LogFault> {
    let core = CoreId::new(log.file as u64).ok()?;
    let mut reader = LogReader::new(alloc, core, log.files.len() as u64);
    if let Err(fault) = reader.feed(text) {
        return Some(fault);
    }
    reader.finish().err()
}

/// The trace and the bytes of a certificate that are read again, where the certificate has this fault.
pub(crate) fn certificate_again<F: Folder>(
    alloc: Global,
    folder: &mut F,
    refused: RefusedCertificate<'_>,
) -> Option<(Trace, Vec<u8>)>
    ensures { IsOnlyRead (F.files folder.old) (F.files folder.new) }
{
    let trace = read_trace(alloc, folder, refused.trace).ok()?;
    let bytes = read_text(alloc, folder, refused.name).ok()?;
    let files = TraceFiles::One(refused.trace);
    match look_at(alloc, &files, &trace, bytes.as_slice()) {
        Err(CertificateFault::BadCertificate { line }) if line == refused.line => {
            Some((trace, bytes))
        }
        _ => None,
    }
}
