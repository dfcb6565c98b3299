//! The words about a file that was refused.

ghost use Rattle.std.specs.Prelude.{IsSome, IsTrue};
ghost use Rattle.host_files.specs.Files.{IsOnlyRead};

use super::first_operations::first_text;
use super::refused_file::{
    RefusedCertificate, RefusedFile, TextFault, certificate_again, text_again,
};
use host_files::Folder;
use litmus::LitmusFault;
use log_file::{ByteSink, FormatFault, write_all};
use std::alloc::{AllocError, Global};
use telling::{Kind, Place, Refused, Telling};
use trace::TraceFault;
use verdict::Count;

/// Tells on standard output more of the refusal of a file: where its fault is, how the line there is written, and what is wrong with it.
/// A file that could be read is read again for that. A write that fails is passed over. Err if there is no memory, and then nothing is told.
pub(crate) fn tell_refusal<F: Folder, O: ByteSink>(
    alloc: Global,
    folder: &mut F,
    refused: RefusedFile<'_>,
    out: &mut O,
) -> Result<(), AllocError>
    ensures { IsOnlyRead (F.files folder.old) (F.files folder.new) }
{
    let text = refusal_text(alloc, folder, refused)?;
    let _ = write_all(out, text.as_bytes());
    Ok(())
}

/// The words about it.
fn refusal_text<F: Folder>(
    alloc: Global,
    folder: &mut F,
    refused: RefusedFile<'_>,
) -> Result<String, AllocError>
    ensures { IsOnlyRead (F.files folder.old) (F.files folder.new) }
{
    match refused {
        RefusedFile::Text(name, fault) => text_text(alloc, folder, name, fault),
        RefusedFile::Certificate(refused) => certificate_text(alloc, folder, refused),
        RefusedFile::Unread(name) => format!(in alloc; "{name}: it can't be opened or read.\n"),
        RefusedFile::Count(count) => count_text(alloc, count),
    }
}

/// The words about a text, and of a log that is cut off what comes before.
fn text_text<F: Folder>(
    alloc: Global,
    folder: &mut F,
    name: &str,
    fault: TextFault<'_>,
) -> Result<String, AllocError>
    ensures { IsOnlyRead (F.files folder.old) (F.files folder.new) }
{
    let bytes = text_again(alloc, folder, name, &fault);
    let cut_off = files_cut_off(&fault, bytes.is_some());
    let text = fault_text(alloc, name, fault, bytes)?;
    match cut_off {
        Some(files) => {
            let first = first_text(alloc, folder, files)?;
            with_more(text, first.as_str())
        }
        None => Ok(text),
    }
}

/// The files of the set of a log that is cut off, if it could be read again.
fn files_cut_off<'a>(fault: &TextFault<'a>, is_read: bool) -> Option<&'a [&'a str]>
    ensures { IsSome result → IsTrue is_read }
{
    match fault {
        TextFault::Log(log) if is_read && log.fault == FormatFault::Truncated => Some(log.files),
        _ => None,
    }
}

/// The words about the fault of the text in the file of this name, whose bytes these are if it could be read again.
fn fault_text(
    alloc: Global,
    name: &str,
    fault: TextFault<'_>,
    bytes: Option<Vec<u8>>,
) -> Result<String, AllocError> {
    let Some((line, refused)) = place_of(fault) else {
        return Ok(String::new(alloc));
    };
    let telling = Telling {
        place: Place { file: name, line },
        read: bytes.as_ref().map(|bytes| (refused, bytes.as_slice())),
    };
    telling.print(alloc)
}

/// The line of a fault, and what is wrong there; none where memory was refused.
fn place_of(fault: TextFault<'_>) -> Option<(u64, Refused<'static>)> {
    match fault {
        TextFault::Log(log) => {
            let refused = Refused::Log {
                file: log.file,
                files: log.files.len(),
                fault: log.fault,
            };
            Some((log.line, refused))
        }
        TextFault::Test(fault) => place_in_test(Kind::Litmus, fault),
        TextFault::Programs(fault) => place_in_test(Kind::Programs, LitmusFault::from(fault)),
        TextFault::Trace(TraceFault::BadTraceLine { line }) => Some((line, Refused::BadTraceLine)),
        TextFault::Trace(TraceFault::TooMany { line }) => Some((line, Refused::TooMany)),
        TextFault::Trace(TraceFault::OutOfMemory) => None,
        TextFault::Names(line) => Some((line, Refused::BadNamesLine)),
    }
}

/// The same of a text of this kind. A fault of a set of programs is told as that of a test with these programs.
fn place_in_test(kind: Kind, fault: LitmusFault) -> Option<(u64, Refused<'static>)> {
    match fault {
        LitmusFault::BadLitmusLine(line) | LitmusFault::BadLine(line) => {
            Some((line, Refused::BadLine(kind)))
        }
        LitmusFault::TooLong(line) => Some((line, Refused::TooLong)),
        LitmusFault::SkipPastEnd(line) => Some((line, Refused::SkipPastEnd)),
        LitmusFault::OutOfMemory => None,
    }
}

/// The words about a certificate.
fn certificate_text<F: Folder>(
    alloc: Global,
    folder: &mut F,
    refused: RefusedCertificate<'_>,
) -> Result<String, AllocError>
    ensures { IsOnlyRead (F.files folder.old) (F.files folder.new) }
{
    let read = certificate_again(alloc, folder, refused);
    let place = Place {
        file: refused.name,
        line: refused.line,
    };
    let telling = Telling {
        place,
        read: read.as_ref().map(|read| (Refused::BadCertificate(&read.0), read.1.as_slice())),
    };
    telling.print(alloc)
}

/// A text with more after it.
fn with_more(mut text: String, more: &str) -> Result<String, AllocError> {
    text.push_str(more)?;
    Ok(text)
}

/// The words about a number of files or programs that is wrong.
fn count_text(alloc: Global, count: Count) -> Result<String, AllocError> {
    let words = match count {
        Count::Programs => {
            "The file of the programs has those of another number of cores than there are logs.\n"
        }
        Count::Files => "A set has 1 to 64 logs, one of each core.\n",
        Count::Workers => "",
    };
    String::from_str(alloc, words)
}
