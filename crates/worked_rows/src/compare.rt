//! What a call did, compared with what it should do.

use super::call::Done;
use super::fault::RowsFault;
use rows::{File, Wanted};
use std::fmt;

/// What a call should do.
#[derive(Clone, Copy)]
pub(crate) struct Expected<'a> {
    /// The line of its row.
    pub(crate) line: usize,
    pub(crate) status: u8,
    pub(crate) printed: &'a str,
    pub(crate) told: &'a str,
}

impl<'a> Expected<'a> {
    /// What a row says of its call.
    pub(crate) fn of(wanted: &'a Wanted) -> Expected<'a> {
        Expected {
            line: wanted.line,
            status: wanted.status,
            printed: wanted.printed.as_str(),
            told: wanted.told.as_str(),
        }
    }
}

/// Whether a text is as it should be. In the expected text, a line that ends with `*` stands for any line that begins so,
/// and the line `**` for all that is left.
pub(crate) fn is_like(expected: &str, found: &str) -> bool {
    if !expected.contains('*') {
        return found == expected;
    }
    let mut wanted = expected.lines();
    for line in found.lines() {
        match wanted.next() {
            Some("**") => return true,
            Some(expected) if is_like_line(expected, line) => {}
            _ => return false,
        }
    }
    matches!(wanted.next(), None | Some("**"))
}

/// Whether a line is as it should be.
fn is_like_line(expected: &str, line: &str) -> bool {
    match expected.strip_suffix('*') {
        Some(beginning) => line.starts_with(beginning),
        None => line == expected,
    }
}

/// Whether a call did what it should; if not, prints what it did instead.
pub(crate) fn compare<R: Print>(
    rt: &R,
    words: &[&str],
    expected: &Expected<'_>,
    done: &Done,
) -> Result<bool, RowsFault> {
    let has_ended = done.status == expected.status;
    let has_printed = is_like(expected.printed, done.printed.as_str());
    let has_told = is_like(expected.told, done.told.as_str());
    let is_good = has_ended && has_printed && has_told;
    if !is_good {
        println!(rt; "line {}: {words:?}", expected.line)?;
    }
    if !has_ended {
        println!(rt; "it ended with {}, not {}", done.status, expected.status)?;
    }
    if !has_printed {
        println!(rt; "it printed {:?}, not {:?}", done.printed, expected.printed)?;
    }
    if !has_told {
        println!(rt; "it told {:?}, not {:?}", done.told, expected.told)?;
    }
    Ok(is_good)
}

/// Whether a file that was put is as it should be: if the one line `**` is expected, any text is.
fn is_put(wanted: &File, put: &File) -> bool {
    wanted.name.as_str() == put.name.as_str()
        && (wanted.bytes.as_slice() == b"**\n".as_slice()
            || wanted.bytes.as_slice() == put.bytes.as_slice())
}

/// Whether just the files were put that should be; if not, prints how many were put, or which one is different.
pub(crate) fn compare_files<R: Print>(
    rt: &R,
    line: usize,
    wanted: &[File],
    put: &[File],
) -> Result<bool, RowsFault> {
    let mut is_good = wanted.len() == put.len();
    if !is_good {
        println!(rt;
            "line {line}: it put {} files, not {}",
            put.len(),
            wanted.len()
        )?;
    }
    for (one, other) in wanted.iter().zip(put) {
        if !is_put(one, other) {
            is_good = false;
            println!(rt; "line {line}: it put {}, not {}", Shown(other), Shown(one))?;
        }
    }
    Ok(is_good)
}

/// A file: its name, and its text.
#[derive(Clone, Copy)]
struct Shown<'a>(&'a File);

impl<'a> fmt::Display for Shown<'a> {
    fn fmt<W: fmt::Write>(&self, f: &mut fmt::Formatter<W>) -> fmt::Result {
        let (name, text) = (&self.0.name, str::from_utf8(self.0.bytes.as_slice()));
        write!(f, "{name} of {text:?}")
    }
}
