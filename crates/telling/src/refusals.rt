//! The words about a file that was refused: the line of the fault, what it should be, and what has usually gone wrong.

ghost use Rattle.std.specs.Prelude.{◌≡◌, ◌++◌, ℕ, List, IfOk, string_bytes};
ghost use Rattle.telling.specs.Places.{place_text};

use super::certificates::push_certificate_line;
use super::logs::push_log;
use super::names::push_names_line;
use super::programs::push_bad_line;
use super::shown::{Bytes, Written};
use super::slips::RefusedLine;
use super::traces::push_trace_line;
use log_file::{FormatFault, line_of};
use std::alloc::{AllocError, Global};
use std::fmt::Display;
use std::{fmt, str};
use trace::Trace;

/// Where a fault is: a line of a file.
#[derive(Clone, Copy)]
pub struct Place<'a> {
    /// The name of the file.
    pub file: &'a str,
    /// The number of the line, counted from 1.
    pub line: u64,
}

impl<'a> Display for Place<'a> {
    ghost use Rattle.std.specs.Prelude.{Some};
    ghost use Rattle.telling.specs.Places.{place_text};

    ghost output = { λ place. Some (place_text place.file.now place.line) };

    fn fmt<W: fmt::Write>(&self, f: &mut fmt::Formatter<W>) -> fmt::Result {
        write!(f, "{} line {}: ", self.file, self.line)
    }
}

/// What a text of programs has to be.
#[derive(Clone, Copy, PartialEq, Eq)]
pub enum Kind {
    /// A set of programs.
    Programs,
    /// A litmus test.
    Litmus,
}

/// What was refused, and why.
#[derive(Clone, Copy)]
pub enum Refused<'a> {
    /// A log, the one of this number of so many, counted from 0.
    Log {
        file: usize,
        files: usize,
        fault: FormatFault,
    },
    /// A set of programs or a litmus test, at a line that isn't as it should be.
    BadLine(Kind),
    /// A set of programs or a litmus test, at the 4,097th instruction of a section.
    TooLong,
    /// A set of programs or a litmus test, at a jump past the end of its program.
    SkipPastEnd,
    /// A trace, at a line that isn't as it should be.
    BadTraceLine,
    /// A trace, at the 1,048,577th operation of a core.
    TooMany,
    /// The names of addresses, at a line that isn't as it should be.
    BadNamesLine,
    /// A certificate of this trace, at a line that isn't as it should be, or says what the trace doesn't bear out.
    BadCertificate(&'a Trace),
}

impl<'a> Refused<'a> {
    /// Adds the words about a line that was refused.
    fn push(self, text: &mut String, alloc: Global, at: &RefusedLine<'_>) -> Written {
        text.push_str(match self {
            Refused::Log { file, files, fault } => return push_log(text, (file, files), fault, at),
            Refused::BadLine(kind) => return push_bad_line(text, kind, at),
            Refused::BadTraceLine => return push_trace_line(text, at.line),
            Refused::BadNamesLine => return push_names_line(text, at),
            Refused::BadCertificate(trace) => return push_certificate_line(text, alloc, trace, at),
            Refused::TooLong => "A program has at most 4096 instructions.\n",
            Refused::SkipPastEnd => "It skips further than to just past the last instruction.\n",
            Refused::TooMany => {
                "A core of a trace has at most 1048576 operations; replay takes any number.\n"
            }
        })
    }
}

/// The words about the fault of a file.
#[derive(Clone, Copy)]
pub struct Telling<'a> {
    /// Where the fault is.
    pub place: Place<'a>,
    /// What was refused there, and the bytes of the file; none if a file that is needed can be read only once.
    pub read: Option<(Refused<'a>, &'a [u8])>,
}

impl<'a> Telling<'a> {
    /// The text of it, each line with its line feed: the place of the fault and the line there, how such a line is written, and what
    /// is wrong with this one, if it is one of the usual slips; or what it says that a trace doesn't bear out.
    pub fn print(&self, alloc: Global) -> Result<String, AllocError>
        ensures { IfOk result (λ text. (words : List ℕ) × (string_bytes text
            ≡ place_text self.now.place.file.now self.now.place.line ++ words)) }
    {
        let place = format!(in alloc; "{}", self.place)?;
        let words = match self.read {
            Some((refused, text)) => self.told_of(alloc, refused, text),
            None => String::from_str(alloc, "the file can't be read a second time.\n"),
        }?;
        joined(place, words.as_str())
    }

    /// The words about the line of the fault in these bytes: its text, and what is wrong with it.
    fn told_of(
        &self,
        alloc: Global,
        refused: Refused<'a>,
        text: &[u8],
    ) -> Result<String, AllocError> {
        let line = line_of(text, self.place.line);
        let words: Vec<&str> = match str::from_utf8(line) {
            Ok(text) => text.split(' ').collect(alloc),
            Err(_) => Ok(Vec::new(alloc)),
        }?;
        let at = RefusedLine {
            place: self.place,
            text,
            line,
            words: words.as_slice(),
        };
        let mut told = format!(in alloc; "{}\n", Bytes(line))?;
        refused.push(&mut told, alloc, &at)?;
        Ok(told)
    }
}

/// A text with more after it.
fn joined(mut text: String, more: &str) -> Result<String, AllocError>
    ensures { IfOk result (λ whole. string_bytes whole ≡ string_bytes text ++ more.now) }
{
    text.push_str(more)?;
    Ok(text)
}
