//! What the program tells after a call: it tells a terminal where to read on, and says what the system says of a file that can't be read.

use log_file::{ByteSink, WriteFailed};
use std::fs;
use std::io::{ErrorKind, IsTerminal};

/// The exit status of a call that was refused because a file has a fault.
const FAULT: u8 = 2;

/// The exit status of a call that was refused because a file can't be read, or for some other reasons.
const FAILED: u8 = 4;

/// What was told on a sink, by its beginning.
#[derive(Clone, Copy, PartialEq, Eq)]
pub(crate) enum Told {
    /// Nothing.
    Nothing,
    /// That a litmus test is refused.
    Test,
    /// That programs are refused.
    Programs,
    /// That a trace is refused.
    Trace,
    /// That a certificate is refused.
    Certificate,
    /// Something else.
    Other,
}

/// A sink that knows what it was told.
#[derive(Drop)]
pub(crate) struct Noted<W> {
    sink: W,
    told: Told,
}

impl<W: ByteSink> Noted<W> {
    /// The sink, to which nothing was written.
    pub(crate) fn new(sink: W) -> Noted<W> {
        Noted {
            sink,
            told: Told::Nothing,
        }
    }

    /// What was told.
    pub(crate) fn told(&self) -> Told {
        self.told
    }
}

/// What a first piece tells.
fn told_by(piece: &[u8]) -> Told {
    if piece.starts_with(b"refused: litmus") {
        Told::Test
    } else if piece.starts_with(b"refused: programs") {
        Told::Programs
    } else if piece.starts_with(b"refused: trace") {
        Told::Trace
    } else if piece.starts_with(b"refused: certificate") {
        Told::Certificate
    } else {
        Told::Other
    }
}

impl<W: ByteSink> ByteSink for Noted<W> {
    ghost contents = { λ noted. W.contents noted.sink };

    ghost failed = { λ noted. W.failed noted.sink };

    fn write(&mut self, piece: &[u8]) -> Result<usize, WriteFailed> {
        if self.told == Told::Nothing {
            self.told = told_by(piece);
        }
        self.sink.write(piece)
    }

    fn failures(&self) -> u64 {
        self.sink.failures()
    }
}

/// After a call with these words, which ended with this status and told this on standard error, tells a terminal where to read on. After an
/// explanation of a file that can't be read, it also tells what the system says of the file.
pub(crate) fn tell_after(rt: &HostRuntime, words: &[&str], status: u8, told: Told) {
    let command = words.get(1).copied();
    if command == Some("explain") && status == FAILED {
        tell_system(rt, words);
    }
    if !rt.stderr().is_terminal() {
        return;
    }
    if let Some(hint) = hint_of(words, status, told) {
        let _ = eprintln!(rt; "{hint}");
    }
}

/// Where a user reads on after a call with these words.
fn hint_of(words: &[&str], status: u8, told: Told) -> Option<&'static str> {
    let command = words.get(1).copied().unwrap_or("");
    if command == "litmus" && status == 1 && told == Told::Nothing {
        return Some(
            "a forbidden outcome was seen, and each run got yes: the test forbids what may happen; the machine is right",
        );
    }
    let reads_logs = command == "check" || command == "order" || command == "upgrade";
    if reads_logs && (status == FAULT || status == FAILED) {
        return Some("tardis explain FILE.. tells more");
    }
    if command == "litmus" && told == Told::Test {
        return Some("tardis explain --litmus TEST tells more");
    }
    if (command == "sim" || command == "run") && told == Told::Programs {
        return Some("tardis explain --programs PROGRAMS tells more");
    }
    let reads_trace = command == "search" || command == "confirm" || command == "replay";
    if reads_trace && told == Told::Trace {
        return Some("tardis explain --trace TRACE tells more");
    }
    if command == "confirm" && told == Told::Certificate && !words.contains(&"--logs") {
        return Some("tardis explain --certificate CERTIFICATE TRACE tells more");
    }
    None
}

/// Tells on standard output what the system says of the first file of an explanation that can't be read.
fn tell_system(rt: &HostRuntime, words: &[&str]) {
    for (before, word) in words.iter().skip(1).zip(words.iter().skip(2)) {
        let is_read = *before != "--svg" && !word.starts_with("--");
        if is_read && let Some(why) = trouble(rt, word) {
            let _ = println!(rt; "{word}: {why}.");
            return;
        }
    }
}

/// Why the file of a name can't be read.
fn trouble(rt: &HostRuntime, name: &str) -> Option<&'static str> {
    match fs::metadata(rt, name) {
        Ok(data) if data.is_dir() => return Some("it is a folder"),
        Ok(_) => {}
        Err(error) => return Some(reason(error.kind())),
    }
    match fs::open(rt, name) {
        Ok(_) => None,
        Err(error) => Some(reason(error.kind())),
    }
}

/// What a kind of error says of a file.
fn reason(kind: ErrorKind) -> &'static str {
    match kind {
        ErrorKind::NotFound => "there is no such file",
        ErrorKind::PermissionDenied => "you have no permission to read it",
        ErrorKind::NotADirectory => "its path leads through a file",
        _ => "the system can't read it",
    }
}
