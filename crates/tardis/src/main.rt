//! The program: its commands over the host's files, standard output and standard error.
#![tactic(auto)]

mod hint;
mod host;
mod progress;
mod shown;
mod words;

use commands::command;
use hint::{Noted, tell_after};
use host::ShownFolder;
use host_files::HostFolder;
use log_file::{FromWrite, write_all};
use progress::Progress;
use shown::Shown;
use std::process::ExitCode;
use words::{WordsFault, texts, words};

/// Tells the user why the words can't be read, and gives the exit status.
fn refuse(rt: &HostRuntime, fault: WordsFault) -> u8 {
    if let Ok(line) = format!(in rt.alloc(); "{fault}\n") {
        let _ = write_all(&mut FromWrite::new(rt.stderr()), line.as_bytes());
    }
    fault.status()
}

fn main(rt: HostRuntime) -> ExitCode {
    let given = match words(&rt) {
        Ok(given) => given,
        Err(fault) => return ExitCode::from(refuse(&rt, fault)),
    };
    let words = match texts(rt.alloc(), &given) {
        Ok(words) => words,
        Err(fault) => return ExitCode::from(refuse(&rt, fault)),
    };
    let progress = &Progress::new(&rt);
    let mut out = Shown {
        device: FromWrite::new(rt.stdout()),
        progress,
    };
    let mut err = Noted::new(Shown {
        device: FromWrite::new(rt.stderr()),
        progress,
    });
    let folder = &mut ShownFolder {
        folder: HostFolder::new(&rt),
        progress,
    };
    let status = command(
        &rt,
        rt.alloc(),
        words.as_slice(),
        progress,
        folder,
        &mut out,
        &mut err,
    );
    tell_after(&rt, words.as_slice(), status, err.told());
    ExitCode::from(status)
}
