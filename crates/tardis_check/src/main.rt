//! `check` and nothing else: the least that one has to read to trust a yes.
#![tactic(auto)]

use host_files::{HostSource, open};
use log_file::{FromWrite, write_all};
use std::alloc::AllocError;
use std::fs::File;
use std::io::Stdin;
use std::process::ExitCode;
use std::{env, io};
use verdict::{JudgeFault, OpenGate, check_counts, judge, report};

const USAGE: &[u8] = b"usage: tardis_check check [--workers N] FILE..\n";

/// The words of the command line; the first is the program's own name.
fn words(rt: &HostRuntime) -> io::Result<Vec<String>> {
    let mut words = Vec::new(rt.alloc());
    for word in env::args(rt)? {
        words.push(word)?;
    }
    Ok(words)
}

/// How many workers the words ask for, and the names of the files to judge; none if they ask for something else.
fn asked(words: &[String]) -> Option<(usize, &[String])> {
    let (workers, names) = match words {
        [_, check, workers, count, names @ ..]
            if check.as_str() == "check" && workers.as_str() == "--workers" => {
            (count.parse::<usize>().ok()?, names)
        }
        [_, check, names @ ..] if check.as_str() == "check" => (1, names),
        _ => return None,
    };
    if names.is_empty() || names.iter().any(|name| name.starts_with("-")) {
        return None;
    }
    Some((workers, names))
}

/// Opens the files of these names, the log of each core, unless a count is out of range.
fn open_logs(
    rt: &HostRuntime,
    workers: usize,
    names: &[String],
) -> Result<Vec<HostSource<File, Stdin>>, JudgeFault> {
    check_counts(names.len(), workers)?;
    let mut logs = Vec::new(rt.alloc());
    for (file, name) in names.iter().enumerate() {
        match open(rt, name.as_str()) {
            Ok(log) => logs.push(log).map_err(AllocError::from)?,
            Err(_) => return Err(JudgeFault::Read { file }),
        }
    }
    Ok(logs)
}

fn main(rt: HostRuntime) -> ExitCode {
    let out = &mut FromWrite::new(rt.stdout());
    let err = &mut FromWrite::new(rt.stderr());
    if let Ok(words) = words(&rt)
        && let Some((workers, names)) = asked(words.as_slice())
    {
        let answer = match open_logs(&rt, workers, names) {
            Ok(mut logs) => judge(&rt, rt.alloc(), logs.as_mut_slice(), workers, &OpenGate),
            Err(fault) => Err(fault),
        };
        return ExitCode::from(report(rt.alloc(), answer, out, err));
    }
    let _ = write_all(err, USAGE);
    ExitCode::from(3)
}
