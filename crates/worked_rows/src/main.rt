//! Replays rows: calls of the program over files in memory, with what each prints, its status and the files that it puts. It reads the rows from each
//! file in the folder where it runs whose name ends with `.rows`; `docs/ROWS.md` tells how to write them. It also makes each call that went right
//! again in other ways, unless its word is `once`; `again.rt` knows what has to come of those. The rows of a file whose name ends with `.host.rows` are
//! calls over files of the host.
#![tactic(auto)]

mod again;
mod beginnings;
mod call;
mod compare;
mod fault;
mod host;
mod replay;
mod watch;
mod words;

use fault::{RowsFault, text_of};
use log_file::{FromRead, read_all};
use replay::{Manner, replay};
use std::{env, fs};

/// The text of a file of the host.
fn read_text(rt: &HostRuntime, name: &str) -> Result<String, RowsFault> {
    let file = fs::open(rt, name)?;
    match read_all(rt.alloc(), &mut FromRead::new(file)) {
        Ok(bytes) => text_of(bytes),
        Err(_) => Err(RowsFault::Device),
    }
}

/// The names of the files of rows in the folder where this runs, in ascending order.
fn file_names(rt: &HostRuntime) -> Result<Vec<String>, RowsFault> {
    let mut names = Vec::new(rt.alloc());
    for entry in fs::read_dir(rt, ".")? {
        let entry = entry?;
        if entry.file_name().ends_with(".rows") {
            names.push(String::from_str(rt.alloc(), entry.file_name())?)?;
        }
    }
    names.sort()?;
    Ok(names)
}

/// The words of the command line; the first is the program's own name.
fn arguments(rt: &HostRuntime) -> Result<Vec<String>, RowsFault> {
    let mut words = Vec::new(rt.alloc());
    for word in env::args(rt)? {
        words.push(word)?;
    }
    Ok(words)
}

/// How rows are to be replayed.
fn manner_of(arguments: &[String]) -> Manner {
    match arguments {
        [_, word] if word.as_str() == "once" => Manner::Once,
        _ => Manner::Again,
    }
}

fn main(rt: HostRuntime) -> Result<(), RowsFault> {
    let arguments = arguments(&rt)?;
    let manner = manner_of(arguments.as_slice());
    let mut wrong: u64 = 0;
    for name in &file_names(&rt)? {
        let text = read_text(&rt, name.as_str())?;
        let host = name.ends_with(".host.rows").then_some(&rt);
        let tally = replay(&rt, rt.alloc(), manner, host, text.as_str())?;
        println!(rt; "{name}: {} calls, {} wrong", tally.calls, tally.wrong)?;
        wrong = wrong.saturating_add(tally.wrong);
    }
    if wrong > 0 {
        return Err(RowsFault::Wrong);
    }
    Ok(())
}
