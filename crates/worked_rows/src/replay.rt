//! Rows, one after the other.

use super::again::wrong_again;
use super::call::{SOUND, call};
use super::compare::{Expected, compare, compare_files};
use super::fault::RowsFault;
use super::host::perform_on_host;
use super::words::texts_of;
use rows::{File, Given, Row, RowFault, Wanted, calls_of, read, words_of};
use std::alloc::Global;
use std::sync::Wait;
use std::thread::Threads;

/// How rows are replayed.
#[derive(Clone, Copy)]
pub(crate) enum Manner {
    /// Each call is made once.
    Once,
    /// A call over files in memory that went right is made again in other ways.
    Again,
}

/// How many calls were made, and how many times one went wrong.
#[derive(Clone, Copy)]
pub(crate) struct Tally {
    pub(crate) calls: u64,
    pub(crate) wrong: u64,
}

/// Makes a call over files in memory, and if it went right, again as the manner says. Gives how often it went wrong, and the files that it put.
fn perform<R: Threads + Wait + Sync + Print>(
    rt: &R,
    alloc: Global,
    manner: Manner,
    row: &Row,
    wanted: &Wanted,
    line: &str,
) -> Result<(u64, Vec<File>), RowsFault> {
    let words = words_of(alloc, line)?;
    let words = texts_of(alloc, words.as_slice())?;
    let given = Given {
        files: row.files.as_slice(),
        slow: None,
        room: row.room,
    };
    let done = call(rt, alloc, words.as_slice(), given, SOUND)?;
    let expected = Expected::of(wanted);
    let is_told = compare(rt, words.as_slice(), &expected, &done)?;
    let is_put = compare_files(rt, wanted.line, wanted.put.as_slice(), done.put.as_slice())?;
    let wrong = if is_told && is_put {
        match manner {
            Manner::Once => 0,
            Manner::Again => wrong_again(rt, alloc, words.as_slice(), given, &expected, &done)?,
        }
    } else {
        1
    };
    Ok((wrong, done.put))
}

/// Makes the calls for which the row's call stands, if it has one, and lets the row keep the files that they put.
fn finish<R: Threads + Wait + Sync + Print>(
    rt: &R,
    alloc: Global,
    manner: Manner,
    host: Option<&HostRuntime>,
    row: &mut Row,
    tally: &mut Tally,
) -> Result<(), RowsFault> {
    let Some(wanted) = row.wanted.take() else {
        return Ok(());
    };
    for line in &calls_of(alloc, wanted.words.as_str())? {
        let (wrong, put) = match host {
            Some(host) => perform_on_host(rt, host, row, &wanted, line.as_str())?,
            None => perform(rt, alloc, manner, row, &wanted, line.as_str())?,
        };
        tally.calls = tally.calls.saturating_add(1);
        tally.wrong = tally.wrong.saturating_add(wrong);
        for file in put {
            row.keep(file)?;
        }
    }
    Ok(())
}

/// Replays the rows of a text, over files of the host if one is given.
pub(crate) fn replay<R: Threads + Wait + Sync + Print>(
    rt: &R,
    alloc: Global,
    manner: Manner,
    host: Option<&HostRuntime>,
    text: &str,
) -> Result<Tally, RowsFault> {
    let mut row = Row::new(alloc);
    let mut tally = Tally { calls: 0, wrong: 0 };
    for (at, text) in text.lines().enumerate() {
        let line = read(text).ok_or(RowFault::BadLine)?;
        if line.ends_call() {
            finish(rt, alloc, manner, host, &mut row, &mut tally)?;
        }
        row.take(at.saturating_add(1), line)?;
    }
    finish(rt, alloc, manner, host, &mut row, &mut tally)?;
    Ok(tally)
}
