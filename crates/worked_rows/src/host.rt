//! Calls over files of the host, in the folder where this runs.

use super::call::{SOUND, call_over};
use super::compare::{Expected, compare, compare_files};
use super::fault::RowsFault;
use super::words::texts_of;
use host_files::{Folder, HostFolder};
use log_file::read_all;
use rows::{File, Row, Wanted, words_of};
use std::fs;
use std::sync::Wait;
use std::thread::Threads;

/// Makes a call over files of the host. Those of the row are written there before it and removed after it. Gives how often the call went wrong, and
/// the files that it put.
pub(crate) fn perform_on_host<R: Threads + Wait + Sync + Print>(
    rt: &R,
    host: &HostRuntime,
    row: &Row,
    wanted: &Wanted,
    line: &str,
) -> Result<(u64, Vec<File>), RowsFault> {
    let alloc = host.alloc();
    let words = words_of(alloc, line)?;
    let words = texts_of(alloc, words.as_slice())?;
    let folder = &mut HostFolder::new(host);
    for file in &row.files {
        put(folder, file)?;
    }
    let done = call_over(rt, alloc, words.as_slice(), folder, SOUND)?;
    let left = left(host, folder, wanted)?;
    remove(host, row.files.as_slice());
    remove(host, left.as_slice());
    let is_told = compare(rt, words.as_slice(), &Expected::of(wanted), &done)?;
    let is_put = compare_files(rt, wanted.line, wanted.put.as_slice(), left.as_slice())?;
    Ok((u64::from(!(is_told && is_put)), left))
}

/// The files that the call should put, as they are now.
fn left(
    host: &HostRuntime,
    folder: &mut HostFolder<'_>,
    wanted: &Wanted,
) -> Result<Vec<File>, RowsFault> {
    let alloc = host.alloc();
    let mut left = Vec::new(alloc);
    for file in &wanted.put {
        let name = file.name.as_str();
        if let Ok(mut source) = folder.open_file(name)
            && let Ok(bytes) = read_all(alloc, &mut source)
        {
            left.push(File::new(alloc, name, bytes.as_slice())?)?;
        }
    }
    Ok(left)
}

/// Removes files.
fn remove(host: &HostRuntime, files: &[File]) {
    for file in files {
        let _ = fs::remove_file(host, file.name.as_str());
    }
}

/// Writes a file.
fn put(folder: &mut HostFolder<'_>, file: &File) -> Result<(), RowsFault> {
    match folder.put(file.name.as_str(), file.bytes.as_slice()) {
        Ok(()) => Ok(()),
        Err(_) => Err(RowsFault::Device),
    }
}
