//! Files that are cut off.

use super::fault::RowsFault;
use rows::File;
use std::alloc::Global;

/// What a call tells of a file that has only this beginning of a log.
pub(crate) fn told_of_beginning(
    alloc: Global,
    file: usize,
    beginning: &[u8],
) -> Result<String, RowsFault> {
    let feeds = beginning.iter().filter(|byte| **byte == b'\n').count();
    let line = feeds.saturating_add(1);
    Ok(format!(in alloc; "refused: file {file} line {line}: 26 Truncated\n")?)
}

/// A file of the same name and bytes.
pub(crate) fn copied(alloc: Global, file: &File) -> Result<File, RowsFault> {
    Ok(File::new(alloc, file.name.as_str(), file.bytes.as_slice())?)
}

/// The files, one of them cut off after this many bytes.
pub(crate) fn with_beginning(
    alloc: Global,
    files: &[File],
    name: &str,
    length: usize,
) -> Result<Vec<File>, RowsFault> {
    let mut all = Vec::new(alloc);
    for file in files {
        let mut copy = copied(alloc, file)?;
        if copy.name.as_str() == name {
            copy.bytes.truncate(length);
        }
        all.push(copy)?;
    }
    Ok(all)
}
