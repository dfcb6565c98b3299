//! What logs that are cut off get as far as all of them go.

ghost use Rattle.host_files.specs.Files.{IsOnlyRead};

use super::text::read_text;
use host_files::Folder;
use line_stamps::Key;
use log_file::{ReadFault, RecordReader, SliceSource};
use log_record::print_end;
use mem_op::{CoreId, OpIndex};
use merge_judge::merged_verdict;
use std::alloc::{AllocError, Global};

/// An operation that stands whole in a log.
#[derive(Clone, Copy)]
struct Whole {
    key: Key,
    /// How many bytes the log has up to the end of its line.
    end: usize,
}

/// The operations that stand whole in a log, and whether it has a fault behind them.
#[derive(Drop)]
struct Begun {
    whole: Vec<Whole>,
    is_cut: bool,
}

/// What the operations get, judged alone, that took effect up to where the first of the logs that are cut off ends. Nothing if that log has
/// no whole operation, or a file can't be read again.
pub(crate) fn first_text<F: Folder>(
    alloc: Global,
    folder: &mut F,
    names: &[&str],
) -> Result<String, AllocError>
    ensures { IsOnlyRead (F.files folder.old) (F.files folder.new) }
{
    match all_again(alloc, folder, names)? {
        Some(texts) => told_of(alloc, texts.as_slice()),
        None => Ok(String::new(alloc)),
    }
}

/// The texts of all logs, read again; None if one can't be opened or read.
fn all_again<F: Folder>(
    alloc: Global,
    folder: &mut F,
    names: &[&str],
) -> Result<Option<Vec<Vec<u8>>>, AllocError>
    ensures { IsOnlyRead (F.files folder.old) (F.files folder.new) }
{
    let mut texts = Vec::new(alloc);
    for name in names {
        match read_text(alloc, folder, name) {
            Ok(text) => texts.push(text)?,
            Err(ReadFault::Read) => return Ok(None),
            Err(ReadFault::OutOfMemory) => return Err(AllocError),
        }
    }
    Ok(Some(texts))
}

/// The words about these texts of logs.
fn told_of(alloc: Global, texts: &[Vec<u8>]) -> Result<String, AllocError> {
    let logs = all_begun(alloc, texts)?;
    match last_key(logs.as_slice()) {
        Some(last) => verdict_text(alloc, texts, logs.as_slice(), last),
        None => Ok(String::new(alloc)),
    }
}

/// What stands whole in each of these texts.
fn all_begun(alloc: Global, texts: &[Vec<u8>]) -> Result<Vec<Begun>, AllocError> {
    let mut logs = Vec::new(alloc);
    for (file, text) in texts.iter().enumerate() {
        let Ok(core) = CoreId::new(file as u64) else {
            break;
        };
        logs.push(whole_of(alloc, core, texts.len() as u64, text.as_slice())?)?;
    }
    Ok(logs)
}

/// What stands whole in the text of the log of this core of `cores`.
fn whole_of(alloc: Global, core: CoreId, cores: u64, text: &[u8]) -> Result<Begun, AllocError> {
    let mut whole = Vec::new(alloc);
    let mut reader = RecordReader::new(core, cores);
    let mut rest = text;
    for number in 0..text.len() as u64 {
        let (Ok((taken, Some(record))), Ok(index)) = (reader.feed_one(rest), OpIndex::new(number))
        else {
            break;
        };
        rest = &rest[taken..];
        let key = Key {
            ts: record.ts,
            rank: record.rank,
            core,
            index,
        };
        let end = text.len().saturating_sub(rest.len());
        whole.push(Whole { key, end })?;
    }
    let is_cut = reader.check_end().is_err();
    Ok(Begun { whole, is_cut })
}

/// The last key of that of the logs that are cut off which ends first; None if it has no whole operation.
fn last_key(logs: &[Begun]) -> Option<Key> {
    let mut least: Option<Key> = None;
    for log in logs.iter().filter(|log| log.is_cut) {
        let last = log.whole.last()?.key;
        if least.is_none_or(|key| last < key) {
            least = Some(last);
        }
    }
    least
}

/// What the operations up to this key get, judged alone.
fn verdict_text(
    alloc: Global,
    texts: &[Vec<u8>],
    logs: &[Begun],
    last: Key,
) -> Result<String, AllocError> {
    let mut beginnings = Vec::new(alloc);
    let mut operations = 0usize;
    for (text, log) in texts.iter().zip(logs) {
        let count = log
            .whole
            .iter()
            .take_while(|whole| whole.key <= last)
            .count();
        operations = operations.saturating_add(count);
        beginnings.push(beginning(alloc, text.as_slice(), log, count)?)?;
    }
    let mut sources = Vec::new(alloc);
    for text in &beginnings {
        sources.push(SliceSource::new(text.as_slice()))?;
    }
    match merged_verdict(alloc, sources.as_mut_slice()) {
        Ok(verdict) => format!(in alloc;
            "The {operations} operations up to stamp {} and rank {} get, judged alone: {verdict}\nThis is no verdict on the logs: what comes later is left out.\n",
            last.ts.get(),
            last.rank.get()
        ),
        Err(_) => Ok(String::new(alloc)),
    }
}

/// The log of the first operations of a log, so many.
fn beginning(alloc: Global, text: &[u8], log: &Begun, count: usize) -> Result<Vec<u8>, AllocError> {
    let mut made = Vec::from_slice(alloc, up_to(text, log, count))?;
    let end = print_end(alloc, count as u64)?;
    made.extend_from_slice(end.as_bytes())?;
    made.push(b'\n')?;
    Ok(made)
}

/// The text of a log up to the end of its line of this number: its header where that is 0.
fn up_to<'a>(text: &'a [u8], log: &Begun, count: usize) -> &'a [u8] {
    let end = match count.checked_sub(1) {
        Some(last) => log.whole.get(last).map(|whole| whole.end),
        None => text
            .iter()
            .position(|byte| *byte == b'\n')
            .map(|feed| feed.saturating_add(1)),
    };
    text.get(..end.unwrap_or(0)).unwrap_or(text)
}
