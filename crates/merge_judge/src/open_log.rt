//! A log that is read one record at a time.

ghost use Rattle.std.specs.Prelude.{◌≡◌, ◌<◌, ◌≤◌, ◌++◌, ℕ, List, [], Ok, Some, Option, IfOk, IfErr, IsErrOf, MatchResult, OnErr, false, length};
ghost use Rattle.std.specs.Io.KnownBytes.{Consumes, IsAtEnd, Keeps};
ghost use Rattle.log_record.specs.declared.record.Record.{Record};
ghost use Rattle.log_file.specs.Answering.{HasAnswered, IsFaultless};
ghost use Rattle.log_file.specs.Devices.{CountsFailure, Failed};
ghost use Rattle.merge_judge.specs.inner.Following.{Follows, IsNextOn, TakesOne};

use super::record_source::{Reading, RecordSource};
use log_file::{ByteSource, LogFault, ReadFailed, RecordReader};
use log_record::Record;
use mem_op::CoreId;
use std::alloc::{AllocError, Global};
use std::marker::Model;

/// The most bytes to read from a file at once.
const LOG_PIECE_BYTES: usize = 65_536;

/// The log of one core. It reads the file in pieces, as its caller asks for records.
#[derive(Drop)]
pub(crate) struct OpenLog {
    reader: RecordReader,
    piece: Vec<u8>,
    /// How many bytes of the piece the reader took.
    used: usize,
    /// How many bytes the piece has from the file.
    filled: usize,
}

impl Model for OpenLog {
    ghost use Rattle.merge_judge.specs.OpenedLog.{OpenedLog};

    ghost Value = { OpenedLog };

    ghost use Rattle.merge_judge.specs.LogKept.{opened, IsWithin};

    ghost view = { opened };

    ghost invariant = { IsWithin };
}

impl OpenLog {
    /// The log of this core of `cores`, before the first read. Err if memory was refused.
    fn new(alloc: Global, core: CoreId, cores: u64) -> Result<OpenLog, AllocError>
        requires core { core < cores }
        requires cores { cores ≤ 64 }
        ensures core { IfOk result (λ log. log.reader.core ≡ core) }
        ensures cores { IfOk result (λ log. log.reader.cores ≡ cores) }
        ensures none { IfOk result (λ log. HasAnswered log.reader [] []) }
        ensures unused { IfOk result (λ log. log.unused ≡ []) }
    {
        Ok(OpenLog {
            reader: RecordReader::new(core, cores),
            piece: vec![in alloc; 0u8; LOG_PIECE_BYTES]?,
            used: 0,
            filled: 0,
        })
    }

    /// The next record in the bytes of the piece; None if they have no more.
    fn take(&mut self) -> Result<Option<Record>, LogFault>
        ensures core { self.new.reader.core ≡ self.old.reader.core }
        ensures cores { self.new.reader.cores ≡ self.old.reader.cores }
        ensures taken { (bytes : List ℕ) (records : List Record)
            → HasAnswered self.old.reader bytes records
            → TakesOne bytes records self.old result self.new }
    {
        let (used, logged) = self.reader.feed_one(&self.piece[self.used..self.filled])?;
        self.used += used;
        Ok(logged)
    }

    /// Reads a piece in place of the used one, and answers how many bytes it has.
    fn fill<S: ByteSource>(&mut self, source: &mut S) -> Result<usize, ReadFailed>
        ensures reader { self.new.reader ≡ self.old.reader }
        ensures filled { MatchResult result
            (λ count. (length self.new.unused ≡ count)
            × Consumes (S.remaining source.old) (S.remaining source.new) self.new.unused
            × (count ≡ 0 → IsAtEnd (S.remaining source.new)))
            (λ _. Keeps (S.remaining source.old) (S.remaining source.new)) }
        ensures counts { CountsFailure (S.failed source.old) (S.failed source.new) result }
    {
        let count = source.read(self.piece.as_mut_slice())?;
        self.used = 0;
        self.filled = count;
        Ok(count)
    }

    /// The next record of the log; None if it has ended and is whole. Otherwise its first fault, or
    /// Read if the source failed.
    fn next<S: ByteSource>(&mut self, source: &mut S) -> Result<Option<Record>, LogFault>
        requires { IsFaultless self.old.reader }
        ensures next { (core cores : ℕ) (first : Option (List ℕ)) (records : List Record)
            → Follows core cores first (S.remaining source.old) self.old records
            → IsNextOn core cores first records result (S.remaining source.new)
            (record { log = self.new; whole = false }) }
        ensures read { IsErrOf result LogFault.Read →
            Failed (S.failed source.old) (S.failed source.new) }
        ensures quiet { ¬ IsErrOf result LogFault.Read → S.failed source.new ≡ S.failed source.old }
    {
        // Only the proof uses this count: each read but the last gives a byte, and a log has fewer than 2^27
        // bytes, so the loop ends.
        let mut reads: usize = 0;
        'reading: loop {
            if let Some(record) = self.take()? {
                return Ok(Some(record));
            }
            let count = self.fill(source)?;
            if count == 0 {
                self.reader.check_end()?;
                return Ok(None);
            }
            reads += 1;
        }
    }
}

impl Reading for OpenLog {
    ghost use Rattle.std.specs.Prelude.{false};

    ghost kept = { λ log. record { log = log; whole = false } };
}

impl<S: ByteSource> RecordSource<OpenLog> for S {
    ghost remaining = { S.remaining };

    ghost failed = { S.failed };

    ghost fits = { λ core cores source. Unit {0} };

    fn open(&mut self, alloc: Global, core: CoreId, cores: u64) -> Result<OpenLog, AllocError> {
        OpenLog::new(alloc, core, cores)
    }

    fn next(&mut self, log: &mut OpenLog) -> Result<Option<Record>, LogFault> {
        log.next(self)
    }
}
