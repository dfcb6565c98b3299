//! Devices that take bytes, and std's writers as such devices.

ghost use Rattle.std.specs.Prelude.{◌≡◌, ◌<◌, ◌≤◌, ℕ, List, length, take, IfOk, OnOk, OnErr, None, Option};
ghost use Rattle.std.specs.Io.KnownBytes.{WriteAppends, Appends};
ghost use Rattle.log_file.specs.Devices.{CountsFailure, Failed, TakesBeginning};
ghost use Rattle.log_file.specs.Wrapped.{writer_of, failed_writes};

use super::device_fault::WriteFailed;
use std::io::Write;

/// A device that takes bytes, some at a time, and may fail at any time.
pub trait ByteSink {
    /// The bytes that it took, if the sink tells them.
    ghost contents: { Self → Option (List ℕ) } = { λ _. None };

    /// How many writes have failed. The count stops at 18,446,744,073,709,551,615.
    ghost failed: { Self → ℕ };

    /// Takes bytes from the front of the piece, and answers how many: never 0 if the piece isn't
    /// empty.
    fn write(&mut self, piece: &[u8]) -> Result<usize, WriteFailed>
        ensures bound { IfOk result (λ n. n ≤ length piece.now) }
        ensures some { IfOk result (λ n. 0 < length piece.now → 0 < n) }
        ensures bytes { WriteAppends (contents self.old) (contents self.new) result piece.now }
        ensures counts { CountsFailure (failed self.old) (failed self.new) result };

    /// How many writes have failed.
    fn failures(&self) -> u64
        ensures { result ≡ failed self.now };
}

/// Writes all of the bytes. If a write fails, the sink has taken a beginning of them.
pub fn write_all<W: ByteSink>(sink: &mut W, bytes: &[u8]) -> Result<(), WriteFailed>
    ensures ok { OnOk result (Appends (W.contents sink.old) (W.contents sink.new) bytes.now) }
    ensures begun { TakesBeginning (W.contents sink.old) (W.contents sink.new) bytes.now }
    ensures cut { OnErr result ((n : ℕ) × (n < length bytes.now)
        × Appends (W.contents sink.old) (W.contents sink.new) (take n bytes.now)) }
    ensures failed { OnErr result (Failed (W.failed sink.old) (W.failed sink.new)) }
    ensures quiet { OnOk result (W.failed sink.new ≡ W.failed sink.old) }
{
    let mut at = 0;
    while at < bytes.len() {
        at += sink.write(&bytes[at..])?;
    }
    Ok(())
}

/// One of std's writers as a sink. Each `Err` of the writer counts as a failure, and so does a
/// write that takes nothing from a piece that isn't empty.
#[derive(Drop)]
pub struct FromWrite<W> {
    writer: W,
    failures: u64,
}

impl<W: Write> FromWrite<W> {
    /// The writer as a sink that hasn't failed yet.
    pub fn new(writer: W) -> FromWrite<W>
        ensures writer { writer_of result ≡ writer }
        ensures failed { failed_writes result ≡ 0 }
    {
        FromWrite {
            writer,
            failures: 0,
        }
    }
}

impl<W: Write> ByteSink for FromWrite<W> {
    ghost contents = { λ sink. W.contents sink.writer };

    ghost failed = { λ sink. sink.failures };

    fn write(&mut self, piece: &[u8]) -> Result<usize, WriteFailed> {
        match self.writer.write(piece) {
            Ok(count) if count > 0 || piece.is_empty() => Ok(count),
            _ => {
                self.failures = self.failures.saturating_add(1);
                Err(WriteFailed)
            }
        }
    }

    fn failures(&self) -> u64 {
        self.failures
    }
}
