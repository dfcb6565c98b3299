//! Devices that give bytes, and std's readers as such devices.

ghost use Rattle.std.specs.Prelude.{◌≡◌, ◌≤◌, ℕ, List, length, IfOk, None, Option};
ghost use Rattle.std.specs.Io.KnownBytes.{ReadConsumes};
ghost use Rattle.log_file.specs.Devices.{CountsFailure};
ghost use Rattle.log_file.specs.Wrapped.{reader_of, failed_reads};

use super::device_fault::ReadFailed;
use std::io::Read;

/// A device that gives bytes, some at a time, and may fail at any time.
pub trait ByteSource {
    /// The bytes that reads will give from here on, if the source tells them.
    ghost remaining: { Self → Option (List ℕ) } = { λ _. None };

    /// How many reads have failed. The count stops at 18,446,744,073,709,551,615.
    ghost failed: { Self → ℕ };

    /// Reads into the front of the buffer, and answers how many bytes. If the buffer has room,
    /// 0 means the end.
    fn read(&mut self, buf: &mut [u8]) -> Result<usize, ReadFailed>
        ensures bound { IfOk result (λ n. n ≤ length buf.new) }
        ensures bytes { ReadConsumes (remaining self.old) (remaining self.new) result buf.new }
        ensures counts { CountsFailure (failed self.old) (failed self.new) result };

    /// How many reads have failed.
    fn failures(&self) -> u64
        ensures { result ≡ failed self.now };
}

/// One of std's readers as a source. Each `Err` of the reader counts as a failure, `Interrupted` too.
#[derive(Drop)]
pub struct FromRead<R> {
    reader: R,
    failures: u64,
}

impl<R: Read> FromRead<R> {
    /// The reader as a source that hasn't failed yet.
    pub fn new(reader: R) -> FromRead<R>
        ensures reader { reader_of result ≡ reader }
        ensures failed { failed_reads result ≡ 0 }
    {
        FromRead {
            reader,
            failures: 0,
        }
    }
}

impl<R: Read> ByteSource for FromRead<R> {
    ghost remaining = { λ source. R.remaining source.reader };

    ghost failed = { λ source. source.failures };

    fn read(&mut self, buf: &mut [u8]) -> Result<usize, ReadFailed> {
        match self.reader.read(buf) {
            Ok(count) => Ok(count),
            Err(_) => {
                self.failures = self.failures.saturating_add(1);
                Err(ReadFailed)
            }
        }
    }

    fn failures(&self) -> u64 {
        self.failures
    }
}
