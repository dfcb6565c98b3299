//! A source in memory.

ghost use Rattle.std.specs.Prelude.{◌≡◌, ◌+◌, ◌<◌, ◌≤◌, length, min, take};
ghost use Rattle.log_file.specs.InMemory.{bytes_left, reads_to_come, failed_reads};

use super::byte_source::ByteSource;
use super::device_fault::ReadFailed;
use super::step::{Step, take_step};

/// A source over bytes in memory. Each read follows one step; after the last step a read gives
/// what there is.
#[derive(Drop)]
pub struct MemSource<'a> {
    bytes: &'a [u8],
    steps: &'a [Step],
    failures: u64,
}

impl<'a> MemSource<'a> {
    /// A source of these bytes that hasn't failed yet.
    pub fn new(bytes: &'a [u8], steps: &'a [Step]) -> MemSource<'a>
        ensures bytes { bytes_left result ≡ bytes.entry.now }
        ensures steps { reads_to_come result ≡ steps.entry.now }
        ensures failed { failed_reads result ≡ 0 }
    {
        MemSource {
            bytes,
            steps,
            failures: 0,
        }
    }
}

/// Copies at most one byte more than the limit, as far as the bytes and the buffer reach, and answers how many bytes.
fn give(bytes: &[u8], limit: usize, buf: &mut [u8]) -> usize
    ensures within { result ≤ length bytes.now }
    ensures fits { result ≤ length buf.new }
    ensures copied { take result buf.new ≡ take result bytes.now }
    ensures some { result ≡ 0 → 0 < length buf.new → length bytes.now ≡ 0 }
    ensures most { result ≡ min (min (length buf.old) (length bytes.now)) (limit + 1) }
{
    let count = buf.len().min(bytes.len()).min(limit.saturating_add(1));
    buf[..count].copy_from_slice(&bytes[..count]);
    count
}

impl ByteSource for MemSource<'_> {
    ghost use Rattle.std.specs.Prelude.{drop, IfOk, Some};
    ghost use Rattle.std.specs.Result.{result_ok};
    ghost use Rattle.std.specs.Io.KnownBytes.{ReadConsumes};
    ghost use Rattle.log_file.specs.Devices.{CountsFailure};
    ghost use Rattle.log_file.specs.InMemory.{moved_of};

    ghost remaining = { λ source. Some source.bytes.now };

    ghost failed = { λ source. source.failures };

    /// Fails if the next step is `Fail`, and otherwise moves all that the step, the buffer and the
    /// bytes left allow. Each call uses up one step.
    fn read(&mut self, buf: &mut [u8]) -> Result<usize, ReadFailed>
        ensures bound { IfOk result (λ n. n ≤ length buf.new) }
        ensures bytes { ReadConsumes (Some (bytes_left self.old)) (Some (bytes_left self.new))
            result buf.new }
        ensures counts { CountsFailure (failed_reads self.old) (failed_reads self.new) result }
        ensures step { result_ok result
            ≡ moved_of (reads_to_come self.old) (min (length buf.old) (length (bytes_left self.old))) }
        ensures rest { reads_to_come self.new ≡ drop 1 (reads_to_come self.old) }
    {
        let Some(limit) = take_step(&mut self.steps) else {
            self.failures = self.failures.saturating_add(1);
            return Err(ReadFailed);
        };
        let count = give(self.bytes, limit, buf);
        self.bytes = &self.bytes[count..];
        Ok(count)
    }

    fn failures(&self) -> u64 {
        self.failures
    }
}
