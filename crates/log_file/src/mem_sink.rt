//! A sink in memory.

ghost use Rattle.std.specs.Prelude.{◌≡◌, []};
ghost use Rattle.log_file.specs.InMemory.{bytes_taken, writes_to_come, failed_writes};

use super::byte_sink::ByteSink;
use super::device_fault::WriteFailed;
use super::step::{Step, take_step};
use std::alloc::Global;

/// A sink that keeps in memory what it took. Each write follows one step; after the last step a
/// write takes all. Lack of memory is a failure too.
#[derive(Drop)]
pub struct MemSink<'a> {
    taken: Vec<u8>,
    steps: &'a [Step],
    failures: u64,
}

impl<'a> MemSink<'a> {
    /// A sink that has taken nothing and hasn't failed yet.
    pub fn new(alloc: Global, steps: &'a [Step]) -> MemSink<'a>
        ensures bytes { bytes_taken result ≡ [] }
        ensures steps { writes_to_come result ≡ steps.entry.now }
        ensures failed { failed_writes result ≡ 0 }
    {
        MemSink {
            taken: Vec::new(alloc),
            steps,
            failures: 0,
        }
    }

    /// The bytes that it took.
    pub fn bytes(&self) -> &[u8]
        ensures { result.now ≡ bytes_taken self.now }
    {
        &self.taken
    }
}

impl ByteSink for MemSink<'_> {
    ghost use Rattle.std.specs.Prelude.{◌<◌, ◌≤◌, drop, length, IfOk, Some};
    ghost use Rattle.std.specs.Io.KnownBytes.{WriteAppends};
    ghost use Rattle.log_file.specs.Devices.{CountsFailure};
    ghost use Rattle.log_file.specs.InMemory.{moved_of};

    ghost contents = { λ sink. Some sink.taken.items };

    ghost failed = { λ sink. sink.failures };

    /// Fails if the next step is `Fail` or memory is refused, and otherwise takes all that the step
    /// allows. Each call uses up one step.
    fn write(&mut self, piece: &[u8]) -> Result<usize, WriteFailed>
        ensures bound { IfOk result (λ n. n ≤ length piece.now) }
        ensures some { IfOk result (λ n. 0 < length piece.now → 0 < n) }
        ensures bytes { WriteAppends (Some (bytes_taken self.old)) (Some (bytes_taken self.new))
            result piece.now }
        ensures counts { CountsFailure (failed_writes self.old) (failed_writes self.new) result }
        ensures step { IfOk result (λ n.
            moved_of (writes_to_come self.old) (length piece.now) ≡ Some n) }
        ensures rest { writes_to_come self.new ≡ drop 1 (writes_to_come self.old) }
    {
        let Some(limit) = take_step(&mut self.steps) else {
            self.failures = self.failures.saturating_add(1);
            return Err(WriteFailed);
        };
        let count = piece.len().min(limit.saturating_add(1));
        if self.taken.extend_from_slice(&piece[..count]).is_err() {
            self.failures = self.failures.saturating_add(1);
            return Err(WriteFailed);
        }
        Ok(count)
    }

    fn failures(&self) -> u64 {
        self.failures
    }
}
