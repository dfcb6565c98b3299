//! A log read in pieces.

ghost use Rattle.std.specs.Prelude.{◌≡◌, ◌<◌, ◌≤◌, ◌^◌, [], Ok, OnOk};
ghost use Rattle.log_file.specs.Feeding.{Feeds, Finishes, IsOpen, fed_len};

use super::fault::LogFault;
use super::record_reader::RecordReader;
use log_record::Record;
use mem_op::CoreId;
use std::alloc::Global;
use std::marker::Model;

/// Reads the log of one core, from pieces that may be cut anywhere.
#[derive(Drop)]
pub struct LogReader {
    reader: RecordReader,
    records: Vec<Record>,
}

impl Model for LogReader {
    ghost use Rattle.log_file.specs.Feeding.{Feeding};

    ghost Value = { Feeding };

    ghost use Rattle.log_file.specs.Keeping.{feeding_of, IsKept};

    ghost view = { feeding_of };

    ghost invariant = { IsKept };
}

impl LogReader {
    /// A reader of the log of this core of `cores`. It has had no bytes yet.
    pub fn new(alloc: Global, core: CoreId, cores: u64) -> LogReader
        ensures { result ≡ record { core = core; cores = cores; fed = Ok [] } }
    {
        LogReader {
            reader: RecordReader::new(core, cores),
            records: Vec::new(alloc),
        }
    }

    /// Takes the next bytes. After a fault it answers that same fault each time.
    pub fn feed(&mut self, piece: &[u8]) -> Result<(), LogFault>
        ensures core { self.new.core ≡ self.old.core }
        ensures cores { self.new.cores ≡ self.old.cores }
        ensures fed { Feeds self.old.core self.old.cores
            self.old.fed piece.now result self.new.fed }
        // It answers every fault but Truncated in the call whose bytes settle it.
        ensures at_once { OnOk result (IsOpen self.new.core self.new.cores self.new.fed) }
        // No log has more bytes.
        ensures bounded { OnOk result (fed_len self.new.fed < 2 ^ 27) }
    {
        self.reader.feed_all(&mut self.records, piece)
    }

    /// The log that the fed bytes spell, or their first fault.
    pub fn finish(self) -> Result<Vec<Record>, LogFault>
        ensures { Finishes self.core self.cores self.fed result }
    {
        self.reader.check_end()?;
        Ok(self.records)
    }
}
