//! A log in pieces.

ghost use Rattle.std.specs.Prelude.{◌≡◌, ◌<◌, ◌≤◌, ℕ, List};
ghost use Rattle.std.specs.List.{flat_map};
ghost use Rattle.log_file.specs.Answers.{IsAnswer};

use super::fault::LogFault;
use super::log_reader::LogReader;
use log_record::Record;
use mem_op::CoreId;
use std::alloc::Global;

/// The log of this core of `cores` that the pieces spell together, or their first fault. The
/// answer is the same however they were cut. 10 comes if a growth was refused.
pub fn read_pieces(
    alloc: Global,
    pieces: &[Vec<u8>],
    core: CoreId,
    cores: u64,
) -> Result<Vec<Record>, LogFault>
    ensures { IsAnswer core cores (flat_map (λ piece. piece.items) pieces.now) result }
{
    let mut reader = LogReader::new(alloc, core, cores);
    for piece in pieces {
        reader.feed(piece)?;
    }
    reader.finish()
}
