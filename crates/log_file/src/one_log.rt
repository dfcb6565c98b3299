//! A log read from a device, piece by piece.

ghost use Rattle.std.specs.Prelude.{◌≡◌, ◌<◌, ℕ, List, [], IfOk, IsErrOf, vec_len};
ghost use Rattle.log_file.specs.Answering.{HasAnswered};
ghost use Rattle.log_file.specs.Answers.{IsListAnswer, IsReadAnswer};
ghost use Rattle.log_file.specs.Devices.{Failed, Tells};

use super::byte_source::ByteSource;
use super::fault::LogFault;
use super::record_list::RecordList;
use super::record_reader::RecordReader;
use log_record::Record;
use mem_op::CoreId;
use std::alloc::{AllocError, Global};

/// The most bytes of a piece: few enough to stay in the processor's cache.
const PIECE_BYTES: usize = 32_768;

/// Room for a piece. Err if memory was refused.
fn piece_room(alloc: Global) -> Result<Vec<u8>, AllocError>
    ensures { IfOk result (λ room. 0 < vec_len room) }
{
    vec![in alloc; 0u8; PIECE_BYTES]
}

/// This list with the records of the log that the source's bytes spell, or the first fault of these bytes. The reader has had
/// no bytes yet, and the list has no records.
pub(crate) fn read_list<S: ByteSource, L: RecordList + Drop>(
    alloc: Global,
    source: &mut S,
    mut reader: RecordReader,
    mut list: L,
) -> Result<L, LogFault>
    requires { HasAnswered reader [] (L.records list) }
    ensures base { IfOk result (λ read. L.base read ≡ L.base list) }
    ensures answer { (bytes : List ℕ) × Tells (S.remaining source.old) bytes
        × IsListAnswer L.records reader.core reader.cores bytes result }
    ensures read { IsErrOf result LogFault.Read →
        Failed (S.failed source.old) (S.failed source.new) }
    ensures quiet { ¬ IsErrOf result LogFault.Read → S.failed source.new ≡ S.failed source.old }
{
    let mut buffer = piece_room(alloc)?;
    'pieces: loop {
        let room = buffer.as_mut_slice();
        let count = source.read(room)?;
        if count == 0 {
            reader.check_end()?;
            return Ok(list);
        }
        reader.feed_all(&mut list, &room[..count])?;
    }
}

/// The log of this core of `cores` that the source's bytes spell, or their first fault. 10 comes
/// if a growth was refused, 28 if a read failed.
pub fn read_log<S: ByteSource>(
    alloc: Global,
    source: &mut S,
    core: CoreId,
    cores: u64,
) -> Result<Vec<Record>, LogFault>
    // The source tells bytes, and this is the answer to these.
    ensures answer { (bytes : List ℕ) × Tells (S.remaining source.old) bytes
        × IsReadAnswer core cores bytes result }
    // It answers a failed read only if the source failed in this call.
    ensures read { IsErrOf result LogFault.Read →
        Failed (S.failed source.old) (S.failed source.new) }
    // And it passes over no failed read.
    ensures quiet { ¬ IsErrOf result LogFault.Read → S.failed source.new ≡ S.failed source.old }
{
    let reader = RecordReader::new(core, cores);
    read_list(alloc, source, reader, Vec::new(alloc))
}
