//! The trace in a file.

ghost use Rattle.std.specs.Prelude.{◌≡◌, ◌<◌, ℕ, List, IfErr, IfOk, OnOk};
ghost use Rattle.host_files.specs.Files.{IsOnlyRead, IsUnread};
ghost use Rattle.log_file.specs.Devices.{Failed, Tells};
ghost use Rattle.trace.specs.Texts.{SpellsTrace};
ghost use Rattle.commands.specs.Traces.{SpellsTraceAt};
ghost use Rattle.commands.specs.inner.Performing.{IsInputFault};

use super::place::Input;
use super::refusal::Refusal;
use host_files::Folder;
use log_file::{ByteSource, ReadFault};
use std::alloc::Global;
use trace::{Trace, TraceReader};

/// How many bytes are read at once.
const PIECE: usize = 32_768;

/// The trace whose text the source's bytes are, read piece by piece, or their first fault. A text that has no end is told as lack of memory.
fn read_pieces<S: ByteSource>(alloc: Global, source: &mut S) -> Result<Trace, Refusal>
    ensures ok { IfOk result (λ trace. (bytes : List ℕ) × Tells (S.remaining source.old) bytes × SpellsTrace bytes trace) }
    ensures err { IfErr result (IsInputFault Input.Trace (Failed (S.failed source.old) (S.failed source.new))) }
{
    let mut reader = TraceReader::new(alloc);
    let mut buffer = vec![in alloc; 0u8; PIECE]?;
    'pieces: for _ in 0..u64::MAX {
        let room = buffer.as_mut_slice();
        let Ok(count) = source.read(room) else {
            return Err(Refusal::Unread(Input::Trace));
        };
        if count == 0 {
            return Ok(reader.finish()?);
        }
        reader.feed(&room[..count])?;
    }
    Err(Refusal::OutOfMemory)
}

/// The trace in a file of the folder: 28 if it can't be opened or read, 10 if a growth was refused, and else the
/// first fault of its text.
pub(crate) fn read_trace<F: Folder>(
    alloc: Global,
    folder: &mut F,
    name: &str,
) -> Result<Trace, Refusal>
    ensures ok { IfOk result (SpellsTraceAt (F.files folder.old).told name.now) }
    ensures err { IfErr result (IsInputFault Input.Trace
        (IsUnread F.Source.remaining F.Source.failed (F.files folder.old) (F.files folder.new) name.now)) }
    ensures quiet { OnOk result (F.files folder.new ≡ F.files folder.old) }
    ensures read { IsOnlyRead (F.files folder.old) (F.files folder.new) }
{
    let mut source = match folder.open_file(name) {
        Ok(source) => source,
        Err(ReadFault::Read) => return Err(Refusal::Unread(Input::Trace)),
        Err(ReadFault::OutOfMemory) => return Err(Refusal::OutOfMemory),
    };
    read_pieces(alloc, &mut source)
}
