//! A trace read from a source and replayed.

ghost use Rattle.std.specs.Prelude.{◌≡◌, ℕ, List, IsErrOf, MatchResult, OnOk};
ghost use Rattle.log_file.specs.Devices.{Failed, Tells};
ghost use Rattle.trace_replay.specs.Answers.{IsFault, IsReplayed, IsVerdict};
ghost use Rattle.trace_replay.specs.Reading.{ReadsOn};
ghost use Rattle.trace_replay.specs.inner.Feeding.{IsAnswerOf, answer_to};
ghost use Rattle.trace_replay.specs.declared.stop.Stop.TheVariants.{Refused};

use super::fault::ReplayFault;
use super::line_replay::LineReplay;
use super::stop::Stop;
use super::stores_by_word::StoresByWord;
use super::verdict::ReplayVerdict;
use log_file::ByteSource;
use std::alloc::Global;

/// How many bytes are read at once.
const PIECE: usize = 65_536;

/// Replays the lines of a source, piece by piece, and gives how many operations they have.
fn replay_pieces<S: ByteSource>(
    alloc: Global,
    source: &mut S,
    stores: &mut Option<StoresByWord>,
) -> Result<u64, Stop>
    ensures answer { (bytes : List ℕ) × Tells (S.remaining source.old) bytes
        × MatchResult result (IsReplayed bytes) (λ stop. IsAnswerOf bytes (answer_to stop)) }
    ensures far { ReadsOn (S.remaining source.old) (S.remaining source.new) }
    ensures read { IsErrOf result (Stop.Refused ReplayFault.Read) →
        Failed (S.failed source.old) (S.failed source.new) }
    ensures quiet { ¬ IsErrOf result (Stop.Refused ReplayFault.Read) →
        S.failed source.new ≡ S.failed source.old }
{
    let mut lines = LineReplay::new(alloc);
    let mut begun = Vec::new(alloc);
    let mut buffer = vec![in alloc; 0u8; PIECE]?;
    'pieces: for _ in 0..u64::MAX {
        let room = buffer.as_mut_slice();
        let count = source.read(room)?;
        if count == 0 {
            return lines.finish(stores, begun.as_slice());
        }
        lines.feed(stores, &mut begun, &room[..count])?;
    }
    Err(Stop::Refused(ReplayFault::OutOfMemory))
}

/// The answer to a stop.
fn answer_to(stop: Stop) -> Result<ReplayVerdict, ReplayFault>
    ensures { result ≡ answer_to stop }
{
    match stop {
        Stop::Wrong(wrong) => Ok(ReplayVerdict::No(wrong)),
        Stop::Refused(fault) => Err(fault),
    }
}

/// Judges a trace in the order in which its lines stand: Yes if that is a sequential order of it, and No with the first operation at which it isn't.
/// It reads no further than a piece of 65,536 bytes beyond that. It refuses with 42 at the first line that isn't a line of a trace, with 10 if memory
/// was refused, and with 28 if a read failed. It keeps the stores that it performed by their words, if `stores` is there.
pub fn replay<S: ByteSource>(
    alloc: Global,
    source: &mut S,
    stores: &mut Option<StoresByWord>,
) -> Result<ReplayVerdict, ReplayFault>
    ensures answer { (bytes : List ℕ) × Tells (S.remaining source.old) bytes
        × MatchResult result (IsVerdict bytes) (IsFault bytes) }
    ensures far { ReadsOn (S.remaining source.old) (S.remaining source.new) }
    // It answers that a read failed only if the source failed in this call, and it passes over no failure.
    ensures read { IsErrOf result ReplayFault.Read →
        Failed (S.failed source.old) (S.failed source.new) }
    ensures quiet { ¬ IsErrOf result ReplayFault.Read → S.failed source.new ≡ S.failed source.old }
{
    match replay_pieces(alloc, source, stores) {
        Ok(count) => Ok(ReplayVerdict::Yes(count)),
        Err(stop) => answer_to(stop),
    }
}
