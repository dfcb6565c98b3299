//! The lines of a trace, replayed as they come.

ghost use Rattle.std.specs.Prelude.{◌≡◌, ◌++◌, [], ℕ, List, MatchResult};
ghost use Rattle.std.specs.Str.Lines.{strip_carriage_return};
ghost use Rattle.trace.specs.declared.line.TraceLine.{TraceLine};
ghost use Rattle.trace_replay.specs.Answers.{IsReplayed};
ghost use Rattle.trace_replay.specs.States.{StandsFor};
ghost use Rattle.trace_replay.specs.Steps.{Step, with_said};
ghost use Rattle.trace_replay.specs.inner.Feeding.{IsSettled, IsStopAt, IsStopBy, IsStopOf, Stands, TakesLine, WasFed};

use super::fault::ReplayFault;
use super::replayer::Replayer;
use super::step_id::StepId;
use super::stop::Stop;
use super::stores_by_word::StoresByWord;
use flat_replay::Access;
use std::alloc::{AllocError, Global};
use text_lines::next_line;
use trace::{TraceLine, parse_line, without_return};

/// Lines that were replayed.
#[derive(Drop)]
pub(crate) struct LineReplay {
    /// Their operations.
    replayer: Replayer,
    /// How many there were.
    number: u64,
}

/// Keeps an operation, if stores are kept by their words.
fn keep(stores: &mut Option<StoresByWord>, id: StepId, access: &Access) -> Result<(), AllocError> {
    match stores {
        Some(stores) => stores.keep(id, access),
        None => Ok(()),
    }
}

/// Performs the operation that a line says, if it says one.
fn perform(
    replayer: &mut Replayer,
    stores: &mut Option<StoresByWord>,
    said: TraceLine,
) -> Result<(), Stop>
    ensures { (steps : List Step) → StandsFor replayer.old steps → MatchResult result
        (λ _. StandsFor replayer.new (with_said steps said))
        (IsStopBy steps said) }
{
    match said {
        TraceLine::Nothing => Ok(()),
        TraceLine::Performs(core, access) => {
            let id = replayer.next_id(core);
            match replayer.step(core, &access)? {
                None => Ok(keep(stores, id, &access)?),
                Some(wrong) => Err(Stop::Wrong(wrong)),
            }
        }
    }
}

impl LineReplay {
    /// No line was replayed.
    pub(crate) fn new(alloc: Global) -> LineReplay
        ensures { WasFed result [] [] }
    {
        LineReplay {
            replayer: Replayer::new(alloc),
            number: 0,
        }
    }

    /// Replays one more line.
    fn take(&mut self, stores: &mut Option<StoresByWord>, line: &[u8]) -> Result<(), Stop>
        ensures { (said : List TraceLine) → Stands self.old said → MatchResult result
            (λ _. TakesLine said line.now self.new)
            (IsStopAt said line.now) }
    {
        self.number = self.number.saturating_add(1);
        let Some(said) = parse_line(line) else {
            return Err(Stop::Refused(ReplayFault::BadTraceLine { line: self.number }));
        };
        perform(&mut self.replayer, stores, said)
    }

    /// Replays the line that ends with this part and begins with the bytes in `begun`.
    fn end(
        &mut self,
        stores: &mut Option<StoresByWord>,
        begun: &mut Vec<u8>,
        part: &[u8],
    ) -> Result<(), Stop>
        ensures { (said : List TraceLine) → Stands self.old said → MatchResult result
            (λ _. TakesLine said (strip_carriage_return (begun.old.items ++ part.now)) self.new
            × (begun.new.items ≡ []))
            (IsStopAt said (strip_carriage_return (begun.old.items ++ part.now))) }
    {
        if begun.is_empty() {
            return self.take(stores, without_return(part));
        }
        begun.extend_from_slice(part)?;
        self.take(stores, without_return(begun))?;
        begun.clear();
        Ok(())
    }

    /// Replays the lines that end in a piece. `begun` has the bytes before the piece, and then those that begin one more line.
    pub(crate) fn feed(
        &mut self,
        stores: &mut Option<StoresByWord>,
        begun: &mut Vec<u8>,
        piece: &[u8],
    ) -> Result<(), Stop>
        ensures { (bytes : List ℕ) → WasFed self.old begun.old.items bytes → MatchResult result
            (λ _. WasFed self.new begun.new.items (bytes ++ piece.now))
            (IsSettled (bytes ++ piece.now)) }
    {
        let mut rest = piece;
        while let Some((part, behind)) = next_line(rest) {
            self.end(stores, begun, part)?;
            rest = behind;
        }
        begun.extend_from_slice(rest)?;
        Ok(())
    }

    /// Replays the last line, if one without a line feed is left, and gives how many operations there were.
    pub(crate) fn finish(
        mut self,
        stores: &mut Option<StoresByWord>,
        begun: &[u8],
    ) -> Result<u64, Stop>
        ensures { (bytes : List ℕ) → WasFed self begun.now bytes → MatchResult result
            (IsReplayed bytes)
            (IsStopOf bytes) }
    {
        if !begun.is_empty() {
            self.take(stores, begun)?;
        }
        Ok(self.replayer.count())
    }
}
