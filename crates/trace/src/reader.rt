//! A trace read in pieces.

ghost use Rattle.std.specs.Prelude.{◌≡◌, ◌++◌, ℕ, List, [], None, Some, IfSome, MatchResult, length};
ghost use Rattle.std.specs.Str.Lines.{strip_carriage_return};
ghost use Rattle.trace.specs.declared.line.TraceLine.{TraceLine};
ghost use Rattle.trace.specs.Reading.{IsSettled, Stands, WasFed};
ghost use Rattle.trace.specs.Texts.{IsFault, IsFaultAt, SpellsTrace};
ghost use Rattle.trace.specs.inner.Taking.{TakesLine};

use super::fault::TraceFault;
use super::line::read_line;
use super::refusal::TraceFull;
use super::trace::Trace;
use std::alloc::Global;
use std::marker::Model;
use text_lines::next_line;

/// A line without the carriage return at its end.
pub fn without_return(line: &[u8]) -> &[u8]
    ensures { result.now ≡ strip_carriage_return line.now }
{
    match line {
        [front @ .., b'\r'] => front,
        _ => line,
    }
}

/// Takes one more line.
fn take_line(trace: &mut Trace, count: &mut u64, line: &[u8]) -> Result<(), TraceFault>
    ensures { (said : List TraceLine) → Stands trace.old count.old said → MatchResult result
        (λ _. TakesLine said line.now trace.new count.new)
        (IsFaultAt said line.now) }
{
    *count = count.saturating_add(1);
    let number = *count;
    let Some(said) = read_line(line) else {
        return Err(TraceFault::BadTraceLine { line: number });
    };
    match trace.add(line, said) {
        Ok(()) => Ok(()),
        Err(TraceFull::TooMany) => Err(TraceFault::TooMany { line: number }),
        Err(TraceFull::OutOfMemory) => Err(TraceFault::OutOfMemory),
    }
}

/// Reads the text of a trace, fed in pieces cut anywhere. It keeps only the bytes of the line that a piece cuts.
#[derive(Drop)]
pub struct TraceReader {
    trace: Trace,
    /// How many whole lines there were.
    count: u64,
    /// The bytes of the line that isn't whole yet.
    begun: Vec<u8>,
    fault: Option<TraceFault>,
}

impl Model for TraceReader {
    ghost use Rattle.trace.specs.Reading.{Reading};

    ghost Value = { Reading };

    ghost view = { λ r. record { cores = r.trace; count = r.count; begun = r.begun.items; fault = r.fault } };
}

/// Takes the line that ends with this part, where `begun` has the bytes before it.
fn end_line(
    trace: &mut Trace,
    count: &mut u64,
    begun: &mut Vec<u8>,
    part: &[u8],
) -> Result<(), TraceFault>
    ensures { (said : List TraceLine) → Stands trace.old count.old said → MatchResult result
        (λ _. TakesLine said (strip_carriage_return (begun.old.items ++ part.now)) trace.new count.new
        × (begun.new.items ≡ []))
        (IsFaultAt said (strip_carriage_return (begun.old.items ++ part.now))) }
{
    if begun.is_empty() {
        return take_line(trace, count, without_return(part));
    }
    begun.extend_from_slice(part)?;
    take_line(trace, count, without_return(begun))?;
    begun.clear();
    Ok(())
}

impl TraceReader {
    /// A reader that was fed nothing.
    pub fn new(alloc: Global) -> TraceReader
        ensures { WasFed result [] }
    {
        TraceReader {
            trace: Trace::new(alloc),
            count: 0,
            begun: Vec::new(alloc),
            fault: None,
        }
    }

    /// Takes the lines that end in a piece, and keeps the beginning of one more.
    fn take(&mut self, piece: &[u8]) -> Result<(), TraceFault>
        ensures { (bytes : List ℕ) → WasFed self.old bytes → MatchResult result
            (λ _. WasFed self.new (bytes ++ piece.now))
            (IsSettled (bytes ++ piece.now)) }
    {
        let mut rest = piece;
        while let Some((part, behind)) = next_line(rest) {
            end_line(&mut self.trace, &mut self.count, &mut self.begun, part)?;
            rest = behind;
        }
        self.begun.extend_from_slice(rest)?;
        Ok(())
    }

    /// Answers the fault that is kept, if one is.
    fn faultless(&self) -> Result<(), TraceFault>
        ensures { MatchResult result (λ _. self.now.fault ≡ None) (λ fault. self.now.fault ≡ Some fault) }
    {
        match self.fault {
            Some(fault) => Err(fault),
            None => Ok(()),
        }
    }

    /// Takes the next bytes. The fault of a line comes with the piece in which the line ends, and from then on each call answers it.
    pub fn feed(&mut self, piece: &[u8]) -> Result<(), TraceFault>
        ensures fed { (bytes : List ℕ) → WasFed self.old bytes → MatchResult result
            (λ _. WasFed self.new (bytes ++ piece.now))
            (λ fault. (self.new.fault ≡ Some fault) × IsSettled (bytes ++ piece.now) fault) }
        ensures again { IfSome self.old.fault (λ fault.
            MatchResult result (λ _. ⊥) (λ f. f ≡ fault) × (self.new.fault ≡ Some fault)) }
    {
        self.faultless()?;
        let outcome = self.take(piece);
        if let Err(fault) = outcome {
            self.fault = Some(fault);
        }
        outcome
    }

    /// The trace of the bytes that were fed, or their first fault.
    pub fn finish(self) -> Result<Trace, TraceFault>
        ensures ends { (bytes : List ℕ) → WasFed self bytes → MatchResult result
            (λ trace. SpellsTrace bytes trace)
            (IsFault bytes) }
        ensures again { IfSome self.fault (λ fault. MatchResult result (λ _. ⊥) (λ f. f ≡ fault)) }
    {
        self.faultless()?;
        let TraceReader {
            mut trace,
            mut count,
            begun,
            ..
        } = self;
        if !begun.is_empty() {
            take_line(&mut trace, &mut count, &begun)?;
        }
        Ok(trace)
    }
}

impl Trace {
    /// The trace whose text this is, or its first fault.
    pub fn parse(alloc: Global, text: &[u8]) -> Result<Trace, TraceFault>
        ensures { MatchResult result (λ trace. SpellsTrace text.now trace) (IsFault text.now) }
    {
        let mut reader = TraceReader::new(alloc);
        reader.feed(text)?;
        reader.finish()
    }
}
