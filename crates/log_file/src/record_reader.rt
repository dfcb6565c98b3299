//! The records of a log, one at a time.

ghost use Rattle.std.specs.Prelude.{◌≡◌, ◌<◌, ◌≤◌, ◌++◌, ℕ, List, [], None, Some, Err, IfErr, IfOk, IfSome, IsNone, OnOk, MatchResult, length};
ghost use Rattle.log_record.specs.declared.record.Record.{Record};
ghost use Rattle.log_file.specs.Answering.{AnswersOne, HasAnswered};
ghost use Rattle.log_file.specs.Answers.{IsFaultOf, IsOfText};
ghost use Rattle.log_file.specs.Feeding.{IsSettled};
ghost use Rattle.log_file.specs.Keeping.{KeepsRecords};
ghost use Rattle.log_file.specs.Log.{Spells};
ghost use Rattle.log_file.specs.inner.NextLine.{IsBehind, IsLineRefused, IsPartRefused, IsRefused, IsSameLog, IsTooFar, TakesLine, fault_of_more};
ghost use Rattle.log_file.specs.inner.TakesPiece.{TakesPiece};

use super::fault::{FormatFault, LogFault};
use super::one_line::{LONGEST_LINE, check_body, check_header};
use super::record_list::RecordList;
use super::stage::Stage;
use arrayvec::ArrayVec;
use log_record::Record;
use mem_op::CoreId;
use memchr::memchr;
use std::marker::Model;

/// The bytes of the begun line, or, if there are none, the line.
#[inline(always)]
fn begun_or<'a>(begun: &'a [u8], line: &'a [u8]) -> &'a [u8]
    ensures none { begun.now ≡ [] → result.now ≡ line.now }
    ensures some { 0 < length begun.now → result.now ≡ begun.now }
{
    if begun.is_empty() { line } else { begun }
}

/// Reads the log of one core, from pieces that may be cut anywhere, and answers its records one at a
/// time. It keeps none of them.
#[derive(Drop)]
pub struct RecordReader {
    /// The core whose log it should be.
    core: u64,
    /// How many cores there should be.
    cores: u64,
    /// The last whole line that it took.
    stage: Stage,
    /// How many records it took.
    count: u64,
    /// The bytes of the line that isn't whole yet. The array has room for a line of any format.
    begun: ArrayVec<u8, LONGEST_LINE>,
    /// The fault that it answers from now on, if one came.
    fault: Option<LogFault>,
}

impl Model for RecordReader {
    ghost use Rattle.log_file.specs.Answering.{Answering};

    ghost Value = { Answering };

    ghost use Rattle.log_file.specs.RecordKeeping.{answering_of, IsReading};

    ghost view = { answering_of };

    ghost invariant = { IsReading };
}

impl RecordReader {
    /// A reader of the log of this core of `cores`. It has had no bytes yet.
    pub fn new(core: CoreId, cores: u64) -> RecordReader
        ensures core { result.core ≡ core }
        ensures cores { result.cores ≡ cores }
        ensures none { HasAnswered result [] [] }
    {
        RecordReader {
            core: core.get(),
            cores,
            stage: Stage::Header,
            count: 0,
            begun: ArrayVec::new(),
            fault: None,
        }
    }

    // The fault of a line that is too long. After the end line even one byte is too many.
    fn fault_of_more(&self) -> LogFault
        ensures { result ≡ fault_of_more self.now.stage self.now.count }
    {
        match self.stage {
            Stage::Header => LogFault::At(1, FormatFault::BadHeader),
            Stage::Records(_) => LogFault::At(self.count + 2, FormatFault::BadLine),
            Stage::Ended(_) => LogFault::At(self.count + 3, FormatFault::TrailingBytes),
        }
    }

    // Answers this fault, and keeps it.
    fn refuse<T>(&mut self, fault: LogFault) -> Result<T, LogFault>
        ensures kept { self.new ≡ record self.old { fault = Some fault } }
        ensures answered { result ≡ Err fault }
    {
        self.fault = Some(fault);
        Err(fault)
    }

    // Answers the kept fault, if there is one.
    fn faultless(&self) -> Result<(), LogFault>
        ensures { MatchResult result (λ _. self.now.fault ≡ None) (λ fault. self.now.fault ≡ Some fault) }
    {
        match self.fault {
            Some(fault) => Err(fault),
            None => Ok(()),
        }
    }

    // Takes a part of a line that isn't whole yet.
    fn begin(&mut self, part: &[u8]) -> Result<(), LogFault>
        ensures fits { OnOk result (¬ IsTooFar self.old part.now) }
        ensures begun { OnOk result (self.new ≡ record self.old { begun = self.old.begun ++ part.now }) }
        ensures refused { IfErr result (λ fault. IsPartRefused self.old part.now fault
            × (self.new ≡ record self.old { fault = Some fault })) }
    {
        let ended = matches!(self.stage, Stage::Ended(_)) && !part.is_empty();
        if ended || self.begun.len() + part.len() > self.stage.line_limit() {
            return self.refuse(self.fault_of_more());
        }
        let Ok(()) = self.begun.try_extend_from_slice(part) else {
            unreachable!()
        };
        Ok(())
    }

    // Checks a whole line, without its line feed, and answers which line was read last then, and the
    // record if the line is one.
    #[inline(always)]
    fn check_line(&self, line: &[u8]) -> Result<(Stage, Option<Record>), LogFault>
        ensures { MatchResult result
            (λ found. IsBehind self.now line.now found.1 found.0) (IsRefused self.now line.now) }
    {
        match self.stage {
            Stage::Header => match check_header(line, self.core, self.cores) {
                Ok(format) => Ok((Stage::Records(format), None)),
                Err(fault) => Err(LogFault::At(1, fault)),
            },
            Stage::Records(format) => match check_body(format, line, self.count) {
                Ok(Some(logged)) => Ok((self.stage, Some(logged))),
                Ok(None) => Ok((Stage::Ended(format), None)),
                Err(fault) => Err(LogFault::At(self.count + 2, fault)),
            },
            Stage::Ended(_) => Err(self.fault_of_more()),
        }
    }

    // Takes the last part of a line, and answers the record if the line is one.
    #[inline(always)]
    fn end(&mut self, part: &[u8]) -> Result<Option<Record>, LogFault>
        ensures taken { IfOk result (λ logged. TakesLine self.old part.now logged self.new) }
        ensures same { IsSameLog self.old self.new }
        ensures refused { IfErr result (λ fault. IsLineRefused self.old part.now fault
            × (self.new.fault ≡ Some fault)) }
    {
        if !self.begun.is_empty() {
            self.begin(part)?;
        }
        match self.check_line(begun_or(self.begun.as_slice(), part)) {
            Ok((stage, logged)) => {
                self.stage = stage;
                if logged.is_some() {
                    self.count += 1;
                }
                self.begun.clear();
                Ok(logged)
            }
            Err(fault) => self.refuse(fault),
        }
    }

    /// Takes the next bytes up to the end of the next record's line, and answers how many bytes those
    /// are, and the record. If no record's line ends in the piece, it takes all of it, and answers no
    /// record. After a fault it answers that same fault each time. Takes no memory.
    #[inline(always)]
    pub fn feed_one(&mut self, piece: &[u8]) -> Result<(usize, Option<Record>), LogFault>
        ensures core { self.new.core ≡ self.old.core }
        ensures cores { self.new.cores ≡ self.old.cores }
        ensures within { IfOk result (λ one. one.0 ≤ length piece.now) }
        // The records of all pieces, in order, are those of the whole text. A fault is the text's,
        // however the text goes on.
        ensures fed { (bytes : List ℕ) (records : List Record) → HasAnswered self.old bytes records
            → MatchResult result
            (λ one. AnswersOne bytes records piece.now one self.new)
            (λ fault. (self.new.fault ≡ Some fault)
            × IsSettled self.old.core self.old.cores (bytes ++ piece.now) fault) }
        ensures again { IfSome self.old.fault (λ fault.
            MatchResult result (λ _. ⊥) (λ f. f ≡ fault) × (self.new.fault ≡ Some fault)) }
        // So 10 and 28 come only if they came before.
        ensures text { IsNone self.old.fault → IfErr result IsOfText }
    {
        self.faultless()?;
        let mut rest = piece;
        while let Some(at) = memchr(b'\n', rest) {
            let logged = self.end(&rest[..at])?;
            rest = &rest[at + 1..];
            if logged.is_some() {
                return Ok((piece.len() - rest.len(), logged));
            }
        }
        self.begin(rest)?;
        Ok((piece.len(), None))
    }

    /// Takes all of a piece, and adds its records to this list, which has those of the pieces
    /// before. Lack of memory for them is a fault too.
    pub(crate) fn feed_all<L: RecordList>(
        &mut self,
        records: &mut L,
        piece: &[u8],
    ) -> Result<(), LogFault>
        requires { KeepsRecords self.old (L.records records.old) }
        ensures base { L.base records.new ≡ L.base records.old }
        ensures fed { TakesPiece self.old (L.records records.old) piece.now result self.new (L.records records.new) }
    {
        self.faultless()?;
        let mut rest = piece;
        while let (used, Some(logged)) = self.feed_one(rest)? {
            if records.keep(logged).is_err() {
                return self.refuse(LogFault::OutOfMemory);
            }
            rest = &rest[used..];
        }
        Ok(())
    }

    /// Whether the log is whole if its bytes end here. If it isn't, answers the fault that came
    /// before, or Truncated at the line in which they end.
    pub fn check_end(&self) -> Result<(), LogFault>
        ensures ends { (bytes : List ℕ) (records : List Record) → HasAnswered self.now bytes records
            → MatchResult result
            (λ _. Spells self.now.core self.now.cores bytes records)
            (IsFaultOf self.now.core self.now.cores bytes) }
        ensures again { IfSome self.now.fault (λ fault. MatchResult result (λ _. ⊥) (λ f. f ≡ fault)) }
    {
        self.faultless()?;
        match self.stage {
            Stage::Header => Err(LogFault::At(1, FormatFault::Truncated)),
            Stage::Records(_) => Err(LogFault::At(self.count + 2, FormatFault::Truncated)),
            Stage::Ended(_) => Ok(()),
        }
    }
}
