//! A record's line, written and read.

ghost use Rattle.std.specs.Prelude.{◌≡◌, IfOk, IsErrOf, IsTrue, Some, string_bytes};
ghost use Rattle.log_record.specs.Line.{record_text, source_text, has_act, IsRecordShape, Fits, FitsIn};
ghost use Rattle.log_record.specs.declared.record.Record.{Record};

use super::act::Act;
use super::fault::LineFault;
use super::format::Format;
use super::reading::whole_record;
use super::record::Record;
use mem_op::Source;
use std::alloc::{AllocError, Global};
use std::fmt;
use std::fmt::Display;

/// The text of a source: `init`, or the core and the index of a store.
#[derive(Clone, Copy)]
struct SourceText {
    source: Source,
}

impl Display for SourceText {
    ghost output = { λ s. Some (source_text s.source) };

    #[tactic(auto, using(decimal_text::proofs::Printing::numeral_decimal))]
    fn fmt<W: fmt::Write>(&self, f: &mut fmt::Formatter<W>) -> fmt::Result {
        match &self.source {
            Source::Init => f.write_str("init"),
            Source::Store(id) => {
                let core = id.core.get();
                let index = id.index.get();
                write!(f, "{core}.{index}")
            }
        }
    }
}

/// Its line in a log, without its line feed.
impl Display for Record {
    ghost output = { λ r. Some (record_text r) };

    #[tactic(auto, using(decimal_text::proofs::Printing::numeral_decimal), unfolding(crate::specs::Line::record_text))]
    fn fmt<W: fmt::Write>(&self, f: &mut fmt::Formatter<W>) -> fmt::Result {
        let addr = self.addr.get();
        let value = self.value;
        let ts = self.ts.get();
        let rank = self.rank.get();
        match self.act() {
            Act::Store => write!(f, "S {addr} {value} {ts} {rank}"),
            Act::Load(source) => {
                let source = SourceText { source };
                write!(f, "L {addr} {value} {ts} {rank} {source}")
            }
            Act::Swap(source, read) => {
                let source = SourceText { source };
                write!(f, "X {addr} {value} {ts} {rank} {source} {read}")
            }
        }
    }
}

/// The line of a record, without its line feed. Err if memory was refused.
pub fn print_line(alloc: Global, logged: &Record) -> Result<String, AllocError>
    ensures { IfOk result (λ line. string_bytes line ≡ record_text logged.now) }
{
    logged.to_string(alloc)
}

// Whether a record's line may begin like this in a log of this format: one of format 1 has no swaps.
#[inline(always)]
#[tactic(auto, unfolding(crate::specs::Line::record_text))]
fn may_begin(format: Format, line: &[u8]) -> bool
    ensures { (r : Record) → line.now ≡ record_text r → result ≡ has_act format r.act }
{
    match line {
        [b'X', ..] => format == Format::Two,
        _ => true,
    }
}

/// The record on this line of a log of this format, without its line feed. BadLine if it isn't a record's
/// line there, whatever the size of its numbers; OutOfRange if it is the line of a record with a number
/// out of range.
#[inline(always)]
#[tactic(auto, using(crate::proofs::Kept::found))]
pub fn read_line(format: Format, line: &[u8]) -> Result<Record, LineFault>
    ensures found { IfOk result (λ r. (line.now ≡ record_text r) × FitsIn format r) }
    ensures bad { IsErrOf result LineFault.BadLine → ¬ IsRecordShape format line.now }
    ensures range { IsErrOf result LineFault.OutOfRange →
        (r : Record) × (line.now ≡ record_text r) × IsTrue (has_act format r.act) × (¬ Fits r) }
{
    if !may_begin(format, line) {
        return Err(LineFault::BadLine);
    }
    match whole_record(line) {
        None => Err(LineFault::BadLine),
        Some(None) => Err(LineFault::OutOfRange),
        Some(Some(read)) => Ok(read),
    }
}
