//! Reads the line of a step.

ghost use Rattle.std.specs.Prelude.{◌≡◌, ◌<◌, ◌^◌, codes, IfOk};
ghost use Rattle.decimal_text.specs.Numbers.{numeral};
ghost use Rattle.refutation.specs.Grammar.{range_text, RangeFits};
ghost use Rattle.refutation.specs.inner.Telling.{TellsWords, TellsReason, TellsStep, TellsLine};

use super::reading::{named, range, source};
use super::state_line::read_states;
use super::step::{Path, Ranges, Step};
use decimal_text::after_text;
use mem_op::OpId;
use std::alloc::{AllocError, Global};
use text_lines::read_spaced;

/// The ranges that the bytes spell, each with a space before it; None if the bytes are something else.
#[tactic(auto, using(crate::proofs::Parts::ranges_are_words, text_lines::proofs::SpacedWords::word_shorter))]
fn read_ranges(alloc: Global, bytes: &[u8]) -> Result<Option<Ranges>, AllocError>
    ensures { IfOk result (TellsWords range_text RangeFits bytes.now) }
{
    let mut ranges = Vec::new(alloc);
    let mut rest = bytes;
    while let Some((found, behind)) = range(rest) {
        ranges.push(found)?;
        rest = behind;
    }
    if rest.is_empty() {
        Ok(Some(Ranges::new(ranges)))
    } else {
        Ok(None)
    }
}

/// The path whose numbers the bytes spell, each with a space before it; None if the bytes are something else.
#[tactic(auto, using(text_lines::proofs::SpacedWords::numbers_are_words, text_lines::proofs::SpacedWords::word_shorter))]
fn read_path(alloc: Global, bytes: &[u8]) -> Result<Option<Path>, AllocError>
    ensures { IfOk result (TellsWords numeral (λ number. number < 2 ^ 64) bytes.now) }
{
    let mut facts = Vec::new(alloc);
    let mut rest = bytes;
    while let Some((number, behind)) = read_spaced(rest) {
        facts.push(number as usize)?;
        rest = behind;
    }
    if rest.is_empty() {
        Ok(Some(Path::new(facts)))
    } else {
        Ok(None)
    }
}

/// What a step of from-read or of write-order names.
#[derive(Drop)]
struct Reason {
    source: usize,
    write: OpId,
    path: Path,
}

/// The number of a fact, the write and the path that the bytes spell; None if the bytes are something else.
#[tactic(auto, using(crate::proofs::StepLines::reason_no_source, crate::proofs::StepLines::reason_no_write))]
fn read_reason(alloc: Global, bytes: &[u8]) -> Result<Option<Reason>, AllocError>
    ensures { IfOk result (TellsReason bytes.now) }
{
    let Some((source, rest)) = source(bytes) else {
        return Ok(None);
    };
    let Some((write, rest)) = named(rest) else {
        return Ok(None);
    };
    match read_path(alloc, rest)? {
        Some(path) => Ok(Some(Reason {
            source: source as usize,
            write,
            path,
        })),
        None => Ok(None),
    }
}

/// The step that splits by a read's source and has these fields; None if there is no such step.
fn read_read(alloc: Global, fields: &[u8]) -> Result<Option<Step>, AllocError>
    ensures { IfOk result (TellsStep (codes "read ") fields.now) }
{
    let Some((read, rest)) = named(fields) else {
        return Ok(None);
    };
    match read_ranges(alloc, rest)? {
        Some(ranges) => Ok(Some(Step::Read { read, ranges })),
        None => Ok(None),
    }
}

/// The step of from-read that has these fields; None if there is no such step.
#[tactic(auto, unfolding(crate::specs::Grammar::fields_text))]
fn read_from_read(alloc: Global, fields: &[u8]) -> Result<Option<Step>, AllocError>
    ensures { IfOk result (TellsStep (codes "from-read ") fields.now) }
{
    Ok(read_reason(alloc, fields)?.map(|reason| Step::FromRead {
        source: reason.source,
        write: reason.write,
        path: reason.path,
    }))
}

/// The step of write-order that has these fields; None if there is no such step.
#[tactic(auto, unfolding(crate::specs::Grammar::fields_text))]
fn read_write_order(alloc: Global, fields: &[u8]) -> Result<Option<Step>, AllocError>
    ensures { IfOk result (TellsStep (codes "write-order ") fields.now) }
{
    Ok(read_reason(alloc, fields)?.map(|reason| Step::WriteOrder {
        source: reason.source,
        write: reason.write,
        path: reason.path,
    }))
}

/// The step that closes a case by a cycle and has these fields; None if there is no such step.
#[tactic(auto, unfolding(crate::specs::Grammar::fields_text))]
fn read_cycle(alloc: Global, fields: &[u8]) -> Result<Option<Step>, AllocError>
    ensures { IfOk result (TellsStep (codes "cycle :") fields.now) }
{
    Ok(read_path(alloc, fields)?.map(|path| Step::Cycle { path }))
}

/// The step whose line this is, without its line feed; None if it isn't the line of a step.
pub(crate) fn read_step(alloc: Global, line: &[u8]) -> Result<Option<Step>, AllocError>
    ensures { IfOk result (TellsLine line.now) }
{
    if let Some(fields) = after_text(b"read ", line) {
        read_read(alloc, fields)
    } else if let Some(fields) = after_text(b"from-read ", line) {
        read_from_read(alloc, fields)
    } else if let Some(fields) = after_text(b"write-order ", line) {
        read_write_order(alloc, fields)
    } else if let Some(fields) = after_text(b"cycle :", line) {
        read_cycle(alloc, fields)
    } else if let Some(fields) = after_text(b"states", line) {
        read_states(alloc, fields)
    } else {
        Ok(None)
    }
}
