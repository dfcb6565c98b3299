//! Reads the text of a litmus test.

ghost use Rattle.std.specs.Prelude.{MatchResult};
ghost use Rattle.std.specs.List.{AllByRecursion};
ghost use Rattle.core_program.specs.Shape.{IsProgram};
ghost use Rattle.litmus.specs.Tests.{IsFault, Spells};
ghost use Rattle.litmus.specs.inner.Whole.{IsLineFault, parts_of};

use super::ending::{read_ending, wrong_line};
use super::header::after_header;
use super::litmus_fault::LitmusFault;
use super::test::{Litmus, Shown};
use core_program::{Instruction, ProgramFormat, ProgramSet, read_sections};
use std::alloc::Global;

/// What the lines of a test say.
#[derive(Drop)]
pub(crate) struct Parts {
    name: Vec<u8>,
    format: ProgramFormat,
    sections: Vec<Vec<Instruction>>,
    shown: Vec<Shown>,
    forbidden: Vec<Vec<u64>>,
}

/// What the lines of a test say. A fault is that of the first line that isn't as it should be.
fn read_lines(alloc: Global, text: &[u8]) -> Result<Parts, LitmusFault>
    ensures { MatchResult result
        (λ parts. Spells text.now (parts_of parts))
        (λ fault. IsLineFault text.now fault) }
{
    let Some((header, body)) = after_header(text) else {
        return Err(LitmusFault::BadLitmusLine(1));
    };
    let name = header.name.to_vec(alloc)?;
    let sections = read_sections(alloc, header.format, header.cores, body)?;
    let count = sections.programs.len() as u64;
    let rest = &body[sections.taken..];
    if count < header.cores {
        return Err(wrong_line(sections.line, count, rest));
    }
    let ending = read_ending(alloc, header.cores, rest, sections.line)?;
    Ok(Parts {
        name,
        format: header.format,
        sections: sections.programs,
        shown: ending.shown,
        forbidden: ending.forbidden,
    })
}

impl Litmus {
    /// The test whose text this is: a first line with its format, name and number of cores, a section of
    /// instructions of the format for each core, a line of the shown registers, the lines of the forbidden outcomes, `end`, each line ended
    /// by a line feed, and nothing after.
    ///
    /// It refuses the text at the first line that isn't so, or is missing: with BadLine if that is an instruction line, with
    /// TooLong if it is a section's 4,097th instruction, and otherwise with BadLitmusLine. If there is no such line, it
    /// refuses with SkipPastEnd at the first jump past the end of its program. OutOfMemory comes if memory was refused.
    pub fn parse(alloc: Global, text: &[u8]) -> Result<Litmus, LitmusFault>
        ensures { MatchResult result
            (λ test. Spells text.now test × AllByRecursion IsProgram test.programs)
            (λ fault. IsFault text.now fault) }
    {
        let parts = read_lines(alloc, text)?;
        let programs = ProgramSet::of_sections(alloc, parts.format, parts.sections)?;
        Ok(Litmus::of_parts(parts.name, programs, parts.shown, parts.forbidden))
    }
}
