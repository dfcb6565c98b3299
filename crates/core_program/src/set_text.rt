//! The text of a set of programs, read.

ghost use Rattle.std.specs.Prelude.{◌≡◌, MatchResult, option_map};
ghost use Rattle.std.specs.List.{AllByRecursion};
ghost use Rattle.core_program.specs.Answers.{IsJumpFault, IsSetFault, SpellsSet};
ghost use Rattle.core_program.specs.Grammar.{IsSection, IsSetOf};
ghost use Rattle.core_program.specs.inner.Reading.{cores_at, first_words, header_at};
ghost use Rattle.core_program.specs.inner.Sections.{IsLineFault, parts_of};
ghost use Rattle.decimal_text.specs.Reading.{front_now};
ghost use Rattle.core_program.specs.Sections.{section_lists};
ghost use Rattle.core_program.specs.Shape.{IsProgram};

use super::fault::ProgramFault;
use super::format::ProgramFormat;
use super::instruction::Instruction;
use super::program::{Program, skip_past_end};
use super::program_set::ProgramSet;
use super::sections::read_sections;
use decimal_text::{after_text, read_field};
use std::alloc::Global;

/// The most cores of a set.
const CORE_LIMIT: u64 = 64;

/// The format that a header's first words name, and the bytes after them.
#[tactic(auto, unfolding(crate::specs::inner::Reading::first_words))]
fn format_of(text: &[u8]) -> Option<(ProgramFormat, &[u8])>
    ensures { front_now result ≡ first_words text.now }
{
    if let Some(rest) = after_text(b"tardis-programs 1 cores ", text) {
        return Some((ProgramFormat::One, rest));
    }
    let rest = after_text(b"tardis-programs 2 cores ", text)?;
    Some((ProgramFormat::Two, rest))
}

/// The number of cores that ends a header, 1..64, and the bytes after it.
#[tactic(auto, unfolding(crate::specs::inner::Reading::cores_at))]
fn cores_at(bytes: &[u8]) -> Option<(u64, &[u8])>
    ensures { front_now result ≡ cores_at bytes.now }
{
    let (number, rest) = read_field(b'\n', bytes)?;
    let cores = number?;
    if cores == 0 || cores > CORE_LIMIT {
        return None;
    }
    Some((cores, rest))
}

/// The format and the number of cores in a header, and the bytes after its line.
#[tactic(auto, unfolding(crate::specs::inner::Reading::header_at))]
fn after_header(text: &[u8]) -> Option<(ProgramFormat, u64, &[u8])>
    ensures { option_map (λ read. (read.0, read.1, read.2.now)) result ≡ header_at text.now }
{
    let (format, rest) = format_of(text)?;
    let (cores, rest) = cores_at(rest)?;
    Some((format, cores, rest))
}

/// A set's format, and its sections.
#[derive(Drop)]
struct Parts {
    format: ProgramFormat,
    sections: Vec<Vec<Instruction>>,
}

/// The format and the sections of a set's text. A fault names the first line that isn't as it
/// should be.
fn read_set(alloc: Global, text: &[u8]) -> Result<Parts, ProgramFault>
    ensures { MatchResult result
        (λ parts. SpellsSet text.now (parts_of parts))
        (λ fault. IsLineFault text.now fault) }
{
    let Some((format, cores, body)) = after_header(text) else {
        return Err(ProgramFault::BadLine(1));
    };
    let sections = read_sections(alloc, format, cores, body)?;
    if (sections.programs.len() as u64) < cores {
        return Err(ProgramFault::BadLine(sections.line));
    }
    match after_text(b"end\n", &body[sections.taken..]) {
        None => Err(ProgramFault::BadLine(sections.line)),
        Some([]) => Ok(Parts {
            format,
            sections: sections.programs,
        }),
        Some(_) => Err(ProgramFault::BadLine(sections.line + 1)),
    }
}

/// The programs of a set's sections. SkipPastEnd at the line of the first jump past the end of its
/// program.
fn programs_of(
    alloc: Global,
    format: ProgramFormat,
    sections: Vec<Vec<Instruction>>,
) -> Result<Vec<Program>, ProgramFault>
    requires { IsSetOf (IsSection format) (section_lists sections.items) }
    ensures { MatchResult result
        (λ programs. (programs.items ≡ section_lists sections.items)
        × AllByRecursion IsProgram programs.items)
        (λ fault. IsJumpFault (section_lists sections.items) fault) }
{
    let mut programs = Vec::new(alloc);
    let mut line = 3;
    for instructions in sections {
        if let Some(i) = skip_past_end(instructions.as_slice()) {
            return Err(ProgramFault::SkipPastEnd(line + i as u64));
        }
        line += instructions.len() as u64 + 1;
        programs.push(Program::of_checked(instructions))?;
    }
    Ok(programs)
}

impl ProgramSet {
    /// The set of this text: a header, a section for each core, `end`, each line ended by a line
    /// feed, and nothing after. The header names the format, which has each of the instructions.
    /// BadLine at the first line that isn't so, or is missing, TooLong at the line of a section's
    /// 4,097th instruction, whichever comes first; if there is neither, SkipPastEnd at the first jump
    /// past the end of its program.
    pub fn parse(alloc: Global, text: &[u8]) -> Result<ProgramSet, ProgramFault>
        ensures { MatchResult result
            (λ set. SpellsSet text.now set × AllByRecursion IsProgram set.programs)
            (λ fault. IsSetFault text.now fault) }
    {
        let parts = read_set(alloc, text)?;
        ProgramSet::of_sections(alloc, parts.format, parts.sections)
    }

    /// The set of these sections, of 1..64 cores, each of at most 4,096 instructions that the format
    /// has, in range. SkipPastEnd at the first jump past the end of its program; the line of core 0
    /// counts as line 2.
    pub fn of_sections(
        alloc: Global,
        format: ProgramFormat,
        sections: Vec<Vec<Instruction>>,
    ) -> Result<ProgramSet, ProgramFault>
        requires { IsSetOf (IsSection format) (section_lists sections.items) }
        ensures { MatchResult result
            (λ set. (set ≡ record { format = format; programs = section_lists sections.items })
            × AllByRecursion IsProgram set.programs)
            (λ fault. IsJumpFault (section_lists sections.items) fault) }
    {
        let programs = programs_of(alloc, format, sections)?;
        match ProgramSet::new(format, programs) {
            Some(set) => Ok(set),
            None => unreachable!(),
        }
    }
}
