//! Reads the sections of a text.

ghost use Rattle.std.specs.Prelude.{◌≡◌, ◌≤◌, IfErr, IfOk, option_map};
ghost use Rattle.core_program.specs.Sections.{AreSectionsOf, IsSectionsFault};
ghost use Rattle.core_program.specs.inner.Reading.{behind_core};

use super::fault::ProgramFault;
use super::format::ProgramFormat;
use super::instruction::Instruction;
use super::section::read_section;
use decimal_text::{after_text, read_field};
use std::alloc::Global;

/// The sections at the front of a text.
#[derive(Drop)]
pub struct Sections {
    /// The instructions of core 0, of core 1, and so on.
    pub programs: Vec<Vec<Instruction>>,
    /// How many bytes their lines take.
    pub taken: usize,
    /// The number of the line after them.
    pub line: u64,
}

/// The bytes after the line that begins a core's section; None if the first line isn't that one.
#[tactic(auto, unfolding(crate::specs::inner::Reading::behind_core))]
fn behind_core(core: u64, text: &[u8]) -> Option<&[u8]>
    ensures { option_map (λ rest. rest.now) result ≡ behind_core core text.now }
{
    let (number, rest) = read_field(b'\n', after_text(b"core ", text)?)?;
    (number? == core).then_some(rest)
}

/// The sections of core 0, core 1, and so on at the front of a text, in a format: all that are there, of
/// at most `cores` cores, each with all its instructions. The text's first line counts as line 2. TooLong
/// at the line of a section's 4,097th instruction.
pub fn read_sections(
    alloc: Global,
    format: ProgramFormat,
    cores: u64,
    text: &[u8],
) -> Result<Sections, ProgramFault>
    requires { cores ≤ 64 }
    ensures found { IfOk result (AreSectionsOf format cores text.now) }
    ensures refused { IfErr result (IsSectionsFault format cores text.now) }
{
    let mut programs = Vec::new(alloc);
    let mut rest = text;
    let mut line = 2;
    for core in 0..cores {
        let Some(behind) = behind_core(core, rest) else {
            return Ok(Sections {
                programs,
                taken: text.len() - rest.len(),
                line,
            });
        };
        let section = read_section(alloc, format, behind, line + 1)?;
        rest = &behind[section.taken..];
        line += 1 + section.instructions.len() as u64;
        programs.push(section.instructions)?;
    }
    Ok(Sections {
        programs,
        taken: text.len() - rest.len(),
        line,
    })
}
