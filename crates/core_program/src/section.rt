//! Reads the instructions of a section.

ghost use Rattle.std.specs.Prelude.{◌<◌, ◌^◌, IfSome, IsNone, IfOk, IfErr};
ghost use Rattle.core_program.specs.inner.Sections.{IsSectionOf, IsSectionFault};
ghost use Rattle.core_program.specs.Sections.{InstructionInFront, NoInstructionInFront};

use super::fault::ProgramFault;
use super::format::ProgramFormat;
use super::instruction::Instruction;
use super::instruction_line::read_instruction;
use std::alloc::Global;
use text_lines::next_line;

/// The most instructions of a section.
const SECTION_LIMIT: usize = 4_096;

/// The instructions at the front of a text.
#[derive(Drop)]
pub(crate) struct Section {
    /// The instructions, in their order.
    pub(crate) instructions: Vec<Instruction>,
    /// How many bytes their lines take.
    pub(crate) taken: usize,
}

/// The instruction on the first line, and the bytes after that line; None if the first line isn't
/// an instruction's in this format, or has no line feed.
fn next_instruction(format: ProgramFormat, text: &[u8]) -> Option<(Instruction, &[u8])>
    ensures found { IfSome result (λ read. InstructionInFront format read.0 text.now read.1.now) }
    ensures none { IsNone result → NoInstructionInFront format text.now }
{
    let (line, rest) = next_line(text)?;
    Some((read_instruction(format, line)?, rest))
}

/// The instructions at the front of a text, up to the first line that isn't an
/// instruction's. `first` is the number of the text's first line. TooLong at the line of the
/// 4,097th instruction, if there is one.
pub(crate) fn read_section(
    alloc: Global,
    format: ProgramFormat,
    text: &[u8],
    first: u64,
) -> Result<Section, ProgramFault>
    requires { first < 2 ^ 32 }
    ensures found { IfOk result (IsSectionOf format text.now) }
    ensures too_long { IfErr result (IsSectionFault format first text.now) }
{
    let mut instructions = Vec::new(alloc);
    let mut rest = text;
    while let Some((instruction, behind)) = next_instruction(format, rest) {
        if instructions.len() == SECTION_LIMIT {
            return Err(ProgramFault::TooLong(first + instructions.len() as u64));
        }
        instructions.push(instruction)?;
        rest = behind;
    }
    Ok(Section {
        instructions,
        taken: text.len() - rest.len(),
    })
}
