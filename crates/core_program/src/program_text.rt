//! The text of a program, read and written.

ghost use Rattle.std.specs.Prelude.{◌≡◌, IfOk, MatchResult, string_bytes};
ghost use Rattle.core_program.specs.Answers.{IsProgramFault, SpellsProgram};
ghost use Rattle.core_program.specs.Grammar.{instruction_text, Fits};
ghost use Rattle.core_program.specs.Shape.{IsProgram};
ghost use Rattle.core_program.specs.declared.format.ProgramFormat.TheVariants.{Two};

use super::fault::ProgramFault;
use super::format::ProgramFormat;
use super::instruction::Instruction;
use super::program::{Program, skip_past_end};
use super::section::read_section;
use std::alloc::{AllocError, Global};

impl Program {
    /// The program of this text in format 2, which has all instructions. Refuses as `parse_in`
    /// does.
    pub fn parse(alloc: Global, text: &[u8]) -> Result<Program, ProgramFault>
        ensures { MatchResult result
            (λ program. SpellsProgram Two text.now program × IsProgram program)
            (λ fault. IsProgramFault Two text.now fault) }
    {
        Program::parse_in(alloc, ProgramFormat::Two, text)
    }

    /// The program of this text in a format: a line for each instruction, each ended by a line feed.
    /// BadLine at the first line that isn't an instruction's in this format or has no line feed,
    /// TooLong at the line of the 4,097th instruction, whichever comes first; if there is neither,
    /// SkipPastEnd at the first jump past the end.
    pub fn parse_in(
        alloc: Global,
        format: ProgramFormat,
        text: &[u8],
    ) -> Result<Program, ProgramFault>
        ensures { MatchResult result
            (λ program. SpellsProgram format text.now program × IsProgram program)
            (λ fault. IsProgramFault format text.now fault) }
    {
        let section = read_section(alloc, format, text, 1)?;
        let instructions = section.instructions;
        if section.taken < text.len() {
            return Err(ProgramFault::BadLine(instructions.len() as u64 + 1));
        }
        match skip_past_end(instructions.as_slice()) {
            Some(i) => Err(ProgramFault::SkipPastEnd(i as u64 + 1)),
            None => Ok(Program::of_checked(instructions)),
        }
    }

    /// The text of the program, which `parse` reads.
    pub fn print(&self, alloc: Global) -> Result<Vec<u8>, AllocError>
        ensures { IfOk result (λ text. SpellsProgram Two text.items self.now) }
    {
        let mut text = Vec::new(alloc);
        for instruction in self.instructions() {
            let line = print_instruction(alloc, instruction)?;
            text.extend_from_slice(line.as_bytes())?;
            text.push(b'\n')?;
        }
        Ok(text)
    }
}

/// The line of an instruction, without its line feed.
#[tactic(auto, using(decimal_text::proofs::Printing::numeral_decimal), unfolding(crate::specs::Grammar::instruction_text))]
pub fn print_instruction(alloc: Global, instruction: &Instruction) -> Result<String, AllocError>
    ensures text { IfOk result (λ line. string_bytes line ≡ instruction_text instruction.now) }
    ensures fits { Fits instruction.now }
{
    match instruction {
        Instruction::Load(to, addr) => format!(in alloc; "ld r{} {}", to.get(), addr.get()),
        Instruction::Store(addr, value) => {
            let value = *value;
            format!(in alloc; "st {} {value}", addr.get())
        }
        Instruction::StoreRegister(addr, from) => {
            format!(in alloc; "sr {} r{}", addr.get(), from.get())
        }
        Instruction::Add(to, from, value) => {
            let value = *value;
            format!(in alloc; "ai r{} r{} {value}", to.get(), from.get())
        }
        Instruction::SkipIfZero(tested, skip) => {
            format!(in alloc; "jz r{} {}", tested.get(), skip.get())
        }
        Instruction::Swap(to, addr, value) => {
            let value = *value;
            format!(in alloc; "sw r{} {} {value}", to.get(), addr.get())
        }
    }
}
