//! The formats of programs and of sets of programs.

ghost use Rattle.std.specs.Prelude.{◌≡◌};
ghost use Rattle.core_program.specs.Shape.{has_instruction};

use super::instruction::Instruction;

/// A format of programs and of sets of programs. A set names its own in its first line.
#[derive(Clone, Copy, Debug, PartialEq, Eq)]
pub enum ProgramFormat {
    /// Format 1, which has no swaps.
    One,
    /// Format 2, which has swaps.
    Two,
}

impl ProgramFormat {
    /// Whether a program of this format may have this instruction.
    pub fn has_instruction(self, instruction: &Instruction) -> bool
        ensures { result ≡ has_instruction self instruction.now }
    {
        match instruction {
            Instruction::Load(..)
            | Instruction::Store(..)
            | Instruction::StoreRegister(..)
            | Instruction::Add(..)
            | Instruction::SkipIfZero(..) => true,
            Instruction::Swap(..) => self == ProgramFormat::Two,
        }
    }
}
