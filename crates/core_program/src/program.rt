//! Programs.

ghost use Rattle.std.specs.Prelude.{◌≡◌, ◌≢◌, ◌<◌, ◌≤◌, length, IfSome, MatchBool, MatchOption};
ghost use Rattle.core_program.specs.Least.{IsLeastWhere};
ghost use Rattle.core_program.specs.Shape.{IsProgram, is_skip_past_end};

use super::instruction::Instruction;
use std::alloc::AllocError;
use std::marker::Model;

/// The program of a core: at most 4,096 instructions, and no jump goes further than just
/// past the last one.
#[derive(Drop)]
pub struct Program {
    instructions: Vec<Instruction>,
}

impl Model for Program {
    ghost use Rattle.std.specs.Prelude.{List};
    ghost use Rattle.core_program.specs.declared.instruction.Instruction.{Instruction};
    ghost use Rattle.core_program.specs.Shape.{IsProgram};

    ghost Value = { List Instruction };

    ghost view = { λ program. program.instructions.items };

    ghost invariant = { λ program. IsProgram program.instructions.items };
}

impl Program {
    /// The program of these instructions; none if there are more than 4,096 or a jump goes past
    /// the end.
    pub fn new(instructions: Vec<Instruction>) -> Option<Program>
        ensures { MatchOption result
            (¬ IsProgram instructions.items)
            (λ program. (program ≡ instructions.items) × IsProgram instructions.items) }
    {
        if instructions.len() > 4_096 {
            return None;
        }
        match skip_past_end(instructions.as_slice()) {
            Some(_) => None,
            None => Some(Program::of_checked(instructions)),
        }
    }

    /// The program of these instructions, which are known to be one.
    pub(crate) fn of_checked(instructions: Vec<Instruction>) -> Program
        requires { IsProgram instructions.items }
        ensures { result ≡ instructions.items }
    {
        Program { instructions }
    }

    /// The instructions, in their order.
    pub fn instructions(&self) -> &[Instruction]
        ensures value { result.now ≡ self.now }
        ensures shape { IsProgram self.now }
    {
        self.instructions.as_slice()
    }

    /// Whether it is the same as another program. Takes no memory.
    pub fn is_same(&self, other: &Program) -> bool
        ensures { MatchBool result (self.now ≡ other.now) (self.now ≢ other.now) }
    {
        are_same(self.instructions(), other.instructions())
    }
}

// Whether two lists of instructions are the same.
fn are_same(one: &[Instruction], other: &[Instruction]) -> bool
    ensures { MatchBool result (one.now ≡ other.now) (one.now ≢ other.now) }
{
    if one.len() != other.len() {
        return false;
    }
    for at in 0..one.len() {
        if !is_instruction(&one[at], &other[at]) {
            return false;
        }
    }
    true
}

// Whether two instructions are the same.
fn is_instruction(one: &Instruction, other: &Instruction) -> bool
    ensures { MatchBool result (one.now ≡ other.now) (one.now ≢ other.now) }
{
    one == other
}

impl Clone for Program {
    ghost use Rattle.std.specs.Prelude.{◌≡◌};

    ghost is_clone = { λ program copy. copy ≡ program };

    fn clone(&self) -> Result<Program, AllocError> {
        Ok(Program {
            instructions: self.instructions.clone()?,
        })
    }
}

/// The least index of a jump that goes further than just past the last instruction, or none if
/// there is no such jump. Takes no memory.
pub(crate) fn skip_past_end(instructions: &[Instruction]) -> Option<usize>
    requires { length instructions.now ≤ 4096 }
    ensures least { IsLeastWhere (is_skip_past_end instructions.now) result }
    ensures within { IfSome result (λ i. i < length instructions.now) }
{
    for (i, instruction) in instructions.iter().enumerate() {
        if let Instruction::SkipIfZero(_, skip) = instruction {
            if i + 1 + skip.get() as usize > instructions.len() {
                return Some(i);
            }
        }
    }
    None
}
