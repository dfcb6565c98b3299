//! Where a core is in its program.

ghost use Rattle.std.specs.Prelude.{◌≡◌, ◌↔◌, ◌∷◌, [], ◌≤◌, None, IfSome, IsSome, length, slice_get};
ghost use Rattle.std.specs.Option.{option_copied};
ghost use Rattle.core_program.specs.Meaning.{Path};
ghost use Rattle.core_program.specs.Running.{IsAtRest, after, answered, at_rest, next_op, performed, start_of};
ghost use Rattle.core_program.specs.Shape.{IsProgram};
ghost use Rattle.core_program.specs.State.{reg, start, with_reg};

use super::instruction::Instruction;
use super::program::Program;
use super::register::Register;
use mem_op::{Op, Word};
use std::marker::Model;

/// Where a core is in its program, and what its registers hold. It rests at an instruction that
/// touches memory, or at the end of the program.
#[derive(Clone, Copy, Debug, PartialEq, Eq)]
pub struct ProgramState {
    registers: [Word; 16],
    position: u16,
}

impl Model for ProgramState {
    ghost use Rattle.core_program.specs.State.{State};

    ghost Value = { State };

    ghost view = { λ s. record { position = s.position; registers = s.registers } };

    ghost inverse = { λ s. record { registers = s.registers; position = s.position } };
}

impl ProgramState {
    /// Where a core starts in a program: all registers are 0. Takes no memory.
    pub fn new(program: &Program) -> ProgramState
        ensures state { result ≡ start_of program.now }
        ensures path { Path program.now start [] result }
        ensures rests { IsAtRest program.now result }
    {
        let mut state = ProgramState {
            registers: [0; 16],
            position: 0,
        };
        state.move_on(program);
        state
    }

    /// The operation that the program issues next; none if it has ended. The state must be at
    /// rest in this program. Takes no memory.
    pub fn next_op(&self, program: &Program) -> Option<Op>
        requires { IsAtRest program.now self.now }
        ensures next { result ≡ next_op program.now self.now }
        ensures ended { (result ≡ None) ↔ (self.now.position ≡ length program.now) }
    {
        match self.instruction(program)? {
            Instruction::Load(_, addr) => Some(Op::Load(*addr)),
            Instruction::Store(addr, value) => Some(Op::Store(*addr, *value)),
            Instruction::StoreRegister(addr, from) => Some(Op::Store(*addr, self.reg(*from))),
            Instruction::Swap(_, addr, value) => Some(Op::Swap(*addr, *value)),
            Instruction::Add(..) | Instruction::SkipIfZero(..) => None,
        }
    }

    /// Performs the next operation and moves on. A load and a swap put this word into their register;
    /// a store doesn't use it. The state must be at rest in this program, and an operation must be
    /// left. Takes no memory.
    pub fn answer(&mut self, program: &Program, word: Word)
        requires own { IsAtRest program.now self.old }
        requires left { IsSome (next_op program.now self.old) }
        ensures state { self.new ≡ answered program.now word self.old }
        ensures path { IfSome (next_op program.now self.old)
            (λ op. Path program.now self.old (performed op word ∷ []) self.new) }
        ensures rests { IsAtRest program.now self.new }
    {
        if let Some(instruction) = self.instruction(program) {
            self.perform(instruction, word);
            self.move_on(program);
        }
    }

    /// The word of a register.
    pub fn reg(&self, register: Register) -> Word
        ensures { result ≡ reg self.now register }
    {
        self.registers[register.get() as usize]
    }

    /// The index of the next instruction in its program; at the end, the number of instructions.
    pub fn position(&self) -> usize
        ensures { result ≡ self.now.position }
    {
        usize::from(self.position)
    }

    // The next instruction, or none at the end.
    fn instruction<'a>(&self, program: &'a Program) -> Option<&'a Instruction>
        ensures next { option_copied result ≡ slice_get program.now self.now.position }
        ensures shape { IsProgram program.now }
    {
        program.instructions().get(usize::from(self.position))
    }

    // Performs an instruction. A load and a swap read this word.
    fn perform(&mut self, instruction: &Instruction, word: Word)
        requires { self.old.position ≤ 4096 }
        ensures { self.new ≡ after instruction.now word self.old }
    {
        match instruction {
            Instruction::Load(to, _) | Instruction::Swap(to, _, _) => self.set_reg(*to, word),
            Instruction::Store(..) | Instruction::StoreRegister(..) => {}
            Instruction::Add(to, from, value) => {
                self.set_reg(*to, self.reg(*from).wrapping_add(*value));
            }
            Instruction::SkipIfZero(tested, skip) => {
                if self.reg(*tested) == 0 {
                    self.position += skip.get() as u16;
                }
            }
        }
        self.position += 1;
    }

    // Changes a register.
    fn set_reg(&mut self, register: Register, word: Word)
        ensures { self.new ≡ with_reg self.old register word }
    {
        self.registers[register.get() as usize] = word;
    }

    // Moves on over the instructions that touch no memory.
    fn move_on(&mut self, program: &Program)
        requires { self.old.position ≤ length program.now }
        ensures state { self.new ≡ at_rest program.now self.old }
        ensures rests { IsAtRest program.now self.new }
    {
        while let Some(instruction) = self.instruction(program) {
            if instruction.touches_memory() {
                return;
            }
            self.perform(instruction, 0);
        }
    }
}
