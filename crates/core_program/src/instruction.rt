//! Instructions.

ghost use Rattle.std.specs.Prelude.{◌≡◌};
ghost use Rattle.core_program.specs.Shape.{touches_memory};

use super::register::Register;
use super::skip::Skip;
use mem_op::{Addr, Word};

/// An instruction of a core's program.
#[derive(Clone, Copy, Debug, PartialEq, Eq)]
pub enum Instruction {
    /// `ld rN a`: loads the word at an address into a register.
    Load(Register, Addr),
    /// `st a K`: stores a word at an address.
    Store(Addr, Word),
    /// `sr a rN`: stores a register at an address.
    StoreRegister(Addr, Register),
    /// `ai rN rM K`: sets the first register to the second plus a word, modulo 2^64.
    Add(Register, Register, Word),
    /// `jz rN k`: if the register is 0, skips the next k instructions.
    SkipIfZero(Register, Skip),
    /// `sw rN a K`: loads the word at an address into a register and stores a word there, in one
    /// step. Format 1 has no swaps.
    Swap(Register, Addr, Word),
}

impl Instruction {
    // Whether it is a load, a store or a swap.
    pub(crate) fn touches_memory(&self) -> bool
        ensures { result ≡ touches_memory self.now }
    {
        match self {
            Instruction::Load(..)
            | Instruction::Store(..)
            | Instruction::StoreRegister(..)
            | Instruction::Swap(..) => true,
            Instruction::Add(..) | Instruction::SkipIfZero(..) => false,
        }
    }
}
