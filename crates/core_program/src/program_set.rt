//! Sets of programs.

ghost use Rattle.std.specs.Prelude.{◌≡◌, ◌≤◌, ◌⊎◌, length, slice_get, All, MatchBool, MatchOption};
ghost use Rattle.std.specs.Option.{option_copied};
ghost use Rattle.core_program.specs.Shape.{IsOfFormat, IsProgram};

use super::format::ProgramFormat;
use super::instruction::Instruction;
use super::program::Program;
use mem_op::CoreId;
use std::marker::Model;

/// The programs of 1..64 cores, one for each core, and their format.
#[derive(Drop)]
pub struct ProgramSet {
    format: ProgramFormat,
    programs: Vec<Program>,
}

impl Model for ProgramSet {
    ghost use Rattle.std.specs.Prelude.{◌≤◌, length, All};
    ghost use Rattle.core_program.specs.SetParts.{SetParts};
    ghost use Rattle.core_program.specs.Shape.{IsOfFormat, IsProgram};

    ghost Value = { SetParts };

    ghost view = { λ set. record { format = set.format; programs = set.programs.items } };

    ghost invariant = { λ set. (1 ≤ length set.programs.items) × (length set.programs.items ≤ 64)
        × All IsProgram set.programs.items × All (IsOfFormat set.format) set.programs.items };
}

impl ProgramSet {
    /// The set of these programs, in a format; none if there aren't 1..64 of them, or one has an
    /// instruction that the format doesn't have.
    pub fn new(format: ProgramFormat, programs: Vec<Program>) -> Option<ProgramSet>
        ensures { MatchOption result
            ((length programs.items ≡ 0) ⊎ (65 ≤ length programs.items) ⊎ (¬ All (IsOfFormat format) programs.items))
            (λ set. (set ≡ record { format = format; programs = programs.items })
            × (1 ≤ length programs.items) × (length programs.items ≤ 64) × All (IsOfFormat format) programs.items) }
    {
        if programs.is_empty() || programs.len() > 64 {
            return None;
        }
        if !each_is_of_format(format, &programs) {
            return None;
        }
        each_is_program(&programs);
        Some(ProgramSet { format, programs })
    }

    /// The format of its programs.
    pub fn format(&self) -> ProgramFormat
        ensures value { result ≡ self.now.format }
        ensures programs { All (IsOfFormat self.now.format) self.now.programs }
    {
        self.format
    }

    /// How many cores there are, 1..64.
    pub fn len(&self) -> usize
        ensures value { result ≡ length self.now.programs }
        ensures programs { All IsProgram self.now.programs }
        ensures in_range { (1 ≤ length self.now.programs) × (length self.now.programs ≤ 64) }
    {
        self.programs.len()
    }

    /// The program of a core, if the core is among them.
    pub fn get(&self, core: CoreId) -> Option<&Program>
        ensures { option_copied result ≡ slice_get self.now.programs core }
    {
        self.programs.get(core.get() as usize)
    }
}

/// Whether a format has each of these instructions.
fn is_of_format(format: ProgramFormat, instructions: &[Instruction]) -> bool
    ensures { MatchBool result (IsOfFormat format instructions.now) (¬ IsOfFormat format instructions.now) }
{
    for instruction in instructions {
        if !format.has_instruction(instruction) {
            return false;
        }
    }
    true
}

/// Whether a format has each instruction of these programs.
fn each_is_of_format(format: ProgramFormat, programs: &[Program]) -> bool
    ensures { MatchBool result (All (IsOfFormat format) programs.now) (¬ All (IsOfFormat format) programs.now) }
{
    for program in programs {
        if !is_of_format(format, program.instructions()) {
            return false;
        }
    }
    true
}

/// Does nothing: each program of a list is valid by its type.
fn each_is_program(programs: &[Program])
    ensures { All IsProgram programs.now }
{
    for program in programs {
        let _instructions = program.instructions();
    }
}
