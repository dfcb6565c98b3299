//! Litmus tests.

ghost use Rattle.std.specs.Prelude.{◌≡◌, map};
ghost use Rattle.litmus.specs.Outcomes.{is_forbidden};

use core_program::{ProgramSet, Register};
use mem_op::CoreId;
use std::marker::Model;

/// A register whose value at the end of a run is part of its outcome.
#[derive(Clone, Copy, Debug, PartialEq, Eq)]
pub struct Shown {
    /// Whose register it is.
    pub core: CoreId,
    /// Which one.
    pub register: Register,
}

impl Model for Shown {
    ghost use Rattle.litmus.specs.Parts.{ShownParts};

    ghost Value = { ShownParts };

    ghost view = { λ shown. record { core = shown.core; register = shown.register } };

    ghost inverse = { λ shown. record { core = shown.core; register = shown.register } };
}

/// A litmus test: programs of 1..64 cores, 1..8 registers that it shows, and at most 16 outcomes that it forbids.
#[derive(Drop)]
pub struct Litmus {
    name: Vec<u8>,
    programs: ProgramSet,
    shown: Vec<Shown>,
    forbidden: Vec<Vec<u64>>,
}

impl Model for Litmus {
    ghost use Rattle.std.specs.Prelude.{map};
    ghost use Rattle.std.specs.Coded.{codes};
    ghost use Rattle.core_program.specs.Grammar.{IsSection};
    ghost use Rattle.litmus.specs.TestGrammar.{IsTestOf};
    ghost use Rattle.litmus.specs.Parts.{LitmusParts};

    ghost Value = { LitmusParts };

    ghost view = { λ test. record { name = test.name.items; format = test.programs.format; programs = test.programs.programs; shown = test.shown.items; forbidden = map (λ values. values.items) test.forbidden.items } };
}

impl Litmus {
    /// Its name: 1..32 letters, digits, `+` and `-`.
    pub fn name(&self) -> &[u8]
        ensures { result.now ≡ self.now.name }
    {
        &self.name
    }

    /// The programs of its cores, with their format.
    pub fn programs(&self) -> &ProgramSet
        ensures programs { result.now.programs ≡ self.now.programs }
        ensures format { result.now.format ≡ self.now.format }
    {
        &self.programs
    }

    /// The registers that it shows.
    pub fn shown(&self) -> &[Shown]
        ensures { result.now ≡ self.now.shown }
    {
        &self.shown
    }

    /// Whether it forbids an outcome.
    pub fn forbids(&self, outcome: &[u64]) -> bool
        ensures { result ≡ is_forbidden self.now outcome.now }
    {
        for values in &self.forbidden {
            if outcome == values.as_slice() {
                return true;
            }
        }
        false
    }

    /// The test of these parts.
    pub(crate) fn of_parts(
        name: Vec<u8>,
        programs: ProgramSet,
        shown: Vec<Shown>,
        forbidden: Vec<Vec<u64>>,
    ) -> Litmus
        ensures { result ≡ record { name = name.items; format = programs.format; programs = programs.programs; shown = shown.items; forbidden = map (λ values. values.items) forbidden.items } }
    {
        Litmus {
            name,
            programs,
            shown,
            forbidden,
        }
    }
}
