//! Loads that didn't read the last store to their address.

use super::step_id::StepId;
use flat_replay::Address;
use mem_op::Word;
use std::fmt;
use std::fmt::Display;
use std::marker::Model;

/// A load or a swap that didn't read the word that stood at its address.
#[derive(Clone, Copy, Debug, PartialEq, Eq)]
pub struct WrongLoad {
    /// The operation.
    pub id: StepId,
    /// Its address.
    pub addr: Address,
    /// The word that it read.
    pub read: Word,
    /// The word of the last store to the address before it, which it should have read, and that store; None if there was no
    /// store, so that it should have read the initial 0.
    pub last: Option<(Word, StepId)>,
}

impl Model for WrongLoad {
    ghost use Rattle.trace_replay.specs.Parts.{WrongParts};

    ghost Value = { WrongParts };

    ghost view = { λ wrong. record { id = wrong.id; addr = wrong.addr; read = wrong.read; last = wrong.last } };

    ghost inverse = { λ wrong. record { id = wrong.id; addr = wrong.addr; read = wrong.read; last = wrong.last } };
}

/// What stood at an address, and who stored it.
#[derive(Drop)]
struct Last {
    stored: Option<(Word, StepId)>,
}

impl Display for Last {
    ghost use Rattle.std.specs.Prelude.{Some};
    ghost use Rattle.trace_replay.specs.Texts.{last_text};

    ghost output = { λ last. Some (last_text last.stored) };

    fn fmt<W: fmt::Write>(&self, f: &mut fmt::Formatter<W>) -> fmt::Result {
        match &self.stored {
            None => write!(f, "nothing was stored yet, so that it should have read 0"),
            Some((word, id)) => write!(f, "{id} had stored {word} last"),
        }
    }
}

/// What it read, and what it should have read.
impl Display for WrongLoad {
    ghost use Rattle.std.specs.Prelude.{Some};
    ghost use Rattle.trace_replay.specs.Texts.{wrong_text};

    ghost output = { λ wrong. Some (wrong_text wrong) };

    fn fmt<W: fmt::Write>(&self, f: &mut fmt::Formatter<W>) -> fmt::Result {
        let last = Last { stored: self.last };
        write!(
            f,
            "{} read {} at address {}, where {last}",
            self.id, self.read, self.addr
        )
    }
}
