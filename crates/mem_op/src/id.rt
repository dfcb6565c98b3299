//! Operations, their ids, and where words come from.

use super::addr::Addr;
use super::core_id::CoreId;
use super::op_index::OpIndex;
use std::fmt;
use std::fmt::Display;
use std::marker::Model;

/// A word of memory. Every word is 0 at first.
pub type Word = u64;

/// Which operation of which core.
#[derive(Clone, Copy, Debug, PartialEq, Eq, PartialOrd, Ord)]
pub struct OpId {
    /// The core whose operation it is.
    pub core: CoreId,
    /// Its place in that core's program order.
    pub index: OpIndex,
}

impl Model for OpId {
    ghost use Rattle.mem_op.specs.Parts.{IdParts};

    ghost Value = { IdParts };

    ghost view = { λ id. record { core = id.core; index = id.index } };

    ghost inverse = { λ id. record { core = id.core; index = id.index } };
}

/// As `1.0`: the core, and its operation's place.
impl Display for OpId {
    ghost use Rattle.std.specs.Prelude.{Some};
    ghost use Rattle.mem_op.specs.Texts.{id_text};

    ghost output = { λ id. Some (id_text id) };

    fn fmt<W: fmt::Write>(&self, f: &mut fmt::Formatter<W>) -> fmt::Result {
        write!(f, "{}.{}", self.core.get(), self.index.get())
    }
}

/// Where a word comes from.
#[derive(Clone, Copy, Debug, PartialEq, Eq)]
pub enum Source {
    /// No store: the word is the initial 0.
    Init,
    /// The store that wrote the word.
    Store(OpId),
}

/// What a core does to memory.
#[derive(Clone, Copy, Debug, PartialEq, Eq)]
pub enum Op {
    /// Reads the word at an address.
    Load(Addr),
    /// Writes a word at an address.
    Store(Addr, Word),
    /// Reads the word at an address and writes another there, in one step.
    Swap(Addr, Word),
}
