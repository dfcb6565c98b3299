//! The acts of records.

ghost use Rattle.std.specs.Prelude.{◌≡◌};

use super::source_numbers::PackedSource;
use mem_op::{Source, Word};
use std::marker::Model;

/// The act of a record.
#[derive(Clone, Copy, Debug, PartialEq, Eq)]
pub enum Act {
    /// A load, with the store that it says it read.
    Load(Source),
    /// A store.
    Store,
    /// A swap, with the store that it says it read, and the word that it read. The record's value is the one
    /// that it stored.
    Swap(Source, Word),
}

/// An act whose source is packed.
#[derive(Clone, Copy, Debug, PartialEq, Eq)]
enum Packed {
    Load(PackedSource),
    Store,
    Swap(PackedSource, Word),
}

/// An act in 16 bytes, where an `Act` takes 32.
#[derive(Clone, Copy, Debug, PartialEq, Eq)]
pub struct PackedAct {
    packed: Packed,
}

impl Model for PackedAct {
    ghost use Rattle.log_record.specs.inner.PackedActs.{act_of, packed_of, packed_of-act_of};
    ghost use Rattle.log_record.specs.declared.act.Act.{Act};

    ghost Value = { Act };

    ghost view = { λ a. act_of a.packed };

    ghost inverse = { λ act. record { packed = packed_of act } };

    ghost inverse_ok = { λ a h i. record { packed = packed_of-act_of a.packed i } };
}

impl PackedAct {
    /// An act in 16 bytes.
    pub fn of(act: Act) -> PackedAct
        ensures { result ≡ act }
    {
        let packed = match act {
            Act::Load(source) => Packed::Load(PackedSource::of(&source)),
            Act::Store => Packed::Store,
            Act::Swap(source, read) => Packed::Swap(PackedSource::of(&source), read),
        };
        PackedAct { packed }
    }

    /// The act.
    pub fn act(&self) -> Act
        ensures { result ≡ self.now }
    {
        match &self.packed {
            Packed::Load(source) => Act::Load(source.source()),
            Packed::Store => Act::Store,
            Packed::Swap(source, read) => Act::Swap(source.source(), *read),
        }
    }
}
