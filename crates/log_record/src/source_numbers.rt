//! A number for each source.

ghost use Rattle.std.specs.Prelude.{◌≡◌, ◌≤◌};
ghost use Rattle.log_record.specs.SourceNumbers as numbers;
ghost use Rattle.mem_op.specs.declared.id.Source.TheVariants.{Store};

use mem_op::{CoreId, OpId, OpIndex, Source};
use std::marker::Model;

/// How many stores a core may have.
const STORES_OF_A_CORE: u64 = 1_048_576;

/// The number of the store of an id: no other store has it, and none has 0.
#[tactic(auto, using(crate::proofs::SourceNumbers::store_told))]
pub fn store_number(id: &OpId) -> u64
    ensures value { result ≡ numbers.store_number id.now }
    ensures told { numbers.numbered result ≡ Store id.now }
    ensures few { result ≤ 67108864 }
{
    1 + id.core.get() * STORES_OF_A_CORE + id.index.get()
}

/// The number of a source: 0 is that of the initial 0.
pub fn source_number(source: &Source) -> u64
    ensures value { result ≡ numbers.source_number source.now }
    ensures told { numbers.numbered result ≡ source.now }
    ensures few { result ≤ 67108864 }
{
    match source {
        Source::Init => 0,
        Source::Store(id) => store_number(id),
    }
}

/// A source as its number: it takes 4 bytes, where a `Source` takes 12.
#[derive(Clone, Copy, Debug, PartialEq, Eq)]
pub(crate) struct PackedSource {
    number: u32,
}

impl Model for PackedSource {
    ghost use Rattle.std.specs.Prelude.{◌≤◌};
    ghost use Rattle.mem_op.specs.declared.id.Source.{Source};
    ghost use Rattle.log_record.specs.SourceNumbers.{numbered, source_number, source_number-numbered};

    ghost Value = { Source };

    ghost view = { λ packed. numbered packed.number };

    ghost invariant = { λ packed. packed.number ≤ 67108864 };

    ghost inverse = { λ source. record { number = source_number source } };

    ghost inverse_ok = { λ packed h i. record { number = source_number-numbered packed.number i } };
}

impl PackedSource {
    /// A source as its number.
    pub(crate) fn of(source: &Source) -> PackedSource
        ensures { result ≡ source.now }
    {
        PackedSource {
            number: source_number(source) as u32,
        }
    }

    /// The source.
    pub(crate) fn source(&self) -> Source
        ensures { result ≡ self.now }
    {
        if self.number == 0 {
            return Source::Init;
        }
        let place = u64::from(self.number - 1);
        Source::Store(OpId {
            core: CoreId::at((place / STORES_OF_A_CORE) as usize),
            index: OpIndex::at((place % STORES_OF_A_CORE) as usize),
        })
    }
}
