//! The words of memory.

ghost use Rattle.std.specs.Prelude.{◌≡◌, None, OnOk, OnErr};
ghost use Rattle.std.specs.FinMap as map;
ghost use Rattle.memory_stamp.specs.StoredParts.{StoredParts};

use mem_op::{Addr, Source, Word};
use std::alloc::{AllocError, Global};
use std::collections::HashMap;
use std::marker::Model;

/// A word of memory with the store that wrote it.
#[derive(Clone, Copy, Debug, PartialEq, Eq)]
pub struct StoredWord {
    /// The word.
    pub value: Word,
    /// The store that wrote it, or none.
    pub source: Source,
}

impl Model for StoredWord {
    ghost use Rattle.memory_stamp.specs.StoredParts.{StoredParts};

    ghost Value = { StoredParts };

    ghost view = { λ w. record { value = w.value; source = w.source } };

    ghost inverse = { λ w. record { value = w.value; source = w.source } };
}

/// The words that the slice put back, by address.
#[derive(Drop)]
pub struct Words {
    words: HashMap<Addr, StoredWord>,
}

impl Model for Words {
    ghost use Rattle.std.specs.Ordering.{nat_cmp};
    ghost use Rattle.std.specs.FinMap.{FinMap, code, from_entries};
    ghost use Rattle.std.specs.Coded.{coded_ℕ};
    ghost use Rattle.memory_stamp.specs.StoredParts.{StoredParts};
    ghost use Rattle.memory_stamp.specs.contracts.words.StoredWord as stored;

    ghost Value = { FinMap nat_cmp StoredParts };

    ghost coded = { code coded_ℕ stored.the_row.coded };

    ghost view = { λ w. from_entries w.words.entries };
}

impl Words {
    /// No words.
    pub fn new(alloc: Global) -> Words
        ensures { result ≡ map.empty }
    {
        Words {
            words: HashMap::new(alloc),
        }
    }

    /// The word at an address, if there is one.
    pub fn get(&self, addr: Addr) -> Option<StoredWord>
        ensures { result ≡ map.get self.now addr }
    {
        self.words.get(&addr).copied()
    }

    /// Puts a word at an address. It can be refused only if the address has no word yet, and then nothing changes.
    pub fn insert(&mut self, addr: Addr, word: StoredWord) -> Result<(), AllocError>
        ensures ok { OnOk result (self.new ≡ map.insert self.old addr word) }
        ensures err { OnErr result (self.new ≡ self.old) }
        ensures absent { OnErr result (map.get self.old addr ≡ None) }
    {
        self.words.insert(addr, word)?;
        Ok(())
    }
}
