//! Operations on memory, with the words that they read and stored.

ghost use Rattle.std.specs.Prelude.{◌≡◌, ◌&&◌, ◌==◌};
ghost use Rattle.mem_op.specs.Consistency.{Loaded, Stored, Swapped, is_store_to, word_left};
ghost use Rattle.flat_replay.specs.Accesses.{address_of, word_read};

use mem_op::Word;
use std::marker::Model;

/// An address of a trace: any number of 64 bits. (The machine's addresses have 16.)
pub type Address = u64;

const _: () = prove!(size_of::<Access>() == 32);

#[derive(Clone, Copy, Debug, PartialEq, Eq)]
enum Kind {
    Load,
    Store,
    Swap,
}

/// An operation of a core: a load with the word that it read, a store with the word that it stored, or a swap
/// with both. It takes 32 bytes.
#[derive(Clone, Copy, Debug, PartialEq, Eq)]
pub struct Access {
    // In a load both words are the one that it read, and in a store both are the one that it stored.
    read: Word,
    stored: Word,
    addr: Address,
    kind: Kind,
}

impl Model for Access {
    ghost use Rattle.std.specs.Prelude.{◌≡◌};
    ghost use Rattle.mem_op.specs.Consistency.{Operation};

    ghost Value = { Operation };

    ghost use Rattle.mem_op.specs.Consistency.{word_answered, word_left};
    ghost use Rattle.flat_replay.specs.inner.Kinds.{access_by, kind_of, kind_of-access_by, address_of-access_by, IsFlat};
    ghost use Rattle.flat_replay.specs.Accesses.{address_of};

    ghost view = { λ a. access_by a.kind a.addr a.read a.stored };

    ghost invariant = { λ a. IsFlat a.kind a.addr a.read a.stored };

    ghost inverse = { λ y. record { read = word_answered y; stored = word_left y; addr = address_of y; kind = kind_of y } };

    ghost inverse_ok = { λ a h i. record {
      read = h.same_read i;
      stored = h.same_stored i;
      addr = address_of-access_by a.kind a.addr a.read a.stored i;
      kind = kind_of-access_by a.kind a.addr a.read a.stored i;
    } };
}

impl Access {
    /// A load of a word.
    pub fn load(addr: Address, read: Word) -> Access
        ensures { result ≡ Loaded addr read }
    {
        Access {
            read,
            stored: read,
            addr,
            kind: Kind::Load,
        }
    }

    /// A store of a word.
    pub fn store(addr: Address, stored: Word) -> Access
        ensures { result ≡ Stored addr stored }
    {
        Access {
            read: stored,
            stored,
            addr,
            kind: Kind::Store,
        }
    }

    /// A swap, which read one word and stored another in one step.
    pub fn swap(addr: Address, read: Word, stored: Word) -> Access
        ensures { result ≡ Swapped addr read stored }
    {
        Access {
            read,
            stored,
            addr,
            kind: Kind::Swap,
        }
    }

    /// The address.
    pub fn addr(&self) -> Address
        ensures { result ≡ address_of self.now }
    {
        self.addr
    }

    /// The word that it read, if it is a load or a swap.
    pub fn read(&self) -> Option<Word>
        ensures { result ≡ word_read self.now }
    {
        match self.kind {
            Kind::Load | Kind::Swap => Some(self.read),
            Kind::Store => None,
        }
    }

    /// The word at its address after it: a load leaves the one that it read.
    pub fn word_left(&self) -> Word
        ensures { result ≡ word_left self.now }
    {
        self.stored
    }

    /// Whether it writes the word of this address.
    pub fn is_store_to(&self, addr: Address) -> bool
        ensures { result ≡ is_store_to addr self.now }
    {
        self.kind != Kind::Load && self.addr == addr
    }

    /// Whether it writes this word at this address.
    pub fn stores(&self, addr: Address, word: Word) -> bool
        ensures { result ≡ (is_store_to addr self.now && (word_left self.now == word)) }
    {
        self.is_store_to(addr) && self.stored == word
    }
}
