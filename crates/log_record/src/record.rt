//! A record, and a record with its id.

ghost use Rattle.std.specs.Prelude.{◌≡◌};
ghost use Rattle.mem_op.specs.Consistency.{word_answered};
ghost use Rattle.log_record.specs.Entries.{key_of, operation_of};

use super::act::{Act, PackedAct};
use line_stamps::{Key, Rank, Stamp};
use mem_op::{Addr, OpId, Word};

/// One operation of a core, as its log has it. A record takes 40 bytes.
#[derive(Clone, Copy, Debug, PartialEq, Eq)]
pub struct Record {
    /// The word that the operation loaded or stored; of a swap, the one that it stored.
    pub value: Word,
    /// When the operation took place.
    pub ts: Stamp,
    /// What the operation was.
    pub act: PackedAct,
    /// Its place among the operations of its stamp.
    pub rank: Rank,
    /// The address of the word.
    pub addr: Addr,
}

impl Record {
    /// The act.
    pub fn act(&self) -> Act
        ensures { result ≡ self.now.act }
    {
        self.act.act()
    }

    /// The word that the core got from the operation: the one that a load or a swap read, or the one that a
    /// store stored.
    pub fn word_answered(&self) -> Word
        ensures { result ≡ word_answered (operation_of self.now) }
    {
        match self.act() {
            Act::Load(_) | Act::Store => self.value,
            Act::Swap(_, read) => read,
        }
    }
}

/// A record with its id. It takes 48 bytes.
#[derive(Clone, Copy, Debug, PartialEq, Eq)]
pub struct Entry {
    /// The record.
    pub logged: Record,
    /// Whose record it is, and which.
    pub id: OpId,
}

impl Entry {
    /// The key of the record: its place in the order of all.
    pub fn key(&self) -> Key
        ensures { result ≡ key_of self.now }
    {
        Key {
            ts: self.logged.ts,
            rank: self.logged.rank,
            core: self.id.core,
            index: self.id.index,
        }
    }
}
