//! The memory below a slice.

ghost use Rattle.std.specs.Prelude.{◌≡◌, None, OnOk, OnErr};
ghost use Rattle.std.specs.FinMap as map;
ghost use Rattle.memory_stamp.specs.Memory.{filled_line, with_line};

use super::words::{StoredWord, Words};
use line_stamps::{Line, LineStamps, Rank, Stamp};
use mem_op::{Addr, Source};
use std::alloc::{AllocError, Global};

/// The memory below a slice. Its stamp and rank are at or above the leases and ranks of all lines that it took back. It
/// gives them to every line that it fills, since it keeps no stamps by address.
#[derive(Drop)]
pub struct MemorySlice {
    /// The words that the slice put back. Any other word is 0 and comes from no store.
    pub words: Words,
    /// The memory stamp: the latest end of a lease among the lines that the slice put back.
    pub mts: Stamp,
    /// The highest rank among the lines that the slice put back.
    pub mrank: Rank,
}

impl MemorySlice {
    /// Memory at the start of a machine: every word 0, stamp and rank 0. It takes no memory from the host.
    pub fn new(alloc: Global) -> MemorySlice
        ensures { result ≡ record { words = map.empty; mts = 0; mrank = 0 } }
    {
        MemorySlice {
            words: Words::new(alloc),
            mts: Stamp::ZERO,
            mrank: Rank::ZERO,
        }
    }

    /// The line that a fill from memory makes: the word and its source, with the write and the end of the lease at `mts`, and
    /// rank `mrank`.
    pub fn fill(&self, addr: Addr) -> Line
        ensures { result ≡ filled_line self.now addr }
    {
        let word = self.words.get(addr).unwrap_or(StoredWord {
            value: 0,
            source: Source::Init,
        });
        Line::new(
            word.value,
            word.source,
            LineStamps::at(self.mts, self.mrank),
        )
    }

    /// Takes a line back: its word and source, and its lease and rank into the memory stamp and rank. It is refused only
    /// if the host has no memory for an address that has no word yet, and then nothing changes.
    pub fn put_back(&mut self, addr: Addr, line: &Line) -> Result<(), AllocError>
        ensures ok { OnOk result (self.new ≡ with_line self.old addr line.now) }
        ensures err { OnErr result (self.new ≡ self.old) }
        ensures absent { OnErr result (map.get self.old.words addr ≡ None) }
    {
        self.words.insert(
            addr,
            StoredWord {
                value: line.value(),
                source: line.source(),
            },
        )?;
        self.mts = self.mts.max(line.stamps().rts);
        self.mrank = self.mrank.max(line.stamps().wr);
        Ok(())
    }
}
