//! One memory, by the last store to each address.

ghost use Rattle.std.specs.Prelude.{◌≡◌, ℕ, ◌↔◌, cond, IsTrue, None, Some, OnErr, OnOk};
ghost use Rattle.mem_op.specs.Consistency.{is_store_to, word_left};
ghost use Rattle.flat_replay.specs.Memory.{IsAnsweredBy, last_at, word_at};

use super::access::{Access, Address};
use mem_op::Word;
use std::alloc::{AllocError, Global};
use std::collections::BTreeMap;

/// One memory of words, all 0 at first. For each word it knows the store that left it, by an `I`. It takes memory for
/// each address that has a store.
#[derive(Drop)]
pub struct Memory<I> {
    stores: BTreeMap<Address, (Word, I)>,
}

impl<I: Copy> Memory<I> {
    /// A memory without stores.
    pub fn new(alloc: Global) -> Memory<I>
        ensures { (addr : ℕ) → last_at result addr ≡ None }
    {
        Memory {
            stores: BTreeMap::new(alloc),
        }
    }

    /// The word of the last store to an address, and which store it is; None before the first.
    pub fn last(&self, addr: Address) -> Option<(Word, I)>
        ensures { result ≡ last_at self.now addr }
    {
        self.stores.get(&addr).copied()
    }

    /// Whether an operation may come next: a load or a swap must read the word at its address.
    pub fn answers(&self, access: &Access) -> bool
        ensures { IsTrue result ↔ IsAnsweredBy (word_at self.now) access.now }
    {
        match access.read() {
            Some(read) => read == self.last(access.addr()).map_or(0, |last| last.0),
            None => true,
        }
    }

    /// Performs an operation. If it stores a word, `id` says which store it is. Err if memory was refused, and then nothing
    /// changes.
    pub fn perform(&mut self, access: &Access, id: I) -> Result<(), AllocError>
        ensures stored { (addr : ℕ) → OnOk result (last_at self.new addr
            ≡ cond (is_store_to addr access.now) (Some (word_left access.now, id)) (last_at self.old addr)) }
        ensures kept { (addr : ℕ) → OnErr result (last_at self.new addr ≡ last_at self.old addr) }
    {
        let addr = access.addr();
        if access.is_store_to(addr) {
            self.stores.insert(addr, (access.word_left(), id))?;
        }
        Ok(())
    }
}
