//! Stores, kept by their words.

ghost use Rattle.std.specs.Prelude.{◌≡◌, ◌==◌, ◌&&◌, cond, ℕ, None, Some, OnOk};
ghost use Rattle.mem_op.specs.Consistency.{is_store_to, word_left};
ghost use Rattle.trace_replay.specs.Stores.{kept_store};

use super::step_id::StepId;
use flat_replay::{Access, Address};
use mem_op::Word;
use std::alloc::{AllocError, Global};
use std::collections::BTreeMap;

/// The last store of each word to each address, beside a replay. It takes memory for each address and word.
#[derive(Drop)]
pub struct StoresByWord {
    stores: BTreeMap<(Address, Word), StepId>,
}

impl StoresByWord {
    /// No store is kept.
    pub fn new(alloc: Global) -> StoresByWord
        ensures { (addr : ℕ) (word : ℕ) → kept_store result addr word ≡ None }
    {
        StoresByWord {
            stores: BTreeMap::new(alloc),
        }
    }

    /// The last store of a word to an address, if there was one.
    pub fn last(&self, addr: Address, word: Word) -> Option<StepId>
        ensures { result ≡ kept_store self.now addr word }
    {
        self.stores.get(&(addr, word)).copied()
    }

    /// Keeps an operation, if it is a store.
    pub(crate) fn keep(&mut self, id: StepId, access: &Access) -> Result<(), AllocError>
        ensures { (addr : ℕ) (word : ℕ) → OnOk result (kept_store self.new addr word
            ≡ cond (is_store_to addr access.now && (word_left access.now == word)) (Some id) (kept_store self.old addr word)) }
    {
        let addr = access.addr();
        if access.is_store_to(addr) {
            self.stores.insert((addr, access.word_left()), id)?;
        }
        Ok(())
    }
}
