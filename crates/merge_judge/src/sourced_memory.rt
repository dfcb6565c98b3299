//! The words of memory along the order of keys, which check each read.

ghost use Rattle.std.specs.Prelude.{◌≡◌, ◌<◌, ℕ, [], ◌∷◌, ◌++◌, List, IfOk, Some, length, slice_get, slice_index, vec_len};
ghost use Rattle.mem_op.specs.declared.id.Source.TheVariants.{Init};
ghost use Rattle.log_record.specs.declared.record.Entry.{Entry};
ghost use Rattle.address_check.specs.AddressFaults.{fault_by};
ghost use Rattle.merge_judge.specs.inner.Memory.{Holds, IsMemory, fault_after};

use address_check::{AddressFault, AddressRule, broken_by, is_store};
use log_record::{Act, Entry};
use mem_op::{Source, Word};
use std::alloc::{AllocError, Global};

/// How many words a memory has: one for each address.
const MEMORY_WORDS: usize = 65_536;

/// The words of memory, and the source of each.
#[derive(Drop)]
pub(crate) struct SourcedMemory {
    values: Vec<Word>,
    sources: Vec<Source>,
}

/// The fault of an entry that breaks a rule.
fn fault_by(entry: &Entry, rule: Option<AddressRule>) -> Option<AddressFault>
    ensures { result ≡ fault_by entry.now rule }
{
    let rule = rule?;
    Some(AddressFault {
        key: entry.key(),
        rule,
    })
}

/// So many zeros.
fn zeros(alloc: Global, many: usize) -> Result<Vec<Word>, AllocError>
    ensures many { IfOk result (λ v. vec_len v ≡ many) }
    ensures zero { IfOk result (λ v. (k : ℕ) → slice_index v.items k ≡ 0) }
{
    vec![in alloc; 0; many]
}

/// The source of an initial word, so many times.
fn origins(alloc: Global, many: usize) -> Result<Vec<Source>, AllocError>
    ensures many { IfOk result (λ sources. length sources.items ≡ many) }
    ensures init { IfOk result (λ sources. (k : ℕ) → k < many → slice_get sources.items k ≡ Some Init) }
{
    vec![in alloc; Source::Init; many]
}

impl SourcedMemory {
    /// The words at first, each the initial 0. Err if memory was refused.
    pub(crate) fn new(alloc: Global) -> Result<SourcedMemory, AllocError>
        ensures { IfOk result (λ words. Holds words.values.items words.sources.items []) }
    {
        Ok(SourcedMemory {
            values: zeros(alloc, MEMORY_WORDS)?,
            sources: origins(alloc, MEMORY_WORDS)?,
        })
    }

    /// The rule that an operation breaks, by the word at its address.
    fn fault_of(&self, entry: &Entry) -> Option<AddressFault>
        requires { IsMemory self.now.values.items self.now.sources.items }
        ensures { (done : List Entry) → Holds self.now.values.items self.now.sources.items done
            → result ≡ fault_after done entry.now }
    {
        let addr = entry.logged.addr.get() as usize;
        let (from, word) = (&self.sources[addr], self.values[addr]);
        match &entry.logged.act() {
            Act::Load(source) => fault_by(entry, broken_by(source, entry.logged.value, from, word)),
            Act::Store => None,
            Act::Swap(source, read) => fault_by(entry, broken_by(source, *read, from, word)),
        }
    }

    /// Answers the rule that a load or a swap breaks, and writes the word of a store or a swap.
    pub(crate) fn perform(&mut self, entry: &Entry) -> Option<AddressFault>
        requires { IsMemory self.old.values.items self.old.sources.items }
        ensures whole { IsMemory self.new.values.items self.new.sources.items }
        ensures fault { (done : List Entry) → Holds self.old.values.items self.old.sources.items done
            → result ≡ fault_after done entry.now }
        ensures holds { (done : List Entry) → Holds self.old.values.items self.old.sources.items done
            → Holds self.new.values.items self.new.sources.items (done ++ entry.now ∷ []) }
    {
        let fault = self.fault_of(entry);
        if is_store(entry) {
            let addr = entry.logged.addr.get() as usize;
            self.values[addr] = entry.logged.value;
            self.sources[addr] = Source::Store(entry.id);
        }
        fault
    }
}
