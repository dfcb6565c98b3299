//! A trace with an index of its stores.

ghost use Rattle.std.specs.Prelude.{◌≡◌, IfOk, List, Some, length, slice_get};
ghost use Rattle.mem_op.specs.Consistency.{Operation};
ghost use Rattle.refutation.specs.inner.Lasts.{AreUpTo, HasLasts, HasLastsOf};

use mem_op::Word;
use std::alloc::{AllocError, Global};
use std::collections::HashMap;
use std::marker::Model;
use trace::{Access, Address, Trace};

/// A trace, and for each core, by address and word, the index at which it stores that word there last.
#[derive(Drop)]
pub(crate) struct Indexed<'a> {
    trace: &'a Trace,
    lasts: Vec<HashMap<(Address, Word), u64>>,
}

impl<'a> Model for Indexed<'a> {
    ghost use Rattle.std.specs.Prelude.{List};
    ghost use Rattle.mem_op.specs.Consistency.{Operation};
    ghost use Rattle.refutation.specs.inner.Lasts.{HasLastsOf};

    ghost Value = { List (List Operation) };

    ghost view = { λ i. i.trace.now };

    ghost invariant = { λ i. HasLastsOf i.trace.now i.lasts.items };
}

/// By address and word, the index at which these operations store that word there last.
fn lasts_of(
    alloc: Global,
    operations: &[Access],
) -> Result<HashMap<(Address, Word), u64>, AllocError>
    ensures { IfOk result (HasLasts operations.now (length operations.now)) }
{
    let mut lasts = HashMap::new(alloc);
    for (index, access) in operations.iter().enumerate() {
        let addr = access.addr();
        if access.is_store_to(addr) {
            lasts.insert((addr, access.word_left()), index as u64)?;
        }
    }
    Ok(lasts)
}

/// The same for each core.
fn all_lasts(alloc: Global, trace: &Trace) -> Result<Vec<HashMap<(Address, Word), u64>>, AllocError>
    ensures { IfOk result (λ lasts. HasLastsOf trace.now lasts.items) }
{
    let mut lasts = Vec::new(alloc);
    for operations in trace.cores() {
        lasts.push(lasts_of(alloc, operations)?)?;
    }
    Ok(lasts)
}

impl<'a> Indexed<'a> {
    /// A trace with its index.
    pub(crate) fn of(alloc: Global, trace: &'a Trace) -> Result<Indexed<'a>, AllocError>
        ensures { IfOk result (λ indexed. indexed ≡ trace.now) }
    {
        let lasts = all_lasts(alloc, trace)?;
        Ok(Indexed { trace, lasts })
    }

    /// The trace.
    pub(crate) fn trace(&self) -> &'a Trace
        ensures { result.now ≡ self.now }
    {
        self.trace
    }

    /// The index at which a core stores a word to an address last, if it does.
    pub(crate) fn last(&self, core: usize, addr: Address, word: Word) -> Option<u64>
        ensures { (operations : List Operation) → slice_get self.now core ≡ Some operations → AreUpTo operations (length operations) addr word result }
    {
        self.lasts.get(core)?.get(&(addr, word)).copied()
    }
}
