//! Whether a state leads to no end.

ghost use Rattle.std.specs.Prelude.{◌≡◌, ◌≤◌, ◌<◌, MatchBool, length};
ghost use Rattle.refutation.specs.States.{IsDead, NoneStores, Waits};
ghost use Rattle.refutation.specs.inner.Lasts.{AreUpTo, NoneStoresOf};

use super::indexed::Indexed;
use super::moves::{next_operation, number_of, word_of};
use mem_op::Word;
use trace::{Access, Address};

/// Whether no operation of a core, from one index on and before another, stores a word to an address. `last` is the index at
/// which the core stores the word there last.
fn none_stores_of(
    operations: &[Access],
    last: Option<u64>,
    from: u64,
    to: u64,
    addr: Address,
    word: Word,
) -> bool
    requires { AreUpTo operations.now (length operations.now) addr word last }
    ensures { MatchBool result (NoneStoresOf operations.now from to addr word) (¬ NoneStoresOf operations.now from to addr word) }
{
    let Some(last) = last else {
        return true;
    };
    let mut index = from;
    while index < to && index <= last {
        let Some(access) = operations.get(index as usize) else {
            return true;
        };
        if access.stores(addr, word) {
            return false;
        }
        index += 1;
    }
    true
}

/// Whether no operation from these indices on and before the limits stores a word to an address.
#[tactic(auto, using(crate::proofs::Firsts::core_at, crate::proofs::Firsts::first_more))]
fn none_stores(trace: &Indexed, next: &[u64], limits: &[u64], addr: Address, word: Word) -> bool
    ensures { MatchBool result (NoneStores trace.now next.now limits.now addr word) (¬ NoneStores trace.now next.now limits.now addr word) }
{
    for (core, operations) in trace.trace().cores().iter().enumerate() {
        let (from, to) = (number_of(next, core), number_of(limits, core));
        let last = trace.last(core, addr, word);
        if !none_stores_of(operations, last, from, to, addr, word) {
            return false;
        }
    }
    true
}

/// Whether a read waits: another word is there, and no operation stores its word before the limits.
fn waits(
    trace: &Indexed,
    addresses: &[Address],
    next: &[u64],
    words: &[Word],
    limits: &[u64],
    access: &Access,
) -> bool
    ensures { MatchBool result (Waits trace.now addresses.now next.now words.now limits.now access.now) (¬ Waits trace.now addresses.now next.now words.now limits.now access.now) }
{
    let (Some(value), Some(word)) = (access.read(), word_of(addresses, words, access.addr())) else {
        return false;
    };
    value != word && none_stores(trace, next, limits, access.addr(), value)
}

/// Whether the state of these indices and words is dead by these limits.
pub(crate) fn is_dead(
    trace: &Indexed,
    addresses: &[Address],
    next: &[u64],
    words: &[Word],
    limits: &[u64],
) -> bool
    ensures { MatchBool result (IsDead trace.now addresses.now next.now words.now limits.now) (¬ IsDead trace.now addresses.now next.now words.now limits.now) }
{
    let mut is_some = false;
    let operations = trace.trace();
    for core in 0..operations.cores().len() {
        if let Some((_, access)) = next_operation(operations, limits, core) {
            if number_of(next, core) > number_of(limits, core)
                || !waits(trace, addresses, next, words, limits, &access)
            {
                return false;
            }
            is_some = true;
        }
    }
    is_some
}
