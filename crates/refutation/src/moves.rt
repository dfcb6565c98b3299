//! What cores may do in a state.

ghost use Rattle.std.specs.Prelude.{◌≡◌, ◌==◌, ◌+◌, ◌<◌, ◌&&◌, ◌^◌, ℕ, IfOk, MatchOption, None, Some, drop, slice_get, slice_index, slice_set};
ghost use Rattle.std.specs.List.{list_all, position_from, prefix_len};
ghost use Rattle.mem_op.specs.Consistency.{operation_at};
ghost use Rattle.flat_replay.specs.Accesses.{address_of};
ghost use Rattle.refutation.specs.States.{allows, fits, next_id, next_of, passes, put_word, settled, was_performed, word_of, words_of};

use super::fact::Fact;
use super::reading::is_same;
use super::state::State;
use super::step::Point;
use mem_op::{CoreId, OpId, OpIndex, Word};
use std::alloc::{AllocError, Global};
use trace::{Access, Address, Trace};

/// Where an address stands among the addresses of a set.
fn slot_of(addresses: &[Address], addr: Address) -> Option<usize>
    ensures { result ≡ position_from (λ a. a == addr) 0 addresses.now }
{
    addresses.iter().position(|looked_at| *looked_at == addr)
}

/// The number at a place.
fn number_at(numbers: &[u64], place: usize) -> Option<u64>
    ensures { result ≡ slice_get numbers.now place }
{
    numbers.get(place).copied()
}

/// Puts a number at a place, if there is one.
#[tactic(auto, using(std::proofs::lemmas::List::set_past))]
fn set(numbers: &mut Vec<u64>, place: usize, number: u64)
    ensures { numbers.new.items ≡ slice_set numbers.old.items place number }
{
    if place < numbers.len() {
        numbers[place] = number;
    }
}

/// The word at an address, if it is an address of the set: the addresses and their words stand in one order.
#[tactic(auto, using(crate::proofs::Settled::word_by_slot))]
pub fn word_of(addresses: &[Address], words: &[Word], addr: Address) -> Option<Word>
    ensures { result ≡ word_of addresses.now words.now addr }
{
    match slot_of(addresses, addr) {
        Some(slot) => number_at(words, slot),
        None => None,
    }
}

/// The words at these addresses, after one is put at an address; as they were if that isn't one of them. Err if memory was refused.
#[tactic(auto, using(crate::proofs::Settled::put_by_slot))]
pub fn put_word(
    alloc: Global,
    addresses: &[Address],
    words: &[Word],
    addr: Address,
    word: Word,
) -> Result<Vec<Word>, AllocError>
    ensures { IfOk result (λ put. put.items ≡ put_word addresses.now words.now addr word) }
{
    let mut put = Vec::from_slice(alloc, words)?;
    let Some(slot) = slot_of(addresses, addr) else {
        return Ok(put);
    };
    set(&mut put, slot, word);
    Ok(put)
}

/// Whether an operation is at an address of the set, and reads no word or the one that is there.
fn fits(word: Option<Word>, access: &Access) -> bool
    ensures { result ≡ fits word access.now }
{
    match (word, access.read()) {
        (None, _) => false,
        (Some(_), None) => true,
        (Some(word), Some(read)) => read == word,
    }
}

/// Whether an operation is at no address of the set, or reads the word that is there and leaves it.
fn passes(word: Option<Word>, access: &Access) -> bool
    ensures { result ≡ passes word access.now }
{
    match (word, access.read()) {
        (None, _) => true,
        (Some(_), None) => false,
        (Some(word), Some(read)) => read == word && access.word_left() == word,
    }
}

/// The index of the first of a core's operations, from this one on, that doesn't pass.
fn settled_index(operations: &[Access], from: u64, addresses: &[Address], words: &[Word]) -> u64
    ensures { result ≡ from + prefix_len (λ y. passes (word_of addresses.now words.now (address_of y)) y) (drop from operations.now) }
{
    let count = operations.len() as u64;
    let mut index = from;
    while index < count {
        let access = operations[index as usize];
        if !passes(word_of(addresses, words, access.addr()), &access) {
            return index;
        }
        index += 1;
    }
    index
}

/// For each core, the index of its next operation, once everything that passes is performed. Err if memory was refused.
pub fn settle(
    alloc: Global,
    trace: &Trace,
    addresses: &[Address],
    words: &[Word],
    next: &[u64],
) -> Result<Vec<u64>, AllocError>
    ensures { IfOk result (λ far. far.items ≡ settled addresses.now words.now trace.now next.now) }
{
    let mut far = Vec::from_slice(alloc, next)?;
    for (core, operations) in trace.cores().iter().enumerate() {
        let index = settled_index(operations, number_of(next, core), addresses, words);
        set(&mut far, core, index);
    }
    Ok(far)
}

/// The number of a core; 0 if there is none.
pub fn number_of(numbers: &[u64], core: usize) -> u64
    ensures { result ≡ slice_index numbers.now core }
{
    numbers.get(core).copied().unwrap_or(0)
}

/// The id of a core's operation at the index that the numbers give the core, and the operation; None if there is none.
pub fn next_operation(trace: &Trace, numbers: &[u64], core: usize) -> Option<(OpId, Access)>
    ensures { MatchOption result
        (operation_at trace.now (next_id numbers.now core) ≡ None)
        (λ found. (found.0 ≡ next_id numbers.now core) × (operation_at trace.now (next_id numbers.now core) ≡ Some found.1)) }
{
    let _cores = trace.cores();
    let core_id = CoreId::new(core as u64).ok()?;
    let index = OpIndex::new(number_of(numbers, core)).ok()?;
    let id = OpId {
        core: core_id,
        index,
    };
    Some((id, trace.operation(&id)?))
}

/// Whether a point was performed where these are the indices of the cores' next operations.
pub fn was_performed(next: &[u64], point: &Point) -> bool
    ensures { result ≡ was_performed next.now point.now }
{
    match point {
        Point::Init => true,
        Point::At(id) => id.index.get() < number_of(next, id.core.get() as usize),
    }
}

/// Whether a fact is about another operation, or what it puts before this one was performed.
fn allows(next: &[u64], id: &OpId, fact: &Fact) -> bool
    ensures { result ≡ allows next.now id.now fact.now }
{
    !is_same(&fact.later(), &Point::At(*id)) || was_performed(next, &fact.earlier())
}

/// Whether each fact allows an operation.
fn are_allowing(facts: &[Fact], next: &[u64], id: &OpId) -> bool
    ensures { result ≡ list_all (allows next.now id.now) facts.now }
{
    facts.iter().all(|fact| allows(next, id, fact))
}

/// Whether a core may perform its next operation.
pub(crate) fn may_go(
    facts: &[Fact],
    addresses: &[Address],
    state: &State,
    id: &OpId,
    access: &Access,
) -> bool
    ensures { result ≡ (fits (word_of addresses.now (words_of state.now) (address_of access.now)) access.now && list_all (allows (next_of state.now) id.now) facts.now) }
{
    fits(word_of(addresses, state.words(), access.addr()), access)
        && are_allowing(facts, state.next(), id)
}

/// The indices of the cores' next operations after an operation.
pub(crate) fn step(alloc: Global, next: &[u64], id: &OpId) -> Result<Vec<u64>, AllocError>
    ensures { IfOk result (λ stepped. stepped.items ≡ slice_set next.now id.now.core (id.now.index + 1)) }
{
    let mut stepped = Vec::from_slice(alloc, next)?;
    set(&mut stepped, id.core.get() as usize, id.index.get() + 1);
    Ok(stepped)
}
