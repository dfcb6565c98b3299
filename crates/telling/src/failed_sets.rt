//! Which question of its rule a set of states fails.

use super::failed_steps::Asked;
use super::shown::Written;
use mem_op::{CoreId, OpId, OpIndex, Word};
use refutation::{Numbers, Point, State, next_operation, number_of, put_word, settle, word_of};
use refuted_cases::awaited;
use std::alloc::{AllocError, Global};
use std::collections::BTreeSet;
use std::fmt;
use std::fmt::Display;
use trace::{Access, Address};

/// As many numbers of a list are shown at most.
const MOST_NUMBERS: usize = 16;

/// Numbers, each with a space before it.
#[derive(Clone, Copy)]
struct Spaced<'a>(&'a [u64]);

impl<'a> Display for Spaced<'a> {
    fn fmt<W: fmt::Write>(&self, f: &mut fmt::Formatter<W>) -> fmt::Result {
        for number in self.0.iter().take(MOST_NUMBERS) {
            write!(f, " {number}")?;
        }
        f.write_str(if self.0.len() > MOST_NUMBERS {
            " .."
        } else {
            ""
        })
    }
}

/// A state as a line has it.
#[derive(Clone, Copy)]
struct ShownState<'a>(&'a State);

impl<'a> Display for ShownState<'a> {
    fn fmt<W: fmt::Write>(&self, f: &mut fmt::Formatter<W>) -> fmt::Result {
        let (next, words) = (Spaced(self.0.next()), Spaced(self.0.words()));
        match self.0 {
            State::Open { .. } => write!(f, "|{next} :{words}"),
            State::Dead { limits, .. } => {
                write!(f, "!{next} :{words} :{}", Spaced(limits.as_slice()))
            }
        }
    }
}

/// Of each core the index of its next operation, and of each address its word.
type Key = (Vec<u64>, Vec<Word>);

/// The states of a set, at some addresses.
#[derive(Drop)]
struct SetCheck<'a> {
    alloc: Global,
    asked: &'a Asked<'a>,
    addresses: &'a [Address],
    seen: BTreeSet<Key>,
}

/// Why a state isn't dead: no core has an operation at its limit, or this one doesn't wait there.
#[derive(Clone, Copy)]
enum Alive {
    NoLimit,
    Past(OpId),
    Store(Point),
    Aside(Point),
    Finds(Point),
    /// The operation waits for a word that a store still stores.
    Fed(Point, Point),
}

impl Display for Alive {
    fn fmt<W: fmt::Write>(&self, f: &mut fmt::Formatter<W>) -> fmt::Result {
        match self {
            Alive::NoLimit => f.write_str("no core has an operation at its limit"),
            Alive::Past(id) => {
                let core = id.core.get();
                write!(f, "core {core} is past its limit, {}", Point::At(*id))
            }
            Alive::Store(at) => write!(f, "{at} is a store, and waits for no word"),
            Alive::Aside(at) => write!(f, "the address of {at} isn't looked at"),
            Alive::Finds(at) => write!(f, "{at} finds its word"),
            Alive::Fed(at, store) => write!(
                f,
                "{at} waits for a word that {store} still stores there before its limit"
            ),
        }
    }
}

/// Adds which question of its rule a set of states fails at these addresses, which isn't closed.
pub(crate) fn push_failed_set(
    told: &mut String,
    alloc: Global,
    asked: &Asked<'_>,
    addresses: &[Address],
    states: &[State],
) -> Written {
    let seen = seen_of(alloc, states)?;
    let check = SetCheck {
        alloc,
        asked,
        addresses,
        seen,
    };
    check.push_flaw(told, states)
}

/// The states of a set, as they are looked up.
fn seen_of(alloc: Global, states: &[State]) -> Result<BTreeSet<Key>, AllocError> {
    let mut seen = BTreeSet::new(alloc);
    for state in states {
        let next = Vec::from_slice(alloc, state.next())?;
        let words = Vec::from_slice(alloc, state.words())?;
        seen.insert((next, words))?;
    }
    Ok(seen)
}

impl<'a> SetCheck<'a> {
    /// Adds what is wrong with the set: it lacks the first state, or one of these states isn't right.
    fn push_flaw(&self, told: &mut String, states: &[State]) -> Written {
        if self.push_first(told)? {
            return Ok(());
        }
        for state in states {
            if self.push_state(told, state)? {
                return Ok(());
            }
        }
        Ok(())
    }

    /// Whether the set lacks the first state; adds that, too.
    fn push_first(&self, told: &mut String) -> Result<bool, AllocError> {
        let next = vec![in self.alloc; 0; self.asked.trace.cores().len()]?;
        let words = vec![in self.alloc; 0; self.addresses.len()]?;
        let Some(first) = self.lacked(next.as_slice(), words)? else {
            return Ok(false);
        };
        let first = ShownState(&first);
        write!(told, "The set lacks the first state, {first}.\n")?;
        Ok(true)
    }

    /// The state of these indices and words, once all is performed that passes, if the set lacks it.
    fn lacked(&self, next: &[u64], words: Vec<Word>) -> Result<Option<State>, AllocError> {
        let far = settle(self.alloc, self.asked.trace, self.addresses, &words, next)?;
        let state = (far, words);
        if self.seen.contains(&state) {
            return Ok(None);
        }
        let (next, words) = (Numbers::new(state.0), Numbers::new(state.1));
        Ok(Some(State::Open { next, words }))
    }

    /// Whether a state isn't right; adds why, too.
    fn push_state(&self, told: &mut String, state: &State) -> Result<bool, AllocError> {
        let State::Dead { limits, .. } = state else {
            return self.push_open(told, state);
        };
        match self.alive(state, limits.as_slice()) {
            None => Ok(false),
            Some(why) => {
                let dead = ShownState(state);
                write!(told, "The state {dead} isn't dead: {why}.\n")?;
                Ok(true)
            }
        }
    }

    /// Whether a move leads out of the set from a state, or none is left; adds that, too.
    fn push_open(&self, told: &mut String, state: &State) -> Result<bool, AllocError> {
        let mut is_left = false;
        for core in 0..self.asked.trace.cores().len() {
            if let Some((id, access)) = next_operation(self.asked.trace, state.next(), core) {
                is_left = true;
                if self.may_go(state, &id, &access) && self.push_out(told, state, &id, &access)? {
                    return Ok(true);
                }
            }
        }
        if !is_left {
            let state = ShownState(state);
            write!(
                told,
                "In the state {state} all is performed, so an order comes to its end.\n"
            )?;
        }
        Ok(!is_left)
    }

    /// Whether an operation may be performed next in a state.
    fn may_go(&self, state: &State, id: &OpId, access: &Access) -> bool {
        let word = word_of(self.addresses, state.words(), access.addr());
        let fits = word.is_some() && (access.read().is_none() || access.read() == word);
        fits && awaited(self.asked.facts, state, id).is_none()
    }

    /// Whether the set lacks the state behind an operation; adds that, too.
    fn push_out(
        &self,
        told: &mut String,
        state: &State,
        id: &OpId,
        access: &Access,
    ) -> Result<bool, AllocError> {
        let next = next_behind(self.alloc, state, id)?;
        let (addr, left) = (access.addr(), access.word_left());
        let words = put_word(self.alloc, self.addresses, state.words(), addr, left)?;
        let Some(behind) = self.lacked(next.as_slice(), words)? else {
            return Ok(false);
        };
        let (state, at, behind) = (ShownState(state), Point::At(*id), ShownState(&behind));
        write!(
            told,
            "From the state {state} the move of {at} leads to {behind}, which the set lacks.\n"
        )?;
        Ok(true)
    }

    /// Why a state isn't dead by these limits, if it isn't.
    fn alive(&self, state: &State, limits: &[u64]) -> Option<Alive> {
        let mut is_some = false;
        for core in 0..self.asked.trace.cores().len() {
            if let Some((id, access)) = next_operation(self.asked.trace, limits, core) {
                is_some = true;
                if let Some(why) = self.awake(state, limits, &id, &access) {
                    return Some(why);
                }
            }
        }
        if is_some { None } else { Some(Alive::NoLimit) }
    }

    /// Why a core doesn't wait at its limit, where this operation is.
    fn awake(&self, state: &State, limits: &[u64], id: &OpId, access: &Access) -> Option<Alive> {
        let at = Point::At(*id);
        let word = word_of(self.addresses, state.words(), access.addr());
        if number_of(state.next(), id.core.get() as usize) > id.index.get() {
            return Some(Alive::Past(*id));
        }
        match (access.read(), word) {
            (None, _) => Some(Alive::Store(at)),
            (_, None) => Some(Alive::Aside(at)),
            (Some(read), Some(word)) if read == word => Some(Alive::Finds(at)),
            (Some(read), _) => {
                let store = self.store_of(state.next(), limits, access.addr(), read)?;
                Some(Alive::Fed(at, store))
            }
        }
    }

    /// An operation from these indices on and before the limits that stores a word to an address.
    fn store_of(&self, next: &[u64], limits: &[u64], addr: Address, word: Word) -> Option<Point> {
        for (core, operations) in self.asked.trace.cores().iter().enumerate() {
            let (from, to) = (
                number_of(next, core) as usize,
                number_of(limits, core) as usize,
            );
            let core = CoreId::new(core as u64).ok()?;
            let first = operations.get(..to).unwrap_or(operations.as_slice());
            if let Some(index) = store_from(first, from, addr, word) {
                let index = OpIndex::new(index as u64).ok()?;
                return Some(Point::At(OpId { core, index }));
            }
        }
        None
    }
}

/// The index of the first of these operations, from one on, that stores a word to an address.
fn store_from(operations: &[Access], from: usize, addr: Address, word: Word) -> Option<usize> {
    for (index, access) in operations.iter().enumerate().skip(from) {
        if access.stores(addr, word) {
            return Some(index);
        }
    }
    None
}

/// The indices of the cores' next operations behind an operation that is performed in a state.
fn next_behind(alloc: Global, state: &State, id: &OpId) -> Result<Vec<u64>, AllocError> {
    let mut next = Vec::from_slice(alloc, state.next())?;
    if let Some(number) = next.get_mut(id.core.get() as usize) {
        *number = number.saturating_add(1);
    }
    Ok(next)
}
