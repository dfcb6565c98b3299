//! What is wrong, in a sentence; which store a load that breaks a rule points to, and what its times allow.

use super::shown::{At, Number, Written};
use address_check::is_store;
use explain::{Departure, Explanation, Fall, WrongRead, named_id, ties};
use log_record::{Act, Entry};
use mem_op::{Addr, Op};
use refuted_cases::Names;
use std::alloc::{AllocError, Global};
use std::fmt;
use std::fmt::Display;
use verdict::Rule;

/// The sentence that an explanation begins with: what is wrong, or that nothing is. Names stand in place of the addresses that have some.
pub fn first_sentence(
    alloc: Global,
    names: &Names,
    explanation: &Explanation,
) -> Result<String, AllocError> {
    let mut text = String::new(alloc);
    match explanation {
        Explanation::Load(found) => push_wrong_read(&mut text, names, found),
        Explanation::CoreOrder(fall) => push_fall(&mut text, fall),
        Explanation::Program(departure) => push_departure(&mut text, names, departure),
        Explanation::Summed(_) => text.push_str("No operation breaks a rule."),
    }?;
    Ok(text)
}

/// The address of a record, as it is told.
pub(crate) fn at<'a>(names: &'a Names, addr: Addr) -> At<'a> {
    At(names, addr.get())
}

/// Adds what is wrong with a load, or with what a swap reads.
fn push_wrong_read(text: &mut String, names: &Names, found: &WrongRead) -> Written {
    match (found.rule, &found.right, named_id(&found.load)) {
        (Rule::Value, Some(right), _) => push_wrong_value(text, names, &found.load, right),
        (Rule::Value, None, _) => {
            push_initial_read(text, names, &found.load)?;
            text.push_str(", but that is 0.")
        }
        (_, _, Some(named)) => {
            let (load, addr) = (found.load.id, at(names, found.load.logged.addr));
            write!(text, "{load} read address {addr} from {named}")?;
            push_wrong_source(text, names, found)
        }
        (_, _, None) => {
            push_initial_read(text, names, &found.load)?;
            push_last_store(text, &found.right, "before it")
        }
    }
}

/// Adds that a load read another word than the store left which it should read.
fn push_wrong_value(text: &mut String, names: &Names, load: &Entry, right: &Entry) -> Written {
    let read = Number(load.logged.word_answered());
    let (load, addr) = (load.id, at(names, load.logged.addr));
    let (store, stored) = (right.id, Number(right.logged.value));
    write!(
        text,
        "{load} read {read} from {store} at address {addr}, but {store} stored {stored} there."
    )
}

/// Adds what a load or a swap read whose source is the initial word. That word is 0, but a log may have another.
fn push_initial_read(text: &mut String, names: &Names, read: &Entry) -> Written {
    let (load, addr) = (read.id, at(names, read.logged.addr));
    match Number(read.logged.word_answered()) {
        Number(0) => write!(text, "{load} read the initial 0 of address {addr}"),
        word => write!(
            text,
            "{load} read {word} as the initial word of address {addr}"
        ),
    }
}

/// Adds what is wrong with the record that a source names.
fn push_wrong_source(text: &mut String, names: &Names, found: &WrongRead) -> Written {
    match (wrong_source(found), &found.named) {
        (None, _) => return push_last_store(text, &found.right, "after that"),
        (Some(""), Some(named)) => {
            let addr = at(names, named.logged.addr);
            write!(text, ", which stores at address {addr}")
        }
        (Some(wrong), _) => text.push_str(wrong),
    }?;
    let addr = at(names, found.load.logged.addr);
    match &found.right {
        None => write!(text, "; no store to address {addr} comes before it."),
        Some(right) => push_right(text, &addr, right),
    }
}

/// Adds the store that should have been read at an address.
fn push_right(text: &mut String, addr: &At<'_>, right: &Entry) -> Written {
    let (store, stored) = (right.id, Number(right.logged.value));
    write!(
        text,
        "; the last store to address {addr} before it is {store}, of {stored}."
    )
}

/// What is wrong with the record that a source names, no words where it is at another address; none of a store at the load's before it.
fn wrong_source(found: &WrongRead) -> Option<&'static str> {
    let load = &found.load;
    match &found.named {
        None => Some(", which isn't in the logs"),
        Some(named) if !is_store(named) => Some(", which is a load"),
        Some(named) if named.id == load.id => Some(", which is its own store"),
        Some(named) if named.logged.addr != load.logged.addr => Some(""),
        Some(named) if named.key() > load.key() => Some(", which comes after it"),
        Some(_) => None,
    }
}

/// Adds the store that should have been read, which came before it or after another.
fn push_last_store(text: &mut String, right: &Option<Entry>, when: &str) -> Written {
    match right {
        None => text.push_str(", and no store comes before it."),
        Some(right) => {
            let (store, stored) = (right.id, Number(right.logged.value));
            write!(text, ", but {store} had stored {stored} there {when}.")
        }
    }
}

/// Adds what falls along a core's log.
fn push_fall(text: &mut String, fall: &Fall) -> Written {
    let (id, before, after) = (fall.fault.id, fall.before.key(), fall.fault.key());
    let (stamp, to) = (before.ts.get(), after.ts.get());
    if to < stamp {
        return write!(text, "At {id} the stamp fell from {stamp} to {to}.");
    }
    let (rank, to) = (before.rank.get(), after.rank.get());
    write!(
        text,
        "At {id} the rank fell from {rank} to {to}, at stamp {stamp}."
    )
}

/// Adds what a core's log has in place of what its program does.
fn push_departure(text: &mut String, names: &Names, departure: &Departure) -> Written {
    let (id, core) = (departure.id, departure.id.core.get());
    match &departure.found {
        None => write!(text, "The log of core {core} ends before {id}, where"),
        Some(found) => write!(text, "{} {}, but", found.id, Deed(names, &op_of(found))),
    }?;
    let there = if departure.found.is_some() {
        " there"
    } else {
        ""
    };
    match &departure.due {
        None => text.push_str(" its program had ended."),
        Some(due) => write!(text, " its program {}{there}.", Deed(names, &due.op)),
    }
}

/// What a record does to memory.
fn op_of(entry: &Entry) -> Op {
    let (addr, value) = (entry.logged.addr, entry.logged.value);
    match &entry.logged.act() {
        Act::Store => Op::Store(addr, value),
        Act::Load(_) => Op::Load(addr),
        Act::Swap(..) => Op::Swap(addr, value),
    }
}

/// What an operation does, as the end of a sentence.
#[derive(Clone, Copy)]
struct Deed<'a>(&'a Names, &'a Op);

impl<'a> Display for Deed<'a> {
    fn fmt<W: fmt::Write>(&self, f: &mut fmt::Formatter<W>) -> fmt::Result {
        let (addr, value, does, to) = match self.1 {
            Op::Load(addr) => return write!(f, "loads address {}", at(self.0, *addr)),
            Op::Store(addr, value) => (addr, value, "stores", "at"),
            Op::Swap(addr, value) => (addr, value, "swaps", "into"),
        };
        let (value, addr) = (Number(*value), at(self.0, *addr));
        write!(f, "{does} {value} {to} address {addr}")
    }
}

/// Adds a line of the store that a load or a swap points to: with SOURCE the first one that wrote over what it read, if that isn't the
/// one that it should read; with VALUE the last one of the word that it read.
pub(crate) fn push_culprit(text: &mut String, found: &WrongRead) -> Written {
    match (&found.culprit, &found.same_word) {
        (Some(first), _) if found.rule == Rule::Source && found.right != found.culprit => {
            let (store, stamp) = (first.id, first.key().ts.get());
            match named_id(&found.load) {
                Some(named) => write!(text, "\nThe word of {named}"),
                None => text.push_str("\nThe initial 0"),
            }?;
            write!(text, " was overwritten first by {store}, at stamp {stamp}.")
        }
        (_, Some(last)) if found.rule == Rule::Value => {
            let (word, store, stamp) = (Number(last.logged.value), last.id, last.key().ts.get());
            write!(
                text,
                "\nThe last store of {word} there before it is {store}, at stamp {stamp}."
            )
        }
        _ => Ok(()),
    }
}

/// Adds a line of what the times of a load or a swap allow, if it doesn't name the store that it should read.
pub(crate) fn push_times(text: &mut String, found: &WrongRead) -> Written {
    if found.rule != Rule::Source {
        return Ok(());
    }
    if let Some((first, second)) = tie(found) {
        return push_tie(text, &first, &second);
    }
    let (right, next) = (&found.right, &found.next);
    if found.is_right_later {
        return push_moved(text, found, next, "after", RIGHT);
    }
    if found.is_right_earlier {
        return push_moved(text, found, right, "before", RIGHT);
    }
    push_moved(text, found, right, "before", WRONG)?;
    push_moved(text, found, next, "after", WRONG)
}

/// The words about a load that would be right at another time.
const RIGHT: &str = "right: the times may be at fault, and not the machine.";

/// The words about one that wouldn't.
const WRONG: &str = "wrong too.";

/// The load and the store that it names, or the one that it should read, where the numbers of their cores decide which
/// comes first; the one that does before the other.
fn tie(found: &WrongRead) -> Option<(Entry, Entry)> {
    let load = found.load;
    if let Some(named) = found.named {
        let is_after = named.logged.addr == load.logged.addr
            && is_store(&named)
            && named.key() > load.key();
        if is_after && ties(&load, &named) {
            return Some((load, named));
        }
    }
    let right = found.right?;
    ties(&right, &load).then_some((right, load))
}

/// Adds that the numbers of the cores decide.
fn push_tie(text: &mut String, first: &Entry, second: &Entry) -> Written {
    let (one, other, key) = (first.id, second.id, first.key());
    let (stamp, rank) = (key.ts.get(), key.rank.get());
    write!(
        text,
        "\n{one} and {other} have the same stamp {stamp} and rank {rank}, so the numbers of their cores decide, and {one} comes first. If it took place after {other}, give it a greater rank."
    )
}

/// Adds how far the stamp of a load is from that of a store, if there is one, and whether it would be right just before or just after
/// that store, or no times can put it there.
fn push_moved(
    text: &mut String,
    found: &WrongRead,
    store: &Option<Entry>,
    side: &str,
    then: &str,
) -> Written {
    let Some(store) = store else {
        return Ok(());
    };
    push_stamps(text, &found.load, store)?;
    let other = store.id;
    if other.core == found.load.id.core {
        write!(
            text,
            " Its own core made {other} {side} it, whatever the times."
        )
    } else {
        write!(text, " Just {side} {other} it would be {then}")
    }
}

/// Adds how far the stamp of a load is from that of a store.
fn push_stamps(text: &mut String, load: &Entry, store: &Entry) -> Written {
    let (id, other) = (load.id, store.id);
    let (stamp, its) = (load.key().ts.get(), store.key().ts.get());
    let side = if its < stamp { "after" } else { "before" };
    match stamp.abs_diff(its) {
        0 => write!(text, "\nThe stamp of {id} and of {other} is {stamp}."),
        apart => write!(
            text,
            "\nThe stamp of {id}, {stamp}, is {apart} {side} that of {other}."
        ),
    }
}
