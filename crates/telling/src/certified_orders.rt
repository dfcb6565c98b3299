//! The words about a line of an order of a trace.

use super::arguments::count_of;
use super::certificates::push_end;
use super::shown::{Deed, Stored, Written};
use super::slips::{RefusedLine, is_feed, number_in, push_trouble, trouble_of};
use super::step_lines::begins_step;
use mem_op::{CoreId, OpId, OpIndex};
use refutation::Point;
use refuted_cases::Names;
use std::alloc::Global;
use std::str;
use trace::{Address, Trace};

/// Adds the words about a line of an order.
pub(crate) fn push_order_line(
    told: &mut String,
    alloc: Global,
    trace: &Trace,
    at: &RefusedLine<'_>,
) -> Written {
    let lines = at.place.line.saturating_sub(1) as usize;
    let before: Vec<OpId> = at
        .text
        .split(is_feed)
        .take(lines)
        .filter_map(id_of)
        .collect(alloc)?;
    let names = Names::none(alloc);
    let placed = Placed {
        trace,
        names: &names,
        before: before.as_slice(),
    };
    match id_of(at.line) {
        Some(_) if !at.is_whole() => {
            told.push_str("The file ends in the middle of a line: it is cut off.\n")
        }
        Some(id) => placed.push_wrong(told, &id),
        None if at.is_missing() || at.line.starts_with(b"end") => {
            placed.push_missing(told)?;
            push_end(told, at, count_of(trace) as u64)
        }
        None => push_no_id(told, at),
    }
}

/// The id that a line is.
fn id_of(line: &[u8]) -> Option<OpId> {
    let (core, index) = str::from_utf8(line).ok()?.split_once('.')?;
    Some(OpId {
        core: CoreId::new(number_in(core)?).ok()?,
        index: OpIndex::new(number_in(index)?).ok()?,
    })
}

/// Adds how an order is written, and what has usually gone wrong in a line that is neither an id's nor the last one.
fn push_no_id(told: &mut String, at: &RefusedLine<'_>) -> Written {
    told.push_str(
        "An order has a line C.I for each operation, then end N with their number; a refutation begins with tardis-refutation 1.\n",
    )?;
    let first = at.first_word();
    if let Some(slip) = slip_of(first, at.words).or(at.slip()) {
        return write!(told, "{slip}\n");
    }
    match trouble_of("source", first) {
        Some(trouble) if first.contains('.') => push_trouble(told, "id", first, trouble),
        _ => Ok(()),
    }
}

/// The words about a line of something else than an order, by its words.
fn slip_of(first: &str, words: &[&str]) -> Option<&'static str> {
    if words.iter().any(|word| word.starts_with("M[")) {
        return Some("It is a line of a trace: explain --certificate takes the certificate first.");
    }
    if matches!(first, "tardis-log" | "S" | "L" | "X") {
        return Some("It is a line of a log: with --logs confirm takes the certificate first.");
    }
    if first == "tardis-refutation" {
        return Some("The first line of a refutation is tardis-refutation 1, and nothing else.");
    }
    begins_step(first).then_some(
        "It is a step of a refutation, before which its first line is missing.",
    )
}

/// An order as far as it is right: these operations of the trace, whose addresses have these names.
#[derive(Clone, Copy)]
struct Placed<'a> {
    trace: &'a Trace,
    names: &'a Names,
    before: &'a [OpId],
}

impl<'a> Placed<'a> {
    /// Adds why an operation can't come next.
    fn push_wrong(&self, told: &mut String, id: &OpId) -> Written {
        let (at, core, next) = (Point::At(*id), id.core.get(), self.next_of(id.core));
        let Some(access) = self.trace.operation(id) else {
            return write!(told, "The trace has no operation {at}.\n");
        };
        if id.index.get() < next {
            return write!(told, "{at} stands on a line before it.\n");
        }
        if id.index.get() > next {
            return write!(
                told,
                "The next operation of core {core} is {core}.{next}.\n"
            );
        }
        let deed = Deed(self.trace, self.names, *id);
        match self.last_store(access.addr()) {
            Some(store) => write!(
                told,
                "{deed}, but {} {} before it, last of all.\n",
                Point::At(store),
                Stored(self.trace.operation(&store))
            ),
            None => write!(
                told,
                "{deed}, but nothing was stored there before it, and 0 is there.\n"
            ),
        }
    }

    /// The index of the next operation of a core: how many of it stand before.
    fn next_of(&self, core: CoreId) -> u64 {
        self.before.iter().filter(|id| id.core == core).count() as u64
    }

    /// The last store or swap before at an address.
    fn last_store(&self, addr: Address) -> Option<OpId> {
        for id in self.before.iter().rev() {
            let access = self.trace.operation(id);
            if access.is_some_and(|access| access.is_store_to(addr)) {
                return Some(*id);
            }
        }
        None
    }

    /// Adds an operation that is missing, if one is.
    fn push_missing(&self, told: &mut String) -> Written {
        for (core, operations) in self.trace.cores().iter().enumerate() {
            let next = CoreId::new(core as u64).map_or(0, |core| self.next_of(core));
            if next < operations.len() as u64 {
                return write!(
                    told,
                    "Operations are missing before it: the next one of core {core} is {core}.{next}.\n"
                );
            }
        }
        Ok(())
    }
}
