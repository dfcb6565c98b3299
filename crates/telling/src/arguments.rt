//! A refutation as text: an argument, line by line, that a trace has no order.

ghost use Rattle.std.specs.Prelude.{◌≡◌, ◌++◌, ◌<◌, ◌≤◌, ◌^◌, IfOk, OnOk, string_bytes, sum_by, vec_len};
ghost use Rattle.decimal_text.specs.Numbers.{numeral};
ghost use Rattle.telling.specs.FirstLines.{first_line, operation_count, IsGrown, SaysNo};

use super::shown::{Addresses, At, Counted, Deed, Joined, Number, Stored, Written, between};
use mem_op::{OpId, Word};
use refutation::{Point, Range, Refutation, StateSet, Step};
use refuted_cases::{
    Course, Givers, Hop, Link, Named, Names, Stand, Walk, closes, hops, link_at, round, stands,
};
use std::alloc::{AllocError, Global};
use trace::{Access, Address, Trace};

/// The most lines of an argument that are told.
const MOST_LINES: usize = 100;

/// A refutation of a trace as an argument: the line that says No, and then its steps, one after the other. The cases of a
/// split stand under `either` and `or`, each to its end. Names stand in place of the addresses that have some.
pub fn tell(
    alloc: Global,
    names: &Names,
    trace: &Trace,
    refutation: &Refutation,
) -> Result<String, AllocError>
    ensures first { IfOk result (λ text. SaysNo trace.now (string_bytes text)) }
{
    let mut text = String::new(alloc);
    push_first_line(&mut text, count_of(trace))?;
    push_argument(&mut text, alloc, names, trace, refutation)?;
    Ok(text)
}

/// Adds the line that says No.
fn push_first_line(text: &mut String, count: usize) -> Result<(), AllocError>
    ensures { OnOk result (string_bytes text.new ≡ string_bytes text.old ++ first_line count) }
{
    text.push_str("no: no order of ")?;
    push_number(text, count)?;
    text.push_str(" operations\n")?;
    Ok(())
}

/// Adds a number.
#[tactic(auto, using(decimal_text::proofs::Printing::numeral_decimal))]
fn push_number(text: &mut String, number: usize) -> Result<(), AllocError>
    ensures { OnOk result (string_bytes text.new ≡ string_bytes text.old ++ numeral number) }
{
    write!(text, "{number}")
}

/// Adds the same without the line that says No: the steps alone.
pub fn push_argument(
    text: &mut String,
    alloc: Global,
    names: &Names,
    trace: &Trace,
    refutation: &Refutation,
) -> Result<(), AllocError>
    ensures { OnOk result (IsGrown (string_bytes text.old) (string_bytes text.new)) }
{
    let mut argument = String::new(alloc);
    push_steps(&mut argument, alloc, names, trace, refutation.as_slice())?;
    let beginning = beginning_of(alloc, argument.as_str())?;
    text.push_str(beginning.as_str())
}

/// The first lines of an argument, and how many more there are.
fn beginning_of(alloc: Global, argument: &str) -> Result<String, AllocError> {
    let mut beginning = String::new(alloc);
    for line in argument.lines().take(MOST_LINES) {
        write!(beginning, "{line}\n")?;
    }
    let more = argument.lines().count().saturating_sub(MOST_LINES);
    if more > 0 {
        write!(
            beginning,
            "and {more} lines more; search --refutation OUT writes all steps\n"
        )?;
    }
    Ok(beginning)
}

/// How many operations these cores have.
fn count(cores: &[Vec<Access>]) -> usize
    requires { sum_by vec_len cores.now < 2 ^ 64 }
    ensures { result ≡ sum_by vec_len cores.now }
{
    cores.iter().map(|core| core.len()).sum()
}

/// How many operations a trace has.
#[tactic(auto, using(crate::proofs::Counting::count_is, crate::proofs::Counting::count_few))]
pub fn count_of(trace: &Trace) -> usize
    ensures count { result ≡ operation_count trace.now }
    ensures few { result ≤ 2 ^ 26 }
{
    count(trace.cores())
}

/// Adds what steps say, and each case that is taken up after one.
fn push_steps(
    text: &mut String,
    alloc: Global,
    names: &Names,
    trace: &Trace,
    steps: &[Step],
) -> Written {
    let mut walk = Walk::new(alloc);
    let mut open = None;
    for step in steps {
        let argument = Argument {
            alloc,
            names,
            trace,
            walk: &walk,
        };
        open = argument.step(text, open, step)?;
        if walk.follow(step)? {
            push_case(text, &walk, if closes(step) { "or" } else { "either" })?;
            open = None;
        }
    }
    Ok(())
}

/// A line that tells where a read has its word from, and can go on with what follows: the number of that fact, and what comes between.
type Open = Option<(usize, &'static str)>;

/// Begins a line in so many splits.
fn push_line(text: &mut String, depth: usize) -> Written {
    if !text.is_empty() {
        text.push('\n')?;
    }
    for _ in 0..depth {
        text.push_str("  ")?;
    }
    Ok(())
}

/// Adds the line of the case that is taken up.
fn push_case(text: &mut String, walk: &Walk, word: &str) -> Written {
    push_line(text, walk.depth().saturating_sub(1))?;
    let facts = walk.facts();
    let fact = link_at(facts, facts.len().saturating_sub(1));
    let (given, later) = (Givers(fact.earlier, fact.last), Named(fact.later));
    write!(text, "{word} {given} gave {later} its word")?;
    match fact.earlier {
        Point::Init => text.push_str(":"),
        first => write!(text, ", so {first} comes before {later}:"),
    }
}

/// What an argument stands on at a step: the trace, and what is known of an order; with the names of its addresses.
#[derive(Clone, Copy)]
struct Argument<'a> {
    alloc: Global,
    names: &'a Names,
    trace: &'a Trace,
    walk: &'a Walk,
}

impl<'a> Argument<'a> {
    /// Adds what a step says, where this line is open; the one that is open then.
    fn step(&self, text: &mut String, open: Open, step: &Step) -> Result<Open, AllocError> {
        match step {
            Step::Read { read, ranges } => self.read(text, read, ranges.as_slice()),
            Step::FromRead {
                source,
                write,
                path,
            } => self.from_read(text, open, *source, write, path.as_slice()),
            Step::WriteOrder {
                source,
                write,
                path,
            } => self.write_order(text, open, *source, write, path.as_slice()),
            Step::Cycle { path } => self.cycle(text, path.as_slice()),
            Step::States { addresses, set } => self.states(text, addresses.as_slice(), set),
        }
    }

    /// Begins a line of the case.
    fn new_line(&self, text: &mut String) -> Written {
        push_line(text, self.walk.depth())
    }

    /// Adds a read that is looked at, what may give its word, and what it comes after where that is known.
    fn read(&self, text: &mut String, read: &OpId, ranges: &[Range]) -> Result<Open, AllocError> {
        self.new_line(text)?;
        write!(text, "{}, which ", Deed(self.trace, self.names, *read))?;
        let [range] = ranges else {
            push_sources(text, ranges)?;
            return Ok(None);
        };
        write!(text, "only {} gives", Givers(range.first, range.last))?;
        let number = self.walk.facts().len();
        match range.first {
            Point::Init => Ok(Some((number, "; so "))),
            first => {
                write!(text, "; so it comes after {first}")?;
                Ok(Some((number, ", and ")))
            }
        }
    }

    /// Adds a read, and what gave it its word.
    fn gave(&self, text: &mut String, link: &Link) -> Written {
        if let Point::At(read) = link.later {
            let givers = Givers(link.earlier, link.last);
            write!(
                text,
                "{}, which {givers} gave",
                Deed(self.trace, self.names, read)
            )?;
        }
        text.push_str("; so ")
    }

    /// Goes on with what follows from the source of a read, on the line that is open if that is of this read; and that source.
    fn follows(&self, text: &mut String, open: Open, source: usize) -> Result<Link, AllocError> {
        let link = link_at(self.walk.facts(), source);
        match open {
            Some((number, word)) if number == source => text.push_str(word),
            _ => {
                self.new_line(text)?;
                self.gave(text, &link)
            }
        }?;
        Ok(link)
    }

    /// Adds that a read comes before a write, to which the path leads from the last point of the read's source.
    fn from_read(
        &self,
        text: &mut String,
        open: Open,
        source: usize,
        write: &OpId,
        path: &[usize],
    ) -> Result<Open, AllocError> {
        let last = self.follows(text, open, source)?.last;
        let (stored, write) = (Stored(self.trace.operation(write)), Point::At(*write));
        write!(text, "it comes before {write}, which {stored}")?;
        if last != Point::Init {
            write!(text, " after {last}")?;
            self.way(text, &last, path, &write)?;
        }
        Ok(Some((source, ", and ")))
    }

    /// Adds that a write, from which the path leads to the read, comes before the last point of the read's source.
    fn write_order(
        &self,
        text: &mut String,
        open: Open,
        source: usize,
        write: &OpId,
        path: &[usize],
    ) -> Result<Open, AllocError> {
        let link = self.follows(text, open, source)?;
        let (stored, write) = (Stored(self.trace.operation(write)), Point::At(*write));
        write!(text, "{write}, which {stored} before it")?;
        self.way(text, &write, path, &link.later)?;
        write!(text, ", comes before {}", Named(link.last))?;
        Ok(Some((source, ", and ")))
    }

    /// Adds how a path leads on, if that isn't told before: by program order alone, or by which points.
    fn way(&self, text: &mut String, from: &Point, path: &[usize], to: &Point) -> Written {
        let way = hops(self.alloc, self.walk.facts(), from, path, to)?;
        if way.len() > 1 {
            write!(text, " ({})", Joined(way.as_slice(), " before "))
        } else if way.iter().any(|hop| hop.by_program) {
            text.push_str(" by program order")
        } else {
            Ok(())
        }
    }

    /// Adds the cycle that closes a case.
    fn cycle(&self, text: &mut String, path: &[usize]) -> Result<Open, AllocError> {
        let round = round(self.alloc, self.walk.facts(), path)?;
        self.new_line(text)?;
        push_round(text, &round)?;
        Ok(None)
    }

    /// Adds the set of states that closes a case, and where the cores stand in the furthest of them, each on a line.
    fn states(
        &self,
        text: &mut String,
        addresses: &[Address],
        set: &StateSet,
    ) -> Result<Open, AllocError> {
        self.new_line(text)?;
        push_set(
            text,
            &Addresses(self.names, addresses),
            set.as_slice().len(),
        )?;
        for stand in &stands(self.alloc, self.trace, self.walk.facts(), addresses, set)? {
            push_line(text, self.walk.depth().saturating_add(1))?;
            self.stand(text, stand)?;
        }
        Ok(None)
    }

    /// Adds what a core did last and how it goes on.
    fn stand(&self, text: &mut String, stand: &Stand) -> Written {
        let core = stand.core.get();
        match stand.last {
            Point::Init => write!(text, "core {core} has done nothing"),
            last => write!(text, "core {core} has done {last}"),
        }?;
        match &stand.course {
            Course::Done => text.push_str(", its last"),
            Course::Free => text.push_str(" and may go on"),
            Course::Awaits(id, point) => {
                push_wait(text, stand, id)?;
                write!(text, "{point}")
            }
            Course::Seeks(id, there) => {
                push_wait(text, stand, id)?;
                self.seek(text, id, *there)
            }
        }
    }

    /// Adds the word that an operation seeks at its address, which has another one.
    fn seek(&self, text: &mut String, id: &OpId, there: Word) -> Written {
        let Some(access) = self.trace.operation(id) else {
            return text.push_str("nothing");
        };
        let (read, addr) = (
            access.read().unwrap_or(there),
            At(self.names, access.addr()),
        );
        let (read, there) = (Number(read), Number(there));
        write!(text, "a {read} at address {addr}, which has {there}")
    }
}

/// Adds that one of these ranges gives a read its word, or nothing does.
fn push_sources(text: &mut String, ranges: &[Range]) -> Written {
    if ranges.is_empty() {
        return text.push_str("nothing gives");
    }
    for (place, range) in ranges.iter().enumerate() {
        let before = between(place, ranges.len(), " or ");
        write!(text, "{before}{}", Givers(range.first, range.last))?;
    }
    text.push_str(" gives")
}

/// Adds the points that go round, and which of them follow each other by program order.
fn push_round(text: &mut String, round: &[Hop]) -> Written {
    write!(text, "but {} would go round", Joined(round, ", "))?;
    let count = round.iter().filter(|hop| is_told(hop)).count();
    if count == 0 {
        return Ok(());
    }
    let (mut before, mut place) = (": ", 0usize);
    for hop in round {
        if is_told(hop) {
            write!(text, "{before}{} before {}", hop.from, hop.to)?;
            place = place.saturating_add(1);
            before = between(place, count, " and ");
        }
    }
    text.push_str(" by program order")
}

/// Whether a piece of the way round goes from an operation to one after it in its core, which is told.
fn is_told(hop: &Hop) -> bool {
    hop.by_program && hop.from != Point::Init
}

/// Adds that a set of so many states at these addresses has no end.
fn push_set(text: &mut String, addresses: &Addresses<'_>, count: usize) -> Written {
    let s = if count == 1 { "s" } else { "" };
    let states = Counted(count as u64, "state");
    write!(
        text,
        "but no order of the operations at {addresses} comes to its end, as {states} show{s}; in the furthest one"
    )
}

/// Adds at which operation a core waits, or would wait.
fn push_wait(text: &mut String, stand: &Stand, id: &OpId) -> Written {
    let is_next = id.index.get() == stand.next;
    let (word, at) = (if is_next { "waits" } else { "would wait" }, Point::At(*id));
    write!(text, " and {word} at {at} for ")
}
