//! The picture of a refutation: the operations of its first case, and the arrows that go round.

ghost use Rattle.std.specs.Prelude.{IfOk, string_bytes};
ghost use Rattle.pictures.specs.Pictures.{IsPicture};

use super::case::{Case, Note, Noted, Reason, note_initial, program_arrows};
use super::ordering::rows_of;
use super::painting::paint;
use super::scene::{Arrow, Card, Kind, Scene};
use mem_op::{CoreId, OpId};
use refutation::{Point, Refutation, Step};
use refuted_cases::{Course, Givers, Names, Stand, Walk, closes, round, stands};
use std::alloc::{AllocError, Global};
use std::fmt;
use trace::{Access, Address, Trace};

/// The picture of a refutation of a trace, in SVG, with these words: a column for each core with those of its operations, downward, on which the
/// first case rests, and an arrow for each reason why one comes before another. The arrows that go round are red. Names
/// stand in place of the addresses that have some. Err if memory was refused.
pub fn draw_refutation(
    alloc: Global,
    words: &str,
    names: &Names,
    trace: &Trace,
    refutation: &Refutation,
) -> Result<String, AllocError>
    ensures picture { IfOk result (λ svg. IsPicture (string_bytes svg)) }
{
    let steps = refutation.as_slice();
    let mut walk = Walk::new(alloc);
    let mut last = None;
    for step in steps {
        if closes(step) {
            last = Some(step);
            break;
        }
        walk.follow(step)?;
    }
    let case = Case {
        alloc,
        facts: walk.facts(),
        steps,
        last,
    };
    draw(words, names, trace, &case)
}

/// The picture of a case.
fn draw(words: &str, names: &Names, trace: &Trace, case: &Case<'_>) -> Result<String, AllocError>
    ensures { IfOk result (λ svg. IsPicture (string_bytes svg)) }
{
    let shown = match case.last {
        Some(Step::States { .. }) => states(trace, case),
        _ => cycle(case),
    }?;
    let scene = Scene {
        title: words.lines().next().unwrap_or(""),
        words,
        caption: caption(case, &shown.arrows)?,
        cards: shown.cards(case.alloc, names, trace)?,
        arrows: shown.arrows,
    };
    paint(case.alloc, &scene)
}

/// The lines below the title: what is shown, and which case it is.
fn caption(case: &Case<'_>, arrows: &[Arrow]) -> Result<Vec<String>, AllocError> {
    let alloc = case.alloc;
    let mut caption = Vec::new(alloc);
    caption.push(match case.last {
        Some(Step::States { set, .. }) => format!(in alloc;
            "In the furthest of {} states. The red operations wait.",
            set.as_slice().len()
        ),
        _ if arrows.iter().any(|arrow| arrow.is_red) => {
            String::from_str(
                alloc,
                "Each arrow leads to what comes later. The red ones go round.",
            )
        }
        _ => String::from_str(alloc, "Nothing gives the word that was loaded."),
    }?)?;
    let count = case.steps.iter().filter(|step| closes(step)).count();
    if count > 1 {
        let assumed = Assumed(case);
        caption.push(format!(in alloc; "This is the first of {count} cases{assumed}.")?)?;
    }
    Ok(caption)
}

/// The operations that are shown, core by core, their rows, and the arrows from row to row, the shortest first.
#[derive(Drop)]
struct Shown {
    operations: Vec<Noted>,
    rows: Vec<usize>,
    arrows: Vec<Arrow>,
}

/// What is shown of a case that a cycle closes, or a read that nothing gives its word.
fn cycle(case: &Case<'_>) -> Result<Shown, AllocError> {
    let reasons = case.reasons()?;
    let mut operations = case.operations(&reasons)?;
    note_initial(&mut operations, &reasons);
    let mut arrows = arrows(case, &operations, &reasons)?;
    let rows = rows_of(case.alloc, operations.len(), &arrows)?;
    if let Some(back) = reasons.last() {
        case.push_arrow(&mut arrows, &operations, back)?;
    }
    put_in_rows(&mut arrows, &rows);
    Ok(Shown {
        operations,
        rows,
        arrows,
    })
}

/// The arrows between these operations, except that of the last of these facts.
fn arrows(
    case: &Case<'_>,
    operations: &[Noted],
    reasons: &[Reason],
) -> Result<Vec<Arrow>, AllocError> {
    let round = round(case.alloc, case.facts, case.path())?;
    let mut arrows = program_arrows(case.alloc, operations, &round)?;
    let others = reasons.len().saturating_sub(1);
    for reason in reasons.iter().take(others) {
        case.push_arrow(&mut arrows, operations, reason)?;
    }
    Ok(arrows)
}

/// Makes arrows lead from row to row, and puts the shortest first.
fn put_in_rows(arrows: &mut Vec<Arrow>, rows: &[usize]) {
    for arrow in arrows.iter_mut() {
        arrow.from = rows.get(arrow.from).copied().unwrap_or(0);
        arrow.to = rows.get(arrow.to).copied().unwrap_or(0);
    }
    arrows.sort_unstable_by_key(|arrow| arrow.length());
}

/// What is shown of a set of states: what each core did last in the furthest of them, and below that where it waits.
fn states(trace: &Trace, case: &Case<'_>) -> Result<Shown, AllocError> {
    let mut operations = Vec::new(case.alloc);
    if let Some(Step::States { addresses, set }) = case.last {
        for stand in &stands(case.alloc, trace, case.facts, addresses.as_slice(), set)? {
            push_stand(&mut operations, stand)?;
        }
    }
    let mut arrows = program_arrows(case.alloc, &operations, &[])?;
    let rows = rows_of(case.alloc, operations.len(), &[])?;
    put_in_rows(&mut arrows, &rows);
    Ok(Shown {
        operations,
        rows,
        arrows,
    })
}

/// Shows what a core did last, and where it waits.
fn push_stand(operations: &mut Vec<Noted>, stand: &Stand) -> Result<(), AllocError> {
    if let Point::At(id) = stand.last {
        operations.push((id, Note::Nothing))?;
    }
    match &stand.course {
        Course::Seeks(id, there) => operations.push((*id, Note::Finds(*there)))?,
        Course::Awaits(id, _) => operations.push((*id, Note::Waits))?,
        _ => (),
    }
    Ok(())
}

impl Shown {
    /// The boxes, from top to bottom.
    fn cards(&self, alloc: Global, names: &Names, trace: &Trace) -> Result<Vec<Card>, AllocError> {
        let mut cards = Vec::new(alloc);
        for row in 0..self.rows.len() {
            if let Some(place) = self.rows.iter().position(|other| *other == row)
                && let Some(noted) = self.operations.get(place)
            {
                cards.push(self.card(alloc, names, trace, place, noted)?)?;
            }
        }
        Ok(cards)
    }

    /// The box of the operation at a place.
    fn card(
        &self,
        alloc: Global,
        names: &Names,
        trace: &Trace,
        place: usize,
        noted: &Noted,
    ) -> Result<Card, AllocError> {
        let (id, note) = *noted;
        let access = trace.operation(&id);
        Ok(Card {
            core: id.core,
            kind: kind_of(&access),
            is_red: matches!(note, Note::Waits | Note::Finds(_)),
            is_wrong: false,
            text: format!(in alloc; "{id}  {}{note}", ShownAccess(names, &access))?,
            note: String::new(alloc),
            left_out: self.left_out(trace, place, id),
        })
    }

    /// How many operations of a core are left out between the one shown before and the one at a place; and how many come after it, if it is the last
    /// one shown of the core.
    fn left_out(&self, trace: &Trace, place: usize, id: OpId) -> (usize, usize) {
        let index = id.index.get() as usize;
        let first = match self.index_at(place.wrapping_sub(1), id.core) {
            Some(other) => other.saturating_add(1),
            None => 0,
        };
        let own = trace.cores().get(id.core.get() as usize);
        let end = match self.index_at(place.wrapping_add(1), id.core) {
            Some(_) => 0,
            None => own.map_or(0, |own| own.len()),
        };
        (
            index.saturating_sub(first),
            end.saturating_sub(index).saturating_sub(1),
        )
    }

    /// The index of the operation at a place, if it is of a core.
    fn index_at(&self, place: usize, core: CoreId) -> Option<usize> {
        let id = self.operations.get(place)?.0;
        (id.core == core).then_some(id.index.get() as usize)
    }
}

/// What kind of operation it is.
fn kind_of(access: &Option<Access>) -> Kind {
    match access {
        Some(access) if access.read().is_none() => Kind::Store,
        Some(access) if access.is_store_to(access.addr()) => Kind::Swap,
        _ => Kind::Load,
    }
}

/// The place of an address in memory, as a line of a trace has it: with the address's name, or its number where it has none.
#[derive(Clone, Copy)]
struct Cell<'a>(&'a Names, Address);

impl<'a> fmt::Display for Cell<'a> {
    fn fmt<W: fmt::Write>(&self, f: &mut fmt::Formatter<W>) -> fmt::Result {
        match self.0.name_of(self.1) {
            Some(name) => write!(f, "M[{name}]"),
            None => write!(f, "M[{}]", self.1),
        }
    }
}

/// An operation as a line of a trace has it.
#[derive(Clone, Copy)]
struct ShownAccess<'a>(&'a Names, &'a Option<Access>);

impl<'a> fmt::Display for ShownAccess<'a> {
    fn fmt<W: fmt::Write>(&self, f: &mut fmt::Formatter<W>) -> fmt::Result {
        let Some(access) = self.1 else {
            return f.write_str("nothing");
        };
        let (at, left) = (Cell(self.0, access.addr()), access.word_left());
        match access.read() {
            None => write!(f, "{at} := {left}"),
            Some(read) if access.is_store_to(access.addr()) => {
                write!(f, "{at} == {read}; {at} := {left}")
            }
            Some(read) => write!(f, "{at} == {read}"),
        }
    }
}

/// What a case takes for granted: which store gave each read its word, if there were several.
#[derive(Clone, Copy)]
struct Assumed<'a>(&'a Case<'a>);

impl<'a> fmt::Display for Assumed<'a> {
    fn fmt<W: fmt::Write>(&self, f: &mut fmt::Formatter<W>) -> fmt::Result {
        let mut between = ", where ";
        for fact in self.0.facts {
            if self.0.is_assumed(fact) {
                let givers = Givers(fact.earlier, fact.last);
                write!(f, "{between}{givers} gave {} its word", fact.later)?;
                between = " and ";
            }
        }
        Ok(())
    }
}
