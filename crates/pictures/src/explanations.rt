//! The picture of an explanation.

ghost use Rattle.std.specs.Prelude.{◌↔◌, IfOk, IfSome, IsSome, string_bytes};
ghost use Rattle.explain.specs.Pictures.{IsDrawn};
ghost use Rattle.pictures.specs.Pictures.{IsPicture};

use super::painting::paint;
use super::scene::{Arrow, Card, Kind, Scene};
use super::shown::{Shown, Wanted, id_of, pointed_by, shown_of};
use core_program::print_instruction;
use explain::{Departure, Explanation, WrongRead, named_id, place_of};
use log_record::{Act, Entry};
use mem_op::OpId;
use refuted_cases::Names;
use std::alloc::{AllocError, Global};
use std::fmt;
use verdict::Rule;

/// The picture of an explanation, in SVG: a title and a sentence, a column for each core with its operations downward in the
/// order of their keys, an arrow from each to the loads and swaps that name it, and a legend. None if there is too much to
/// draw. Names stand in place of the addresses that have some. Err if memory was refused.
pub fn draw_explanation(
    alloc: Global,
    names: &Names,
    title: &str,
    sentence: &str,
    explanation: &Explanation,
) -> Result<Option<String>, AllocError>
    ensures picture { IfOk result (λ drawn. IfSome drawn (λ svg. IsPicture (string_bytes svg))) }
    ensures drawn { IfOk result (λ drawn. IsSome drawn ↔ IsDrawn explanation.now) }
{
    let Some(shown) = shown_of(alloc, explanation)? else {
        return Ok(None);
    };
    let mut caption = Vec::new(alloc);
    caption.push(String::from_str(alloc, sentence)?)?;
    let scene = Scene {
        title,
        words: sentence,
        caption,
        cards: cards(alloc, names, &shown, explanation)?,
        arrows: arrows(alloc, &shown, explanation)?,
    };
    Ok(Some(paint(alloc, &scene)?))
}

/// The boxes of what is shown, and below them the box of what was due.
fn cards(
    alloc: Global,
    names: &Names,
    shown: &Shown,
    why: &Explanation,
) -> Result<Vec<Card>, AllocError> {
    let mut cards = Vec::new(alloc);
    for row in &shown.rows {
        cards.push(card_of(alloc, names, row, shown.faulty)?)?;
    }
    if let Explanation::Program(departure) = why {
        cards.push(card_due(alloc, departure)?)?;
    }
    Ok(cards)
}

/// The box of what was due.
fn card_due(alloc: Global, departure: &Departure) -> Result<Card, AllocError> {
    let text = match &departure.due {
        Some(due) => {
            let instruction = print_instruction(alloc, &due.instruction)?;
            format!(in alloc; "due: {instruction}")
        }
        None => String::from_str(alloc, "due: the end"),
    }?;
    Ok(Card {
        core: departure.id.core,
        kind: Kind::Due,
        is_red: true,
        is_wrong: false,
        text,
        note: String::new(alloc),
        left_out: (0, 0),
    })
}

/// The line of a record, with the name of its address in place of that, if it has one.
#[derive(Clone, Copy)]
struct Line<'a>(&'a Names, &'a Entry, &'a str);

impl<'a> fmt::Display for Line<'a> {
    fn fmt<W: fmt::Write>(&self, f: &mut fmt::Formatter<W>) -> fmt::Result {
        if let Some(name) = self.0.name_of(self.1.logged.addr.get())
            && let Some((act, fields)) = self.2.split_once(' ')
            && let Some((_, others)) = fields.split_once(' ')
        {
            return write!(f, "{act} {name} {others}");
        }
        f.write_str(self.2)
    }
}

/// The box of an operation, with its stamp and rank beside it.
fn card_of(
    alloc: Global,
    names: &Names,
    row: &Entry,
    faulty: Option<OpId>,
) -> Result<Card, AllocError> {
    let (id, key) = (row.id, row.key());
    let is_wrong = faulty == Some(id);
    let line = row.logged.to_string(alloc)?;
    let text = format!(in alloc; "{id}: {}", Line(names, row, line.as_str()))?;
    Ok(Card {
        core: id.core,
        kind: match &row.logged.act() {
            Act::Store => Kind::Store,
            Act::Load(_) => Kind::Load,
            Act::Swap(..) => Kind::Swap,
        },
        is_red: is_wrong,
        is_wrong,
        text,
        note: format!(in alloc; "stamp {}, rank {}", key.ts.get(), key.rank.get())?,
        left_out: (0, 0),
    })
}

/// The arrows between what is shown, the shortest first.
fn arrows(alloc: Global, shown: &Shown, why: &Explanation) -> Result<Vec<Arrow>, AllocError> {
    let mut arrows = Vec::new(alloc);
    let rows = shown.rows.as_slice();
    for row in rows {
        push_arrow(&mut arrows, rows, Kind::Named, named_id(row), Some(row.id))?;
    }
    if let Explanation::Load(found) = why {
        push_pointed(&mut arrows, rows, found)?;
    }
    let (kind, wanted) = match shown.wanted {
        Some(Wanted::Right(id)) => (Kind::Right, Some(id)),
        Some(Wanted::Before(id)) => (Kind::Before, Some(id)),
        None => (Kind::Right, None),
    };
    push_arrow(&mut arrows, rows, kind, shown.faulty, wanted)?;
    arrows.sort_unstable_by_key(|arrow| arrow.length());
    Ok(arrows)
}

/// Adds the arrow between a load and the store that it is tied to.
fn push_pointed(
    arrows: &mut Vec<Arrow>,
    rows: &[Entry],
    found: &WrongRead,
) -> Result<(), AllocError> {
    let (pointed, load) = (id_of(&pointed_by(found)), Some(found.load.id));
    match found.rule {
        Rule::Value => push_arrow(arrows, rows, Kind::SameWord, pointed, load),
        _ => push_arrow(
            arrows,
            rows,
            Kind::Overwritten,
            id_of(&found.named),
            pointed,
        ),
    }
}

/// Adds an arrow between two operations, if both are shown.
fn push_arrow(
    arrows: &mut Vec<Arrow>,
    rows: &[Entry],
    kind: Kind,
    from: Option<OpId>,
    to: Option<OpId>,
) -> Result<(), AllocError> {
    if let (Some(from), Some(to)) = (place(rows, from), place(rows, to))
        && from != to
    {
        arrows.push(Arrow {
            kind,
            from,
            to,
            is_red: kind.is_red(),
        })?;
    }
    Ok(())
}

/// The row of an operation, if it is shown.
fn place(rows: &[Entry], id: Option<OpId>) -> Option<usize> {
    place_of(rows, id?)
}
