//! What a picture shows of an explanation.

ghost use Rattle.std.specs.Prelude.{◌≡◌, ◌↔◌, IfOk, IfSome, IsNone, IsSome, OnOk};
ghost use Rattle.std.specs.Option.{option_map};
ghost use Rattle.explain.specs.Pictures.{IsDrawn};
ghost use Rattle.explain.specs.declared.explanation.Explanation.TheVariants.{CoreOrder, Load, Program};
ghost use Rattle.pictures.specs.Shows.{IsShownOf, pointed_by, with_one};

use explain::{Departure, Explanation, Fall, WrongRead, by_key, place_of};
use log_record::Entry;
use mem_op::{CoreId, OpId};
use std::alloc::{AllocError, Global};
use verdict::Rule;

/// The operation beside which a picture shows the one that breaks a rule.
#[derive(Clone, Copy)]
pub enum Wanted {
    /// The operation that it should read.
    Right(OpId),
    /// The operation before it in its log, which has a greater key.
    Before(OpId),
}

/// What a picture shows of an explanation.
#[derive(Drop)]
pub struct Shown {
    /// The operations, in the order of their keys.
    pub rows: Vec<Entry>,
    /// The operation that breaks a rule.
    pub faulty: Option<OpId>,
    /// The operation beside which it is shown.
    pub wanted: Option<Wanted>,
    /// The core whose program has something due.
    pub due: Option<CoreId>,
}

/// What the picture of an explanation shows; None if there is too much to draw. Err if memory was refused.
pub fn shown_of(alloc: Global, explanation: &Explanation) -> Result<Option<Shown>, AllocError>
    ensures drawn { IfOk result (λ shown. IsSome shown ↔ IsDrawn explanation.now) }
    ensures shows { IfOk result (λ shown. IfSome shown (λ shown. IsShownOf explanation.now shown)) }
{
    let shown = match explanation {
        Explanation::Load(found) => of_wrong_read(alloc, found),
        Explanation::CoreOrder(fall) => of_fall(alloc, fall),
        Explanation::Program(departure) => of_departure(alloc, departure),
        Explanation::Summed(summary) => match &summary.rows {
            Some(rows) => of_all(alloc, rows.as_slice()),
            None => return Ok(None),
        },
    };
    Ok(Some(shown?))
}

/// All operations of a set.
fn of_all(alloc: Global, rows: &[Entry]) -> Result<Shown, AllocError>
    ensures rows { IfOk result (λ shown. shown.rows.items ≡ rows.now) }
    ensures alone { IfOk result (λ shown. IsNone shown.faulty × IsNone shown.wanted × IsNone shown.due) }
{
    Ok(Shown {
        rows: Vec::from_slice(alloc, rows)?,
        faulty: None,
        wanted: None,
        due: None,
    })
}

/// A load or a swap with the operations of its address around it, the one that it should read, the one that it names, and the one that it
/// is tied to.
fn of_wrong_read(alloc: Global, found: &WrongRead) -> Result<Shown, AllocError>
    ensures { IfOk result (IsShownOf (Load found.now)) }
{
    let mut rows = Vec::from_slice(alloc, found.rows.as_slice())?;
    add(&mut rows, &found.right)?;
    add(&mut rows, &found.named)?;
    add(&mut rows, &pointed_by(found))?;
    Ok(Shown {
        rows: by_key(alloc, rows.as_slice())?,
        faulty: Some(found.load.id),
        wanted: id_of(&found.right).map(Wanted::Right),
        due: None,
    })
}

/// The store that an arrow ties to a load.
pub(crate) fn pointed_by(found: &WrongRead) -> Option<Entry>
    ensures { result ≡ pointed_by found.now.rule found.now }
{
    match found.rule {
        Rule::Value => found.same_word,
        _ => found.culprit,
    }
}

/// Adds an operation, if there is one and no other has its id.
fn add(rows: &mut Vec<Entry>, entry: &Option<Entry>) -> Result<(), AllocError>
    ensures { OnOk result (rows.new.items ≡ with_one entry.now rows.old.items) }
{
    let Some(entry) = entry else {
        return Ok(());
    };
    if place_of(rows.as_slice(), entry.id).is_none() {
        rows.push(*entry)?;
    }
    Ok(())
}

/// The operations of a core around the one at which its log falls, which should come after the one before it.
fn of_fall(alloc: Global, fall: &Fall) -> Result<Shown, AllocError>
    ensures { IfOk result (IsShownOf (CoreOrder fall.now)) }
{
    Ok(Shown {
        rows: by_key(alloc, fall.rows.as_slice())?,
        faulty: Some(fall.fault.id),
        wanted: Some(Wanted::Before(fall.before.id)),
        due: None,
    })
}

/// The operations of a core around the one that isn't its program's, where something else was due.
fn of_departure(alloc: Global, departure: &Departure) -> Result<Shown, AllocError>
    ensures { IfOk result (IsShownOf (Program departure.now)) }
{
    Ok(Shown {
        rows: by_key(alloc, departure.rows.as_slice())?,
        faulty: id_of(&departure.found),
        wanted: None,
        due: Some(departure.id.core),
    })
}

/// The id of an operation, if there is one.
pub(crate) fn id_of(entry: &Option<Entry>) -> Option<OpId>
    ensures { result ≡ option_map (λ e. e.id) entry.now }
{
    match entry {
        Some(entry) => Some(entry.id),
        None => None,
    }
}
