//! What a picture shows: boxes from top to bottom, each in the column of a core, with arrows between them.

use mem_op::CoreId;
use std::alloc::{AllocError, Global};

/// What a box stands for, or what an arrow says, as the legend has it.
#[derive(Clone, Copy, PartialEq)]
pub(crate) enum Kind {
    Store,
    Load,
    Swap,
    Wrong,
    Due,
    Program,
    Source,
    FromRead,
    WriteOrder,
    Named,
    Overwritten,
    SameWord,
    Right,
    Before,
}

/// A line of the legend: a kind, and what the legend says of it.
pub(crate) type Sign = (Kind, &'static str);

/// The lines of the legend, in their order.
const LEGEND: [Sign; 14] = [
    (Kind::Store, "a store"),
    (Kind::Load, "a load"),
    (Kind::Swap, "a swap"),
    (Kind::Wrong, "the operation that breaks a rule"),
    (Kind::Due, "what was due"),
    (Kind::Program, "program order (po)"),
    (
        Kind::Source,
        "reads-from (rf): from a store to a load of its word",
    ),
    (
        Kind::FromRead,
        "from-read (fr): from a load of an older word to a store",
    ),
    (
        Kind::WriteOrder,
        "coherence order (co): from a store to a later one",
    ),
    (Kind::Named, "from a store to what names it as its source"),
    (Kind::Overwritten, "to the first store that wrote over it"),
    (
        Kind::SameWord,
        "from the last store of the word that it read",
    ),
    (Kind::Right, "to what it should read"),
    (Kind::Before, "to the one before it in its log"),
];

impl Kind {
    /// The name of its style.
    pub(crate) fn class(self) -> &'static str {
        match self {
            Kind::Store => "store",
            Kind::Load | Kind::Wrong => "load",
            Kind::Swap => "swap",
            Kind::Due => "due",
            Kind::Program => "program",
            Kind::Source | Kind::Named => "source",
            Kind::WriteOrder | Kind::Overwritten => "writes",
            Kind::FromRead | Kind::SameWord => "fromread",
            Kind::Right | Kind::Before => "wanted",
        }
    }

    /// Whether it is a kind of box.
    pub(crate) fn is_box(self) -> bool {
        matches!(
            self,
            Kind::Store | Kind::Load | Kind::Swap | Kind::Wrong | Kind::Due
        )
    }

    /// Whether it is red wherever it stands.
    pub(crate) fn is_red(self) -> bool {
        matches!(self, Kind::Wrong | Kind::Due | Kind::Right | Kind::Before)
    }
}

/// A box.
#[derive(Drop)]
pub(crate) struct Card {
    /// The core in whose column it stands.
    pub(crate) core: CoreId,
    pub(crate) kind: Kind,
    pub(crate) is_red: bool,
    /// Whether it is the box of the operation that breaks a rule.
    pub(crate) is_wrong: bool,
    pub(crate) text: String,
    /// What stands at the side of its row.
    pub(crate) note: String,
    /// How many operations of the core are left out before it; and after it, if it is the last one of its core.
    pub(crate) left_out: (usize, usize),
}

/// An arrow from a box to another, each by its place.
#[derive(Clone, Copy)]
pub(crate) struct Arrow {
    pub(crate) kind: Kind,
    pub(crate) from: usize,
    pub(crate) to: usize,
    pub(crate) is_red: bool,
}

impl Arrow {
    /// The upper of its ends, and the lower.
    pub(crate) fn span(&self) -> (usize, usize) {
        (self.from.min(self.to), self.from.max(self.to))
    }

    /// Over how many rows it leads.
    pub(crate) fn length(&self) -> usize {
        self.from.abs_diff(self.to)
    }

    /// Whether it goes through a lane: all do, except those of program order.
    pub(crate) fn is_bent(&self) -> bool {
        self.kind != Kind::Program
    }
}

/// What a picture shows.
#[derive(Drop)]
pub(crate) struct Scene<'a> {
    pub(crate) title: &'a str,
    /// What it tells, in words.
    pub(crate) words: &'a str,
    /// The lines below the title.
    pub(crate) caption: Vec<String>,
    /// The boxes, one a row.
    pub(crate) cards: Vec<Card>,
    pub(crate) arrows: Vec<Arrow>,
}

impl<'a> Scene<'a> {
    /// The legend: what is shown, each kind once.
    pub(crate) fn legend(&self, alloc: Global) -> Result<Vec<Sign>, AllocError> {
        let mut legend = Vec::new(alloc);
        for sign in &LEGEND {
            if self.shows(sign.0) {
                legend.push(*sign)?;
            }
        }
        Ok(legend)
    }

    /// Whether something of a kind is shown.
    fn shows(&self, kind: Kind) -> bool {
        match kind {
            Kind::Wrong => self.cards.iter().any(|card| card.is_wrong),
            _ if kind.is_box() => self.cards.iter().any(|card| card.kind == kind),
            _ => self.arrows.iter().any(|arrow| arrow.kind == kind),
        }
    }
}
