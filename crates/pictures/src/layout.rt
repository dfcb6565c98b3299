//! Where the parts of a picture stand. Each box has a row of its own, so an arrow that leaves it to the right meets no other box: it goes
//! down or up in a lane that lies right of all that stands in the rows between.

use super::scene::{Arrow, Card, Scene};
use super::svg::Spot;
use std::alloc::{AllocError, Global};

/// From the sides of the picture to what is drawn.
const MARGIN: usize = 16;

/// How wide a letter of a box is.
const LETTER: usize = 8;

/// How wide a letter of a note is.
const NOTE_LETTER: usize = 7;

/// How high a box is.
const HIGH: usize = 28;

/// From a box to the one of the next row.
const STEP: usize = 50;

/// From a line of text to the next.
const LINE: usize = 18;

/// Where the first line of the caption stands.
const CAPTION: usize = 46;

/// From a line of the legend to the next.
const LEGEND_STEP: usize = 22;

/// From a column to the next, if each is as wide as its boxes.
const GAP: usize = 24;

/// From a column to the next at least: room for its name.
const LEAST_STEP: usize = 56;

/// From a box to the nearest lane, and from a lane to the next.
const LANE: usize = 14;

/// For how many lanes there is room, at most.
const MOST_LANES: usize = 16;

/// How wide a picture is at most, if its boxes and notes leave room for the names of the columns.
const MOST_WIDTH: usize = 1600;

/// A scene, and where its parts stand.
#[derive(Drop)]
pub(crate) struct Layout<'a> {
    pub(crate) alloc: Global,
    pub(crate) scene: &'a Scene<'a>,
    /// How wide the column of each core is: as wide as its widest box; 0 if it has none.
    pub(crate) widths: [usize; 64],
    /// The left side of each column, where its boxes begin.
    pub(crate) lefts: [usize; 64],
    /// The lane of each arrow, from the left.
    pub(crate) lanes: Vec<usize>,
    /// How wide the boxes, the arrows and the lines above them are.
    width: usize,
}

/// How wide a text of a box is.
fn wide_of(card: &Card) -> usize {
    card.text.len().saturating_mul(LETTER).saturating_add(20)
}

/// How wide the widest box of each core is; 0 if it has none.
fn widths_of(scene: &Scene<'_>) -> [usize; 64] {
    let mut widths = [0; 64];
    for card in &scene.cards {
        let core = card.core.get() as usize;
        if core < widths.len() {
            widths[core] = wide_of(card).max(widths[core]);
        }
    }
    widths
}

/// The left side of each column, for these widths. The first column is at `left`, and none is further than `share` from the next.
fn lefts_of(widths: &[usize; 64], left: usize, share: usize) -> [usize; 64] {
    let mut lefts = [0; 64];
    let mut next = left;
    for core in 0..64usize {
        lefts[core] = next;
        if widths[core] > 0 {
            let step = widths[core].saturating_add(GAP).min(share);
            next = next.saturating_add(step);
        }
    }
    lefts
}

/// How far a column may be from the next, at most, so that a picture with this much around its columns isn't too wide. Its boxes may then run over
/// the columns beside them.
fn share(widths: &[usize; 64], around: usize) -> usize {
    let (mut all, mut widest, mut steps) = (0usize, 0usize, 0usize);
    for core in 0..64usize {
        if widths[core] > 0 {
            all = all.saturating_add(widths[core].saturating_add(GAP));
            widest = widths[core].max(widest);
            steps = steps.saturating_add(1);
        }
    }
    if around.saturating_add(all) <= MOST_WIDTH {
        return MOST_WIDTH;
    }
    let room = MOST_WIDTH.saturating_sub(around.saturating_add(widest));
    (room / steps.saturating_sub(1).max(1)).max(LEAST_STEP)
}

/// How wide the longest note is, with the gap beside it; 0 if there is none.
fn note_width(scene: &Scene<'_>) -> usize {
    match scene.cards.iter().map(|card| card.note.len()).max() {
        Some(longest) if longest > 0 => longest.saturating_mul(NOTE_LETTER).saturating_add(GAP),
        _ => 0,
    }
}

/// How wide the longest line above the boxes is.
fn line_width(scene: &Scene<'_>) -> usize {
    let longest = scene.caption.iter().map(|line| line.len()).max();
    let longest = longest.unwrap_or(0).max(scene.title.len());
    longest.saturating_mul(NOTE_LETTER).saturating_add(MARGIN)
}

/// The left side of a box.
fn left_of(card: &Card, lefts: &[usize; 64]) -> usize {
    let left = lefts.get(card.core.get() as usize);
    left.copied().unwrap_or(MARGIN)
}

/// The right side of each box.
fn ends_of(
    alloc: Global,
    scene: &Scene<'_>,
    lefts: &[usize; 64],
) -> Result<Vec<usize>, AllocError> {
    let mut ends = Vec::new(alloc);
    for card in &scene.cards {
        ends.push(left_of(card, lefts).saturating_add(wide_of(card)))?;
    }
    Ok(ends)
}

/// The lanes of the arrows, which come shortest first. A lane is right of all that stands in its arrow's rows; `ends` has where they end.
fn lanes_of(
    alloc: Global,
    arrows: &[Arrow],
    ends: &mut Vec<usize>,
) -> Result<Vec<usize>, AllocError> {
    let mut lanes = Vec::new(alloc);
    for arrow in arrows {
        let mut lane = 0;
        if arrow.is_bent() {
            lane = greatest(ends.as_slice(), arrow.span()).saturating_add(LANE);
            set_all(ends, arrow.span(), lane);
        }
        lanes.push(lane)?;
    }
    Ok(lanes)
}

/// The greatest of the numbers from one place to another, both included.
fn greatest(numbers: &[usize], (first, last): (usize, usize)) -> usize {
    let within = numbers.iter().take(last.saturating_add(1)).skip(first);
    within.copied().max().unwrap_or(0)
}

/// Sets the numbers from one place to another, both included.
fn set_all(numbers: &mut Vec<usize>, (first, last): (usize, usize), number: usize) {
    for there in numbers.iter_mut().take(last.saturating_add(1)).skip(first) {
        *there = number;
    }
}

impl<'a> Layout<'a> {
    /// The layout of a scene.
    pub(crate) fn new(alloc: Global, scene: &'a Scene<'a>) -> Result<Layout<'a>, AllocError> {
        let bent = scene.arrows.iter().filter(|arrow| arrow.is_bent()).count();
        let left = note_width(scene).saturating_add(MARGIN);
        let around = left
            .saturating_add(bent.min(MOST_LANES).saturating_mul(LANE))
            .saturating_add(2 * MARGIN);
        let widths = widths_of(scene);
        let lefts = lefts_of(&widths, left, share(&widths, around));
        let mut ends = ends_of(alloc, scene, &lefts)?;
        let lanes = lanes_of(alloc, &scene.arrows, &mut ends)?;
        Ok(Layout {
            alloc,
            scene,
            widths,
            lefts,
            lanes,
            width: line_width(scene).max(greatest(&ends, (0, ends.len()))),
        })
    }

    /// The size of the picture, with this many lines below the boxes.
    pub(crate) fn size(&self, lines: usize) -> Spot {
        Spot(self.width.saturating_add(MARGIN), self.legend(lines).1)
    }

    /// Where the title begins.
    pub(crate) fn title(&self) -> Spot {
        Spot(MARGIN, 26)
    }

    /// Where a line of the caption begins.
    pub(crate) fn caption(&self, line: usize) -> Spot {
        Spot(MARGIN, CAPTION).plus(0, line.saturating_mul(LINE))
    }

    /// The upper side of a row's box.
    pub(crate) fn row(&self, row: usize) -> usize {
        let top = self.caption(self.scene.caption.len()).1;
        top.saturating_add(LINE)
            .saturating_add(row.saturating_mul(STEP))
    }

    /// Where the note of a row begins.
    pub(crate) fn note(&self, row: usize) -> Spot {
        Spot(MARGIN, self.row(row)).plus(0, 19)
    }

    /// Where a line of the legend begins.
    pub(crate) fn legend(&self, line: usize) -> Spot {
        let top = self.row(self.scene.cards.len());
        Spot(MARGIN, top).plus(0, line.saturating_mul(LEGEND_STEP))
    }

    /// The upper left corner of a box.
    pub(crate) fn corner(&self, card: &Card, row: usize) -> Spot {
        Spot(left_of(card, &self.lefts), self.row(row))
    }

    /// The size of a box.
    pub(crate) fn box_size(&self, card: &Card) -> Spot {
        Spot(wide_of(card), HIGH)
    }

    /// Where arrows down a column touch the upper or the lower side of a box.
    pub(crate) fn foot(&self, row: usize, is_lower: bool) -> Spot {
        match self.scene.cards.get(row) {
            Some(card) => self
                .corner(card, row)
                .plus(2 * LANE, if is_lower { HIGH } else { 0 }),
            None => self.title(),
        }
    }

    /// Where an arrow touches the right side of the box at one of its ends.
    pub(crate) fn port(&self, row: usize, number: usize) -> Spot {
        match self.scene.cards.get(row) {
            Some(card) => {
                let height = height_of(&self.scene.arrows, row, number);
                self.corner(card, row).plus(wide_of(card), height)
            }
            None => self.title(),
        }
    }
}

/// How far below the upper side of a box one of the arrows touches its right side, so that no two meet and none crosses another there.
fn height_of(arrows: &[Arrow], row: usize, number: usize) -> usize {
    let Some(own) = arrows.get(number) else {
        return 0;
    };
    let (mut above, mut count) = (1usize, 1usize);
    for (other, arrow) in arrows.iter().enumerate() {
        if arrow.is_bent() && (arrow.from == row || arrow.to == row) {
            count = count.saturating_add(1);
            if (order_at(arrow, row), other) < (order_at(own, row), number) {
                above = above.saturating_add(1);
            }
        }
    }
    HIGH.saturating_mul(above) / count.max(1)
}

/// The order of the ends at the side of a row's box, from above: first those of arrows that go up, the shorter ones first, and then those of arrows
/// that go down, the longer ones first.
fn order_at(arrow: &Arrow, row: usize) -> (bool, usize) {
    let (upper, lower) = arrow.span();
    let other = if upper == row { lower } else { upper };
    (upper == row, usize::MAX.saturating_sub(other))
}
