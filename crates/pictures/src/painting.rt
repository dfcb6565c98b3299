//! The picture of a scene.

ghost use Rattle.std.specs.Prelude.{IfOk, string_bytes};
ghost use Rattle.pictures.specs.Pictures.{IsPicture};

use super::layout::Layout;
use super::scene::{Arrow, Card, Scene, Sign};
use super::svg::{Spot, Svg};
use std::alloc::{AllocError, Global};

/// What stands for operations that are left out.
const LEFT_OUT: char = '\u{22ee}';

/// The picture of a scene, whose arrows come shortest first.
pub(crate) fn paint(alloc: Global, scene: &Scene<'_>) -> Result<String, AllocError>
    ensures { IfOk result (λ svg. IsPicture (string_bytes svg)) }
{
    let legend = scene.legend(alloc)?;
    let layout = Layout::new(alloc, scene)?;
    let size = layout.size(legend.len());
    let mut svg = Svg::new(alloc, size, scene.title, scene.words)?;
    layout.parts(&mut svg, &legend)?;
    svg.finish(alloc)
}

impl<'a> Layout<'a> {
    /// The parts of the picture, those in front last.
    fn parts(&self, svg: &mut Svg, legend: &[Sign]) -> Result<(), AllocError> {
        self.lines(svg)?;
        self.columns(svg)?;
        self.arrows(svg, false)?;
        self.arrows(svg, true)?;
        self.cards(svg)?;
        self.signs(svg, legend)
    }

    /// The title and the lines below it.
    fn lines(&self, svg: &mut Svg) -> Result<(), AllocError> {
        svg.text("title", self.title(), self.scene.title)?;
        for (line, text) in self.scene.caption.iter().enumerate() {
            svg.text("note", self.caption(line), text.as_str())?;
        }
        Ok(())
    }

    /// The names of the columns, and a line down each.
    fn columns(&self, svg: &mut Svg) -> Result<(), AllocError> {
        let (top, bottom) = (self.row(0), self.legend(0).1.saturating_sub(16));
        for core in 0..64usize {
            if self.widths[core] > 0 {
                svg.core_line(Spot(self.lefts[core], top), bottom)?;
                let name = format!(in self.alloc; "core {core}")?;
                let at = Spot(self.lefts[core], top.saturating_sub(12));
                svg.text("note", at, name.as_str())?;
            }
        }
        Ok(())
    }

    /// The arrows, those that are red or the others.
    fn arrows(&self, svg: &mut Svg, is_red: bool) -> Result<(), AllocError> {
        for (number, arrow) in self.scene.arrows.iter().enumerate() {
            if arrow.is_red == is_red {
                self.arrow(svg, number, arrow)?;
            }
        }
        Ok(())
    }

    /// An arrow: straight down for program order, and otherwise in its lane.
    fn arrow(&self, svg: &mut Svg, number: usize, arrow: &Arrow) -> Result<(), AllocError> {
        if !arrow.is_bent() {
            let (from, to) = (self.foot(arrow.from, true), self.foot(arrow.to, false));
            return svg.straight(arrow.kind, arrow.is_red, from, to);
        }
        let lane = self.lanes.get(number).copied().unwrap_or(0);
        let (from, to) = (self.port(arrow.from, number), self.port(arrow.to, number));
        svg.bent(arrow, from, lane, to)
    }

    /// The boxes, with what stands beside them.
    fn cards(&self, svg: &mut Svg) -> Result<(), AllocError> {
        for (row, card) in self.scene.cards.iter().enumerate() {
            let corner = self.corner(card, row);
            svg.frame(card.kind, card.is_red, corner, self.box_size(card))?;
            svg.text("act", corner.plus(10, 19), card.text.as_str())?;
            self.around(svg, card, row)?;
        }
        Ok(())
    }

    /// The note at the side of a box, and how many operations are left out above it and below it.
    fn around(&self, svg: &mut Svg, card: &Card, row: usize) -> Result<(), AllocError> {
        if !card.note.is_empty() {
            svg.text("note", self.note(row), card.note.as_str())?;
        }
        let Spot(x, y) = self.corner(card, row).plus(40, 0);
        self.left_out(svg, Spot(x, y.saturating_sub(7)), card.left_out.0)?;
        self.left_out(svg, Spot(x, y.saturating_add(43)), card.left_out.1)
    }

    /// A mark that this many operations are left out, if there are any.
    fn left_out(&self, svg: &mut Svg, at: Spot, count: usize) -> Result<(), AllocError> {
        if count == 0 {
            return Ok(());
        }
        let mark = format!(in self.alloc; "{} {count} more", LEFT_OUT)?;
        svg.text("note", at, mark.as_str())
    }

    /// The legend: what is shown, each kind once.
    fn signs(&self, svg: &mut Svg, legend: &[Sign]) -> Result<(), AllocError> {
        for (line, sign) in legend.iter().enumerate() {
            let (kind, label) = *sign;
            let (at, is_red) = (self.legend(line), kind.is_red());
            if kind.is_box() {
                svg.frame(kind, is_red, at, Spot(36, 14))
            } else {
                svg.straight(kind, is_red, at.plus(0, 7), at.plus(48, 7))
            }?;
            svg.text("note", at.plus(58, 11), label)?;
        }
        Ok(())
    }
}
