//! A writer of SVG.

ghost use Rattle.std.specs.Prelude.{IfOk, string_bytes};
ghost use Rattle.pictures.specs.Pictures.{IsPicture};

use super::scene::{Arrow, Kind};
use std::alloc::{AllocError, Global};
use std::fmt;

/// The colours on white, and on dark if the reader asks for it.
const STYLE: &str = "<style>\
text{font:13px monospace;fill:#1b1f24}\
.title{font:bold 14px sans-serif}\
.note{font:12px sans-serif;fill:#57606a}\
.ground{fill:#ffffff}\
.box{stroke:#6b7a8c}\
.load{fill:#e4f2e4}\
.store{fill:#f6ecd8}\
.swap{fill:#e7e3f6}\
.due{fill:none;stroke-dasharray:5 4}\
.core{stroke:#d8dee4}\
.arrow{fill:none;stroke-width:1.6}\
.program{stroke:#7d8590}\
.source{stroke:#1a7f37;stroke-dasharray:9 3}\
.fromread{stroke:#0969da;stroke-dasharray:2 3}\
.writes{stroke:#8250df;stroke-dasharray:9 3 2 3}\
.wanted{stroke-dasharray:5 4}\
.red{stroke:#d1242f;stroke-width:2.4}\
.tip-program{fill:#7d8590}.tip-source{fill:#1a7f37}.tip-fromread{fill:#0969da}\
.tip-writes{fill:#8250df}.tip-red{fill:#d1242f}\
@media (prefers-color-scheme:dark){\
text{fill:#e6edf3}\
.note{fill:#9198a1}\
.ground{fill:#0d1117}\
.box{stroke:#8b949e}\
.load{fill:#16311f}\
.store{fill:#3a2e14}\
.swap{fill:#2c2550}\
.due{fill:none}\
.core{stroke:#2d333b}\
.source{stroke:#3fb950}\
.fromread{stroke:#58a6ff}\
.writes{stroke:#bc8cff}\
.red{stroke:#ff6a63}\
.tip-source{fill:#3fb950}.tip-fromread{fill:#58a6ff}\
.tip-writes{fill:#bc8cff}.tip-red{fill:#ff6a63}\
}\
</style>\n";

/// The heads of arrows.
const TIPS: [&str; 5] = ["program", "source", "fromread", "writes", "red"];

/// How round the corners of arrows are.
const CORNER: usize = 8;

/// A place of a picture, or a size: how far to the right, and how far down.
#[derive(Clone, Copy)]
pub(crate) struct Spot(pub(crate) usize, pub(crate) usize);

impl Spot {
    /// The spot this far to the right and below.
    pub(crate) fn plus(self, right: usize, below: usize) -> Spot {
        Spot(self.0.saturating_add(right), self.1.saturating_add(below))
    }
}

impl fmt::Display for Spot {
    fn fmt<W: fmt::Write>(&self, f: &mut fmt::Formatter<W>) -> fmt::Result {
        write!(f, "{},{}", self.0, self.1)
    }
}

/// A text with every character escaped that would be read as markup.
#[derive(Clone, Copy)]
struct Escaped<'a>(&'a str);

impl<'a> fmt::Display for Escaped<'a> {
    fn fmt<W: fmt::Write>(&self, f: &mut fmt::Formatter<W>) -> fmt::Result {
        for letter in self.0.chars() {
            match letter {
                '&' => f.write_str("&amp;"),
                '<' => f.write_str("&lt;"),
                '>' => f.write_str("&gt;"),
                '"' => f.write_str("&quot;"),
                other => f.write_char(other),
            }?;
        }
        Ok(())
    }
}

/// How an arrow is drawn: by the style of its kind, or red.
#[derive(Clone, Copy)]
struct Stroke(Kind, bool);

impl fmt::Display for Stroke {
    fn fmt<W: fmt::Write>(&self, f: &mut fmt::Formatter<W>) -> fmt::Result {
        let class = self.0.class();
        let (red, tip) = if self.1 { (" red", "red") } else { ("", class) };
        write!(f, "class=\"arrow {class}{red}\" marker-end=\"url(#{tip})\"")
    }
}

/// A picture that is being written.
#[derive(Drop)]
pub(crate) struct Svg {
    text: String,
}

impl Svg {
    /// A picture of this size, with its name and what it tells in words.
    pub(crate) fn new(
        alloc: Global,
        size: Spot,
        title: &str,
        words: &str,
    ) -> Result<Svg, AllocError> {
        let mut svg = Svg {
            text: String::new(alloc),
        };
        svg.begin(size, title, words)?;
        svg.tips()?;
        Ok(svg)
    }

    /// Adds what comes before the parts.
    fn begin(&mut self, size: Spot, title: &str, words: &str) -> Result<(), AllocError> {
        let Spot(x, y) = size;
        write!(
            self.text,
            "xmlns=\"http://www.w3.org/2000/svg\" role=\"img\" viewBox=\"0 0 {x} {y}\" width=\"{x}\" height=\"{y}\">\n<title>{}</title>\n<desc>{}</desc>\n{}<rect class=\"ground\" width=\"{x}\" height=\"{y}\"/>\n",
            Escaped(title),
            Escaped(words),
            STYLE
        )
    }

    /// Adds the heads of arrows.
    fn tips(&mut self) -> Result<(), AllocError> {
        self.text.push_str("<defs>\n")?;
        for tip in &TIPS {
            write!(
                self.text,
                "<marker id=\"{tip}\" markerWidth=\"10\" markerHeight=\"10\" refX=\"8\" refY=\"4\" orient=\"auto\" markerUnits=\"userSpaceOnUse\"><path class=\"tip-{tip}\" d=\"M0,0 L9,4 L0,8 z\"/></marker>\n"
            )?;
        }
        self.text.push_str("</defs>\n")
    }

    /// A text, which begins at a spot.
    pub(crate) fn text(&mut self, class: &str, at: Spot, text: &str) -> Result<(), AllocError> {
        let (Spot(x, y), text) = (at, Escaped(text));
        write!(
            self.text,
            "<text class=\"{class}\" x=\"{x}\" y=\"{y}\">{text}</text>\n"
        )
    }

    /// A box of a kind, red or not, whose upper left corner is at a spot.
    pub(crate) fn frame(
        &mut self,
        kind: Kind,
        is_red: bool,
        at: Spot,
        size: Spot,
    ) -> Result<(), AllocError> {
        let (class, red) = (kind.class(), if is_red { " red" } else { "" });
        let (Spot(x, y), Spot(width, height)) = (at, size);
        write!(
            self.text,
            "<rect class=\"box {class}{red}\" x=\"{x}\" y=\"{y}\" width=\"{width}\" height=\"{height}\" rx=\"5\"/>\n"
        )
    }

    /// The line of a core, down from a spot.
    pub(crate) fn core_line(&mut self, at: Spot, bottom: usize) -> Result<(), AllocError> {
        write!(self.text, "<path class=\"core\" d=\"M{at} V{bottom}\"/>\n")
    }

    /// A straight arrow.
    pub(crate) fn straight(
        &mut self,
        kind: Kind,
        is_red: bool,
        from: Spot,
        to: Spot,
    ) -> Result<(), AllocError> {
        let stroke = Stroke(kind, is_red);
        write!(self.text, "<path {stroke} d=\"M{from} L{to}\"/>\n")
    }

    /// An arrow that goes right to a lane, along it, and back to the left.
    pub(crate) fn bent(
        &mut self,
        arrow: &Arrow,
        from: Spot,
        lane: usize,
        to: Spot,
    ) -> Result<(), AllocError> {
        let (stroke, before) = (
            Stroke(arrow.kind, arrow.is_red),
            lane.saturating_sub(CORNER),
        );
        let (out, back) = (Spot(lane, from.1), Spot(lane, to.1));
        let (first, last) = (towards(from.1, to.1), towards(to.1, from.1));
        let (first, end) = (Spot(lane, first), Spot(before, to.1));
        write!(
            self.text,
            "<path {stroke} d=\"M{from} H{before} Q{out} {first} V{last} "
        )?;
        write!(self.text, "Q{back} {end} H{}\"/>\n", to.0)
    }

    /// The text of the picture, with the beginning and the end that every picture has.
    pub(crate) fn finish(self, alloc: Global) -> Result<String, AllocError>
        ensures { IfOk result (λ svg. IsPicture (string_bytes svg)) }
    {
        let mut picture = String::new(alloc);
        picture.push_str("<svg ")?;
        picture.push_str(self.text.as_str())?;
        picture.push_str("</svg>\n")?;
        Ok(picture)
    }
}

/// A number that is a little way from one number towards another.
fn towards(from: usize, to: usize) -> usize {
    if from < to {
        from.saturating_add(CORNER)
    } else {
        from.saturating_sub(CORNER)
    }
}
