//! Prints the text of a refutation.

ghost use Rattle.std.specs.Prelude.{◌≡◌, IfOk, Some, flat_map, string_bytes};
ghost use Rattle.decimal_text.specs.Numbers.{numeral};
ghost use Rattle.refutation.specs.Grammar.{point_text, range_text, refutation_text, state_text, step_text};
ghost use Rattle.text_lines.specs.Words.{spaced};

use super::reading::is_same;
use super::state::{Numbers, State, StateSet};
use super::step::{Path, Point, Range, Ranges, Refutation, Step};
use std::alloc::{AllocError, Global};
use std::fmt;

/// A number of a text.
#[derive(Clone, Copy)]
struct Number(u64);

impl fmt::Display for Number {
    ghost output = { λ number. Some (numeral number.0) };

    #[tactic(auto, using(decimal_text::proofs::Printing::numeral_decimal))]
    fn fmt<W: fmt::Write>(&self, f: &mut fmt::Formatter<W>) -> fmt::Result {
        let number = self.0;
        write!(f, "{number}")
    }
}

impl fmt::Display for Point {
    ghost output = { λ p. Some (point_text p) };

    #[tactic(auto, unfolding(crate::specs::Grammar::id_text))]
    fn fmt<W: fmt::Write>(&self, f: &mut fmt::Formatter<W>) -> fmt::Result {
        match self {
            Point::Init => f.write_str("init"),
            Point::At(id) => write!(f, "{}.{}", Number(id.core.get()), Number(id.index.get())),
        }
    }
}

impl fmt::Display for Range {
    ghost output = { λ r. Some (range_text r) };

    #[tactic(auto, unfolding(crate::specs::Grammar::range_text))]
    fn fmt<W: fmt::Write>(&self, f: &mut fmt::Formatter<W>) -> fmt::Result {
        let first = self.first;
        let last = self.last;
        if is_same(&first, &last) {
            write!(f, "{first}")
        } else {
            write!(f, "{first}..{last}")
        }
    }
}

impl fmt::Display for Ranges {
    ghost output = { λ ranges. Some (spaced range_text ranges) };

    fn fmt<W: fmt::Write>(&self, f: &mut fmt::Formatter<W>) -> fmt::Result {
        for range in self.as_slice() {
            write!(f, " {range}")?;
        }
        Ok(())
    }
}

impl fmt::Display for Path {
    ghost output = { λ path. Some (spaced numeral path) };

    fn fmt<W: fmt::Write>(&self, f: &mut fmt::Formatter<W>) -> fmt::Result {
        for number in self.as_slice() {
            write!(f, " {}", Number(*number as u64))?;
        }
        Ok(())
    }
}

impl fmt::Display for Numbers {
    ghost output = { λ numbers. Some (spaced numeral numbers) };

    fn fmt<W: fmt::Write>(&self, f: &mut fmt::Formatter<W>) -> fmt::Result {
        for number in self.as_slice() {
            write!(f, " {}", Number(*number))?;
        }
        Ok(())
    }
}

impl fmt::Display for State {
    ghost output = { λ state. Some (state_text state) };

    #[tactic(auto, unfolding(crate::specs::Grammar::state_text))]
    fn fmt<W: fmt::Write>(&self, f: &mut fmt::Formatter<W>) -> fmt::Result {
        match self {
            State::Open { next, words } => write!(f, " |{next} :{words}"),
            State::Dead {
                next,
                words,
                limits,
            } => write!(f, " !{next} :{words} :{limits}"),
        }
    }
}

impl fmt::Display for StateSet {
    ghost output = { λ set. Some (flat_map state_text set) };

    fn fmt<W: fmt::Write>(&self, f: &mut fmt::Formatter<W>) -> fmt::Result {
        for state in self.as_slice() {
            write!(f, "{state}")?;
        }
        Ok(())
    }
}

impl fmt::Display for Step {
    ghost output = { λ step. Some (step_text step) };

    #[tactic(auto, unfolding(crate::specs::Grammar::fields_text, crate::specs::Grammar::reason_text))]
    fn fmt<W: fmt::Write>(&self, f: &mut fmt::Formatter<W>) -> fmt::Result {
        match self {
            Step::Read { read, ranges } => write!(f, "read {} :{ranges}", Point::At(*read)),
            Step::FromRead {
                source,
                write,
                path,
            } => {
                let source = Number(*source as u64);
                let write = Point::At(*write);
                write!(f, "from-read {source} {write} :{path}")
            }
            Step::WriteOrder {
                source,
                write,
                path,
            } => {
                let source = Number(*source as u64);
                let write = Point::At(*write);
                write!(f, "write-order {source} {write} :{path}")
            }
            Step::Cycle { path } => write!(f, "cycle :{path}"),
            Step::States { addresses, set } => write!(f, "states{addresses}{set}"),
        }
    }
}

impl Refutation {
    /// Its text. Err if memory was refused.
    pub fn print(&self, alloc: Global) -> Result<String, AllocError>
        ensures { IfOk result (λ text. string_bytes text ≡ refutation_text self.now) }
    {
        let mut text = String::new(alloc);
        text.push_str("tardis-refutation 1\n")?;
        for step in self.as_slice() {
            writeln!(text, "{step}")?;
        }
        let count = self.as_slice().len() as u64;
        writeln!(text, "end {}", Number(count))?;
        Ok(text)
    }
}
