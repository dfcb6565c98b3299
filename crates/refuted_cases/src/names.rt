//! Names that are told in place of addresses.

ghost use Rattle.std.specs.Prelude.{◌≡◌, IfSome, IsNone, MatchResult, option_map};
ghost use Rattle.std.specs.Char.{is_ascii_graphic};
ghost use Rattle.std.specs.List.{list_all};
ghost use Rattle.decimal_text.specs.Reading.{front_now};
ghost use Rattle.refuted_cases.specs.Names as names;
ghost use Rattle.refuted_cases.specs.declared.names.NamesFault.TheVariants.{OutOfMemory};
ghost use Rattle.refuted_cases.specs.inner.Rows.{row_at};

use decimal_text::read_field;
use std::alloc::{AllocError, AllocFailed, Global};
use std::fmt;
use std::fmt::Display;
use text_lines::next_line;
use trace::Address;

/// A name has as many bytes at most.
const MOST_BYTES: usize = 64;

/// Names of addresses, in the order of their lines.
#[derive(Drop)]
pub struct Names {
    pub(crate) rows: Vec<(Address, Vec<u8>)>,
}

/// Why bytes name no addresses.
#[derive(Clone, Copy, PartialEq, Eq)]
pub enum NamesFault {
    /// This line, counted from 1, is the first that isn't a number, a space and a name, or that has no line feed.
    BadLine { line: u64 },
    /// Memory was refused.
    OutOfMemory,
}

impl<T: Drop> From<AllocFailed<T>> for NamesFault {
    ghost from_gives = { λ _ fault. fault ≡ OutOfMemory };

    fn from(_: AllocFailed<T>) -> NamesFault {
        NamesFault::OutOfMemory
    }
}

impl From<AllocError> for NamesFault {
    ghost from_gives = { λ _ fault. fault ≡ OutOfMemory };

    fn from(_: AllocError) -> NamesFault {
        NamesFault::OutOfMemory
    }
}

impl Names {
    /// No names.
    pub fn none(alloc: Global) -> Names {
        Names {
            rows: Vec::new(alloc),
        }
    }

    /// The names in the lines of a text: on each a number in decimal, a space and a name, of 1 to 64 bytes of printable ASCII
    /// without a space, of which the first is no digit. An address may have several lines. BadLine at the first line that isn't so.
    pub fn parse(alloc: Global, text: &[u8]) -> Result<Names, NamesFault>
        ensures { MatchResult result (names.SpellsNames text.now) (names.IsFault text.now) }
    {
        let mut rows = Vec::new(alloc);
        let mut rest = text;
        while let Some((addr, name, behind)) = next_row(rest) {
            rows.push((addr, Vec::from_slice(alloc, name)?))?;
            rest = behind;
        }
        if !rest.is_empty() {
            return Err(NamesFault::BadLine {
                line: rows.len() as u64 + 1,
            });
        }
        Ok(Names { rows })
    }

    /// The name of an address: that on its first line.
    pub fn name_of(&self, addr: Address) -> Option<Name<'_>>
        ensures { option_map (λ name. name.0.now) result ≡ names.name_at (names.rows_of self.now) addr }
    {
        for row in &self.rows {
            if row.0 == addr {
                return Some(Name(&row.1));
            }
        }
        None
    }
}

/// A name of an address.
#[derive(Clone, Copy)]
pub struct Name<'a>(&'a [u8]);

impl<'a> Display for Name<'a> {
    fn fmt<W: fmt::Write>(&self, f: &mut fmt::Formatter<W>) -> fmt::Result {
        for byte in self.0 {
            f.write_char(char::from(*byte))?;
        }
        Ok(())
    }
}

/// The address and the name on the first line, and the bytes after that line; None if it isn't such a line, or has no line feed.
fn next_row(text: &[u8]) -> Option<(Address, &[u8], &[u8])>
    ensures found { IfSome result (λ read. names.RowInFront (read.0, read.1.now) text.now read.2.now) }
    ensures none { IsNone result → names.NoRowInFront text.now }
{
    let (line, rest) = next_line(text)?;
    let (addr, name) = read_row(line)?;
    Some((addr, name, rest))
}

/// The address and the name that a line is, without its line feed.
#[tactic(auto, unfolding(text_lines::specs::Fields::field_below))]
fn read_row(line: &[u8]) -> Option<(Address, &[u8])>
    ensures { front_now result ≡ row_at line.now }
{
    let (number, name) = read_field(b' ', line)?;
    let number = number?;
    is_name(name).then_some((number, name))
}

/// Whether bytes may be a name.
#[tactic(auto, unfolding(crate::specs::Names::is_name))]
fn is_name(bytes: &[u8]) -> bool
    ensures { result ≡ names.is_name bytes.now }
{
    match bytes {
        [first, ..] => {
            !first.is_ascii_digit() && bytes.len() <= MOST_BYTES && are_graphic(bytes)
        }
        [] => false,
    }
}

/// Whether each byte is printable and no space.
fn are_graphic(bytes: &[u8]) -> bool
    ensures { result ≡ list_all is_ascii_graphic bytes.now }
{
    match bytes {
        [first, rest @ ..] => first.is_ascii_graphic() && are_graphic(rest),
        [] => true,
    }
}
