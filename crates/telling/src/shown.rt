//! How numbers, bytes, texts and operations are shown.

use mem_op::OpId;
use refutation::Point;
use refuted_cases::{Hop, Named, Names};
use std::alloc::AllocError;
use std::fmt;
use std::fmt::Display;
use trace::{Access, Address, Trace};

/// As many addresses are told one by one at most.
const MOST_ADDRESSES: usize = 8;

/// What adding to a text answers.
pub(crate) type Written = Result<(), AllocError>;

/// As many characters of a text are shown at most.
const MOST_SHOWN: usize = 80;

/// A word, in hexadecimal too where it is long.
#[derive(Clone, Copy)]
pub(crate) struct Number(pub(crate) u64);

impl Display for Number {
    fn fmt<W: fmt::Write>(&self, f: &mut fmt::Formatter<W>) -> fmt::Result {
        match self.0 {
            number @ 0..=9_999_999 => write!(f, "{number}"),
            number => write!(f, "{number} (0x{number:x})"),
        }
    }
}

/// An address: its name, or its number where it has none.
#[derive(Clone, Copy)]
pub(crate) struct At<'a>(pub(crate) &'a Names, pub(crate) Address);

impl<'a> Display for At<'a> {
    fn fmt<W: fmt::Write>(&self, f: &mut fmt::Formatter<W>) -> fmt::Result {
        match self.0.name_of(self.1) {
            Some(name) => name.fmt(f),
            None => Number(self.1).fmt(f),
        }
    }
}

/// A number of things, with the word for one of them.
#[derive(Clone, Copy)]
pub(crate) struct Counted<'a>(pub(crate) u64, pub(crate) &'a str);

impl<'a> Display for Counted<'a> {
    fn fmt<W: fmt::Write>(&self, f: &mut fmt::Formatter<W>) -> fmt::Result {
        let ending = if self.0 == 1 { "" } else { "s" };
        write!(f, "{} {}{ending}", self.0, self.1)
    }
}

/// What stands before a part of a list of so many, whose last part comes after a word.
pub(crate) fn between(place: usize, count: usize, word: &'static str) -> &'static str {
    match place {
        0 => "",
        _ if place.saturating_add(1) == count => word,
        _ => ", ",
    }
}

/// Addresses, or how many there are.
#[derive(Clone, Copy)]
pub(crate) struct Addresses<'a>(pub(crate) &'a Names, pub(crate) &'a [Address]);

impl<'a> Display for Addresses<'a> {
    fn fmt<W: fmt::Write>(&self, f: &mut fmt::Formatter<W>) -> fmt::Result {
        let count = self.1.len();
        if count > MOST_ADDRESSES {
            return write!(f, "{count} addresses");
        }
        f.write_str(if count == 1 { "address " } else { "addresses " })?;
        for (place, addr) in self.1.iter().enumerate() {
            let before = between(place, count, " and ");
            write!(f, "{before}{}", At(self.0, *addr))?;
        }
        Ok(())
    }
}

/// Bytes of a file, with escapes for what isn't printable ASCII, and two dots in place of what is too long.
#[derive(Clone, Copy)]
pub(crate) struct Bytes<'a>(pub(crate) &'a [u8]);

impl<'a> Display for Bytes<'a> {
    fn fmt<W: fmt::Write>(&self, f: &mut fmt::Formatter<W>) -> fmt::Result {
        match self.0.get(..MOST_SHOWN) {
            Some(shown) if self.0.len() > MOST_SHOWN => write!(f, "{}..", shown.escape_ascii()),
            _ => write!(f, "{}", self.0.escape_ascii()),
        }
    }
}

/// A text on one line: its control characters by their escapes, and two dots in place of what is too long.
#[derive(Clone, Copy)]
pub(crate) struct Plain<'a>(pub(crate) &'a str);

impl<'a> Display for Plain<'a> {
    fn fmt<W: fmt::Write>(&self, f: &mut fmt::Formatter<W>) -> fmt::Result {
        if let Some((end, _)) = self.0.char_indices().nth(MOST_SHOWN)
            && let Some(shown) = self.0.get(..end)
        {
            return write!(f, "{}..", shown.escape_debug());
        }
        write!(f, "{}", self.0.escape_debug())
    }
}

/// What a write stored at an address that was named before.
#[derive(Clone, Copy)]
pub(crate) struct Stored(pub(crate) Option<Access>);

impl Display for Stored {
    fn fmt<W: fmt::Write>(&self, f: &mut fmt::Formatter<W>) -> fmt::Result {
        let Some(access) = &self.0 else {
            return f.write_str("did nothing");
        };
        let swap = if access.read().is_some() {
            " in a swap"
        } else {
            ""
        };
        write!(f, "stored {} there{swap}", Number(access.word_left()))
    }
}

/// An operation and what it did.
#[derive(Clone, Copy)]
pub(crate) struct Deed<'a>(pub(crate) &'a Trace, pub(crate) &'a Names, pub(crate) OpId);

impl<'a> Display for Deed<'a> {
    fn fmt<W: fmt::Write>(&self, f: &mut fmt::Formatter<W>) -> fmt::Result {
        let point = Point::At(self.2);
        let Some(access) = self.0.operation(&self.2) else {
            return write!(f, "{point} did nothing");
        };
        let addr = access.addr();
        let (left, to) = (Number(access.word_left()), At(self.1, addr));
        match access.read() {
            None => write!(f, "{point} stored {left} to address {to}"),
            Some(read) if access.is_store_to(addr) => {
                let read = Number(read);
                write!(
                    f,
                    "{point} swapped {left} into address {to} and loaded {read}"
                )
            }
            Some(read) => write!(f, "{point} loaded {} from address {to}", Number(read)),
        }
    }
}

/// The points of a path with a word between.
#[derive(Clone, Copy)]
pub(crate) struct Joined<'a>(pub(crate) &'a [Hop], pub(crate) &'a str);

impl<'a> Display for Joined<'a> {
    fn fmt<W: fmt::Write>(&self, f: &mut fmt::Formatter<W>) -> fmt::Result {
        if let Some(first) = self.0.first() {
            Named(first.from).fmt(f)?;
        }
        for hop in self.0 {
            write!(f, "{}{}", self.1, Named(hop.to))?;
        }
        Ok(())
    }
}
