//! How points are named.

use refutation::Point;
use std::fmt;
use std::fmt::Display;

/// A point in words: an operation by its id, or the initial 0.
#[derive(Clone, Copy)]
pub struct Named(pub Point);

impl Display for Named {
    fn fmt<W: fmt::Write>(&self, f: &mut fmt::Formatter<W>) -> fmt::Result {
        match &self.0 {
            Point::Init => f.write_str("the initial 0"),
            Point::At(_) => self.0.fmt(f),
        }
    }
}

/// What may have given a read its word: what lies from a point to another in program order.
#[derive(Clone, Copy)]
pub struct Givers(pub Point, pub Point);

impl Display for Givers {
    fn fmt<W: fmt::Write>(&self, f: &mut fmt::Formatter<W>) -> fmt::Result {
        let (first, last) = (self.0, self.1);
        match first {
            _ if first == last => Named(first).fmt(f),
            Point::Init => write!(f, "the initial 0 or one up to {last}"),
            Point::At(_) => write!(f, "one of {first} to {last}"),
        }
    }
}
