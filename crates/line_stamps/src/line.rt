//! Lines with their stamps.

ghost use Rattle.std.specs.Prelude.{◌≡◌, ◌<◌, ◌≤◌, MatchOption};
ghost use Rattle.line_stamps.specs.StampParts.{leased_to};

use super::rank::Rank;
use super::stamp::Stamp;
use mem_op::{Source, Word};
use std::marker::Model;

/// The stamps of a line: it was written at `wts` and is leased up to `rts`, which isn't before `wts`.
#[derive(Clone, Copy, Debug, PartialEq, Eq)]
pub struct LineStamps {
    /// When its word was written.
    pub wts: Stamp,
    /// Up to when it may be read.
    pub rts: Stamp,
    /// The rank of the store that wrote its word.
    pub wr: Rank,
}

impl Model for LineStamps {
    ghost use Rattle.std.specs.Prelude.{◌≤◌};
    ghost use Rattle.line_stamps.specs.StampParts.{StampParts};

    ghost Value = { StampParts };

    ghost view = { λ s. record { wts = s.wts; rts = s.rts; wr = s.wr } };

    ghost invariant = { λ s. s.wts ≤ s.rts };

    ghost inverse = { λ s. record { wts = s.wts; rts = s.rts; wr = s.wr } };
}

impl LineStamps {
    /// The stamps of a line that was just written or filled: its lease ends when it begins.
    pub fn at(ts: Stamp, wr: Rank) -> LineStamps
        ensures { result ≡ record { wts = ts; rts = ts; wr = wr } }
    {
        LineStamps {
            wts: ts,
            rts: ts,
            wr,
        }
    }

    /// The stamps with the lease extended to `t`, if it ends before.
    pub fn leased_to(self, t: Stamp) -> LineStamps
        ensures { result ≡ leased_to t self }
    {
        LineStamps {
            wts: self.wts,
            rts: self.rts.max(t),
            wr: self.wr,
        }
    }

    /// The stamps with the lease up to `t`; none if that is before the write.
    pub fn with_rts(self, t: Stamp) -> Option<LineStamps>
        ensures { MatchOption result
            (t < self.wts)
            (λ s. (s ≡ record { wts = self.wts; rts = t; wr = self.wr }) × (self.wts ≤ t)) }
    {
        if t < self.wts {
            return None;
        }
        Some(LineStamps {
            wts: self.wts,
            rts: t,
            wr: self.wr,
        })
    }
}

/// A word with its source and its stamps. The stamps lie flat beside the word, so that a line takes 40 bytes instead of 48.
#[derive(Clone, Copy, Debug, PartialEq, Eq)]
pub struct Line {
    value: Word,
    wts: Stamp,
    rts: Stamp,
    source: Source,
    wr: Rank,
}

impl Model for Line {
    ghost use Rattle.std.specs.Prelude.{◌≤◌};
    ghost use Rattle.line_stamps.specs.LineParts.{LineParts};

    ghost Value = { LineParts };

    ghost view = { λ l. record {
      value = l.value;
      source = l.source;
      stamps = record { wts = l.wts; rts = l.rts; wr = l.wr };
    } };

    ghost invariant = { λ l. l.wts ≤ l.rts };

    ghost inverse = { λ l. record {
      value = l.value;
      wts = l.stamps.wts;
      rts = l.stamps.rts;
      source = l.source;
      wr = l.stamps.wr;
    } };
}

impl Line {
    /// A word with its source, the store that wrote it or none, and its stamps.
    pub fn new(value: Word, source: Source, stamps: LineStamps) -> Line
        ensures { result ≡ record { value = value; source = source; stamps = stamps } }
    {
        Line {
            value,
            wts: stamps.wts,
            rts: stamps.rts,
            source,
            wr: stamps.wr,
        }
    }

    /// The word.
    pub fn value(&self) -> Word
        ensures { result ≡ self.now.value }
    {
        self.value
    }

    /// The store that wrote it, or none.
    pub fn source(&self) -> Source
        ensures { result ≡ self.now.source }
    {
        self.source
    }

    /// When it was written and up to when it may be read, which isn't before.
    pub fn stamps(&self) -> LineStamps
        ensures stamps { result ≡ self.now.stamps }
        ensures ordered { result.wts ≤ result.rts }
    {
        LineStamps {
            wts: self.wts,
            rts: self.rts,
            wr: self.wr,
        }
    }

    /// The line with these stamps.
    pub fn with_stamps(&self, stamps: LineStamps) -> Line
        ensures { result ≡ record self.now { stamps = stamps } }
    {
        Line::new(self.value, self.source, stamps)
    }
}
