//! A line of a private cache.

ghost use Rattle.std.specs.Prelude.{◌≡◌, Some, None};
ghost use Rattle.std.specs.Option.{option_copied};
ghost use Rattle.private_cache.specs.Table.{line_of, is_shared, copy_of, with_rts, read_at, filled, renewed};

use line_stamps::{Line, Reply, Stamp};

/// A line of a private cache, and what its core may do with it.
#[derive(Clone, Copy, Debug, PartialEq, Eq)]
pub enum Held {
    /// The core may read the line as long as its lease lasts.
    Shared(Line),
    /// The core owns the line; `modified` says whether the core has written it since it got it.
    Exclusive { modified: bool, line: Line },
}

impl Held {
    /// The line itself.
    pub fn line(&self) -> &Line
        ensures { result.now ≡ line_of self.now }
    {
        match self {
            Held::Shared(line) => line,
            Held::Exclusive { line, .. } => line,
        }
    }

    /// Whether the core may only read it.
    pub(crate) fn is_shared(&self) -> bool
        ensures { result ≡ is_shared self.now }
    {
        matches!(self, Held::Shared(_))
    }

    /// The line after a load of stamp `t`: an owner extends the lease to `t`.
    pub(crate) fn read_at(&self, t: Stamp) -> Held
        ensures { result ≡ read_at self.now t }
    {
        match self {
            Held::Shared(_) => *self,
            Held::Exclusive { modified, line } => Held::Exclusive {
                modified: *modified,
                line: line.with_stamps(line.stamps().leased_to(t)),
            },
        }
    }
}

/// The `wts` of the copy, which a request carries; none without a copy.
pub(crate) fn copy_of(held: Option<&Held>) -> Option<Stamp>
    ensures { result ≡ copy_of (option_copied held.entry) }
{
    match held {
        None => None,
        Some(held) => Some(held.line().stamps().wts),
    }
}

// The copy with its lease up to `rts`; none if it was written after that.
fn renewed(line: &Line, rts: Stamp) -> Option<Line>
    ensures { result ≡ renewed line.now rts }
{
    Some(line.with_stamps(line.stamps().with_rts(rts)?))
}

/// The line after a reply; none if the reply doesn't fit it.
pub(crate) fn filled(held: Option<&Held>, reply: &Reply) -> Option<Held>
    ensures { result ≡ filled (option_copied held.entry) reply.now }
{
    let copy = match held {
        None => None,
        Some(Held::Shared(line)) => Some(line),
        Some(Held::Exclusive { .. }) => return None,
    };
    match reply {
        Reply::ShRep(line) => Some(Held::Shared(*line)),
        Reply::ExRep(line) => Some(Held::Exclusive {
            modified: false,
            line: *line,
        }),
        Reply::RenewRep(rts) => Some(Held::Shared(renewed(copy?, *rts)?)),
        Reply::UpgradeRep(rts) => Some(Held::Exclusive {
            modified: false,
            line: renewed(copy?, *rts)?,
        }),
        Reply::Taken | Reply::Busy(_) => None,
    }
}
