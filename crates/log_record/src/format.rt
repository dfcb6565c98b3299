//! The formats of logs.

ghost use Rattle.std.specs.Prelude.{◌≡◌};
ghost use Rattle.log_record.specs.Line.{has_act, limit_of};

use super::act::Act;

/// A format of logs. A log names its own in its header.
#[derive(Clone, Copy, Debug, PartialEq, Eq)]
pub enum Format {
    /// Format 1, which has no swaps.
    One,
    /// Format 2, which has swaps, and allows longer lines after the header.
    Two,
}

impl Format {
    /// The most bytes of a line after the header, without its line feed.
    pub fn line_limit(self) -> usize
        ensures { result ≡ limit_of self }
    {
        match self {
            Format::One => 80,
            Format::Two => 96,
        }
    }

    /// Whether a log of this format may have a record of this act.
    pub fn has_act(self, act: &Act) -> bool
        ensures { result ≡ has_act self act.now }
    {
        match act {
            Act::Load(_) | Act::Store => true,
            Act::Swap(..) => self == Format::Two,
        }
    }
}
