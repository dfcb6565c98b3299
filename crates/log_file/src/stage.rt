//! Which line of a log was read last.

ghost use Rattle.std.specs.Prelude.{◌≡◌, ◌≤◌};
ghost use Rattle.log_file.specs.Standing.{limit_at};

use super::one_line::HEADER_LIMIT;
use log_record::Format;

/// The last whole line of a log that the reader took.
#[derive(Clone, Copy, Debug, PartialEq, Eq)]
pub(crate) enum Stage {
    /// None yet.
    Header,
    /// The header of a log of this format, or a record.
    Records(Format),
    /// The end line.
    Ended(Format),
}

impl Stage {
    /// The most bytes of the next line, without its line feed.
    pub(crate) fn line_limit(self) -> usize
        ensures limit { result ≡ limit_at self }
        ensures short { result ≤ 96 }
    {
        match self {
            Stage::Header => HEADER_LIMIT,
            Stage::Records(format) => format.line_limit(),
            Stage::Ended(format) => format.line_limit(),
        }
    }
}
