//! What a line says, by the grammar.

ghost use Rattle.std.specs.Prelude.{MatchOption};
ghost use Rattle.trace.specs.Grammar.{IsLine};
ghost use Rattle.trace.specs.declared.line.TraceLine.{TraceLine};

use super::line::{TraceLine, read_line};

/// What a line says, without its line feed; None if it isn't a line of a trace.
pub fn parse_line(line: &[u8]) -> Option<TraceLine>
    ensures { MatchOption result ((said : TraceLine) → ¬ IsLine line.now said) (IsLine line.now) }
{
    read_line(line)
}
