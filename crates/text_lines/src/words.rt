//! Words, each with a space before it.

ghost use Rattle.std.specs.Prelude.{◌≡◌};
ghost use Rattle.decimal_text.specs.Reading.{front_now};
ghost use Rattle.text_lines.specs.Words.{ends_word, spaced_number};

use decimal_text::{after_text, read_number};

/// Whether a word before these bytes ends where they begin.
pub fn ends_word(bytes: &[u8]) -> bool
    ensures { result ≡ ends_word bytes.now }
{
    matches!(bytes, [] | [b' ', ..])
}

/// A space and then a number of 64 bits, and the bytes after them; None if they don't come first, or the word goes on.
#[tactic(auto, unfolding(crate::specs::Words::spaced_number))]
pub fn read_spaced(bytes: &[u8]) -> Option<(u64, &[u8])>
    ensures { front_now result ≡ spaced_number bytes.now }
{
    let (number, rest) = read_number(after_text(b" ", bytes)?)?;
    let number = number?;
    ends_word(rest).then_some((number, rest))
}
