//! The first line of a text.

ghost use Rattle.std.specs.Prelude.{◌≡◌, ◌∷◌, ◌++◌, IfSome, IsNone};
ghost use Rattle.text_lines.specs.Lines.{IsOneLine};

use memchr::memchr;

/// The first line, without its line feed, and the bytes after it; None if there is no line feed.
pub fn next_line(text: &[u8]) -> Option<(&[u8], &[u8])>
    ensures found { IfSome result (λ split.
        IsOneLine split.0.now × (text.now ≡ split.0.now ++ 10 ∷ split.1.now)) }
    ensures none { IsNone result → IsOneLine text.now }
{
    let at = memchr(b'\n', text)?;
    Some((&text[..at], &text[at + 1..]))
}
