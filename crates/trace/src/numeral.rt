//! Numbers in decimal, or in hexadecimal after `0x`.

ghost use Rattle.std.specs.Prelude.{◌≡◌, ◌<◌, ◌≤◌, IsTrue};
ghost use Rattle.decimal_text.specs.Reading.{front_now};
ghost use Rattle.trace.specs.Grammar.{digit_value};
ghost use Rattle.trace.specs.inner.Reading.{digits_at, fitting, goes_on, number_at, onward};

use super::line::skip_blanks;
use decimal_text::after_text;

/// What a byte is as a digit: 0..9, or 10..15 for a letter; 16 if it is none.
#[tactic(auto, unfolding(crate::specs::Grammar::digit_value))]
fn digit_value(byte: u8) -> u64
    ensures value { result ≡ digit_value byte }
    ensures small { result ≤ 16 }
{
    match byte {
        b'0'..=b'9' => u64::from(byte - b'0'),
        b'A'..=b'F' => u64::from(byte - b'A' + 10),
        b'a'..=b'f' => u64::from(byte - b'a' + 10),
        _ => 16,
    }
}

/// Whether a digit or a letter comes next.
fn goes_on(bytes: &[u8]) -> bool
    ensures { result ≡ goes_on bytes.now }
{
    matches!(bytes, [b'0'..=b'9' | b'A'..=b'Z' | b'a'..=b'z', ..])
}

/// The number that the digits of a base at the front make, and the bytes after them.
fn value(base: u64, bytes: &[u8]) -> Option<(u64, &[u8])>
    requires low { 1 ≤ base }
    requires high { base ≤ 16 }
    ensures { front_now result ≡ fitting (onward base 0 bytes.now) }
{
    let mut value: u64 = 0;
    let mut rest = bytes;
    while let [first, tail @ ..] = rest {
        let digit = digit_value(*first);
        if digit >= base {
            break;
        }
        value = value.checked_mul(base)?.checked_add(digit)?;
        rest = tail;
    }
    if goes_on(rest) {
        None
    } else {
        Some((value, rest))
    }
}

/// Digits of a base, of which there is one at least.
#[tactic(auto, unfolding(crate::specs::inner::Reading::digits_at))]
fn digits(base: u64, bytes: &[u8]) -> Option<(u64, &[u8])>
    requires low { 1 ≤ base }
    requires high { base ≤ 16 }
    ensures { front_now result ≡ digits_at base bytes.now }
{
    let [first, ..] = bytes else {
        return None;
    };
    if digit_value(*first) >= base {
        return None;
    }
    value(base, bytes)
}

/// The number at the front, before which blanks may stand, and the bytes after it; None if there is none, or 64 bits
/// don't hold it, or a letter or a digit goes on after it.
#[tactic(auto, unfolding(crate::specs::inner::Reading::number_at))]
pub(crate) fn number(bytes: &[u8]) -> Option<(u64, &[u8])>
    ensures { front_now result ≡ number_at bytes.now }
{
    let bytes = skip_blanks(bytes);
    match after_text(b"0x", bytes) {
        Some(hexadecimal) => digits(16, hexadecimal),
        None => digits(10, bytes),
    }
}
