//! Numbers and texts at the front of bytes, as functions of the bytes. They are inlined into what reads a line of a log,
//! where a call for each number would take as long as its digits.

ghost use Rattle.std.specs.Prelude.{◌≡◌, ℕ, ◌+◌, ◌-◌, ◌*◌, ◌<◌, [], ◌∷◌, option_map, IsTrue};
ghost use Rattle.decimal_text.specs.Numbers.{as_u64};
ghost use Rattle.decimal_text.specs.Reading.{is_digit, onward, number_at, after, field_at, last_number, front_now, front_map};

/// The number with one more digit, if 64 bits hold it.
fn with_digit(value: Option<u64>, digit: u8) -> Option<u64>
    requires { IsTrue (is_digit digit) }
    ensures { (n : ℕ) → value ≡ as_u64 n → result ≡ as_u64 (n * 10 + (digit - 48)) }
{
    value?.checked_mul(10)?.checked_add(u64::from(digit - b'0'))
}

/// The number, of any size, that goes on from `start` with the digits at the front, and the bytes after them.
#[cold]
fn long_number(start: u64, bytes: &[u8]) -> (Option<u64>, &[u8])
    ensures value { result.0 ≡ as_u64 (onward start bytes.now).0 }
    ensures rest { result.1.now ≡ (onward start bytes.now).1 }
{
    let mut value = Some(start);
    let mut rest = bytes;
    while let [digit @ b'0'..=b'9', tail @ ..] = rest {
        value = with_digit(value, *digit);
        rest = tail;
    }
    (value, rest)
}

/// The number that goes on from `start` with the digits at the front, and the bytes after them. Below 10^18 another digit
/// fits 64 bits; from there on each is checked.
#[inline(always)]
fn digits(start: u64, bytes: &[u8]) -> (Option<u64>, &[u8])
    requires { start < 10 }
    ensures value { result.0 ≡ as_u64 (onward start bytes.now).0 }
    ensures rest { result.1.now ≡ (onward start bytes.now).1 }
{
    let mut value = start;
    let mut rest = bytes;
    while let [digit @ b'0'..=b'9', tail @ ..] = rest {
        if value >= 1_000_000_000_000_000_000 {
            return long_number(value, rest);
        }
        value = value * 10 + u64::from(*digit - b'0');
        rest = tail;
    }
    (Some(value), rest)
}

/// The number at the front, and the bytes after it. After a 0 no further digit is part of the number.
#[inline(always)]
#[tactic(auto, unfolding(crate::specs::Reading::number_at))]
pub(crate) fn number(bytes: &[u8]) -> Option<(Option<u64>, &[u8])>
    ensures { front_now result ≡ front_map as_u64 (number_at bytes.now) }
{
    match bytes {
        [b'0', rest @ ..] => Some((Some(0), rest)),
        [first @ b'1'..=b'9', rest @ ..] => Some(digits(u64::from(*first - b'0'), rest)),
        _ => None,
    }
}

/// The bytes after this text.
#[inline(always)]
#[tactic(auto, using(crate::proofs::Numbers::after_is))]
pub(crate) fn behind_text<'a>(text: &[u8], bytes: &'a [u8]) -> Option<&'a [u8]>
    ensures { option_map (λ x. x.now) result ≡ after text.now bytes.now }
{
    bytes.strip_prefix(text)
}

/// The bytes after this byte.
#[inline(always)]
#[tactic(auto, unfolding(crate::specs::Reading::after))]
fn behind_byte(byte: u8, bytes: &[u8]) -> Option<&[u8]>
    ensures { option_map (λ x. x.now) result ≡ after (byte ∷ []) bytes.now }
{
    match bytes {
        [first, rest @ ..] if *first == byte => Some(rest),
        _ => None,
    }
}

/// A number, and the bytes after the byte that ends it.
#[inline(always)]
#[tactic(auto, unfolding(crate::specs::Reading::field_at))]
pub(crate) fn field(end: u8, bytes: &[u8]) -> Option<(Option<u64>, &[u8])>
    ensures { front_now result ≡ front_map as_u64 (field_at end bytes.now) }
{
    let (value, rest) = number(bytes)?;
    let rest = behind_byte(end, rest)?;
    Some((value, rest))
}

/// A number, and nothing after it.
#[tactic(auto, unfolding(crate::specs::Reading::last_number))]
pub(crate) fn last(bytes: &[u8]) -> Option<Option<u64>>
    ensures { result ≡ option_map as_u64 (last_number bytes.now) }
{
    let (value, rest) = number(bytes)?;
    if rest.is_empty() { Some(value) } else { None }
}
