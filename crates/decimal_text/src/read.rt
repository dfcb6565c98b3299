//! What bytes begin with.

ghost use Rattle.std.specs.Prelude.{◌≡◌, ◌≢◌, ℕ, List, ◌∷◌, ◌++◌, option_map, IfSome, IsNone, IsTrue};
ghost use Rattle.decimal_text.specs.Numbers.{numeral, as_u64, StandsInFront};
ghost use Rattle.decimal_text.specs.Reading.{is_digit, number_at, after, field_at, last_number, front_now, front_map};

use super::number::{behind_text, field, last, number};

/// The longest number at the front, and the bytes after it; None if there is no number. After a 0 no further digit is part
/// of the number. A number that 64 bits don't hold is None.
#[inline(always)]
#[tactic(auto, using(crate::proofs::Meaning::number_found, crate::proofs::Meaning::number_none))]
pub fn read_number(bytes: &[u8]) -> Option<(Option<u64>, &[u8])>
    ensures found { IfSome result
        (λ read. (n : ℕ) × (read.0 ≡ as_u64 n) × StandsInFront n bytes.now read.1.now) }
    ensures none { IsNone result → (n : ℕ) (rest : List ℕ) → bytes.now ≢ numeral n ++ rest }
    // The same as a function of the bytes.
    ensures reads { front_now result ≡ front_map as_u64 (number_at bytes.now) }
{
    number(bytes)
}

/// The number at the front, and the bytes after the byte that ends it; None if there is no number with that byte after it. A
/// number that 64 bits don't hold is None.
#[inline(always)]
#[tactic(auto, using(crate::proofs::Meaning::field_found, crate::proofs::Meaning::field_none))]
pub fn read_field(end: u8, bytes: &[u8]) -> Option<(Option<u64>, &[u8])>
    requires { ¬ IsTrue (is_digit end) }
    ensures found { IfSome result
        (λ read. (n : ℕ) × (read.0 ≡ as_u64 n) × (bytes.now ≡ numeral n ++ end ∷ read.1.now)) }
    ensures none { IsNone result → (n : ℕ) (rest : List ℕ) → bytes.now ≢ numeral n ++ end ∷ rest }
    // The same as a function of the bytes.
    ensures reads { front_now result ≡ front_map as_u64 (field_at end bytes.now) }
{
    field(end, bytes)
}

/// The number that the bytes are; None if they aren't one. A number that 64 bits don't hold is None.
#[tactic(auto, using(crate::proofs::Meaning::last_found, crate::proofs::Meaning::last_none))]
pub fn read_last(bytes: &[u8]) -> Option<Option<u64>>
    ensures found { IfSome result (λ read. (n : ℕ) × (read ≡ as_u64 n) × (bytes.now ≡ numeral n)) }
    ensures none { IsNone result → (n : ℕ) → bytes.now ≢ numeral n }
    // The same as a function of the bytes.
    ensures reads { result ≡ option_map as_u64 (last_number bytes.now) }
{
    last(bytes)
}

/// The bytes after this text; None if they don't begin with it.
#[inline(always)]
#[tactic(auto, using(crate::proofs::Meaning::text_found, crate::proofs::Meaning::text_none))]
pub fn after_text<'a>(text: &[u8], bytes: &'a [u8]) -> Option<&'a [u8]>
    ensures found { IfSome result (λ rest. bytes.now ≡ text.now ++ rest.now) }
    ensures none { IsNone result → (rest : List ℕ) → bytes.now ≢ text.now ++ rest }
    // The same as a function of the bytes.
    ensures reads { option_map (λ x. x.now) result ≡ after text.now bytes.now }
{
    behind_text(text, bytes)
}
