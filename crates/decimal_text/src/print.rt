//! Prints numbers.

ghost use Rattle.std.specs.Prelude.{◌≡◌, IfOk, string_bytes};
ghost use Rattle.decimal_text.specs.Numbers.{numeral};

use std::alloc::{AllocError, Global};

/// The text of a number. Err if memory was refused.
#[tactic(auto, using(crate::proofs::Printing::numeral_decimal))]
pub fn print_number(alloc: Global, number: u64) -> Result<String, AllocError>
    ensures { IfOk result (λ text. string_bytes text ≡ numeral number) }
{
    number.to_string(alloc)
}
