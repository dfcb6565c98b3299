//! The last line of a log.

ghost use Rattle.std.specs.Prelude.{◌≡◌, ℕ, IfOk, IfSome, IsNone, option_map, string_bytes};
ghost use Rattle.log_record.specs.Line.{end_text, IsEndShape};
ghost use Rattle.decimal_text.specs.Numbers.{as_u64};
ghost use Rattle.log_record.specs.inner.Kept.{end_parts};
ghost use Rattle.log_record.specs.inner.Reading.{end_of};

use decimal_text::{after_text, read_last};
use std::alloc::{AllocError, Global};

/// The number of an end line.
#[derive(Clone, Copy, Debug, PartialEq, Eq)]
pub struct End {
    /// How many records the line says the log has; None if the number doesn't fit in 64 bits.
    pub count: Option<u64>,
}

#[tactic(auto, unfolding(crate::specs::inner::Reading::end_of))]
fn parts(line: &[u8]) -> Option<End>
    ensures { result ≡ option_map end_parts (end_of line.now) }
{
    let count = read_last(after_text(b"end ", line)?)?;
    Some(End { count })
}

/// Reads an end line, without its line feed; None if it isn't one.
#[tactic(auto, using(crate::proofs::Ends::end_found, crate::proofs::Ends::end_none))]
pub fn read_end(line: &[u8]) -> Option<End>
    ensures found { IfSome result
        (λ e. (count : ℕ) × (line.now ≡ end_text count) × (e.count ≡ as_u64 count)) }
    ensures none { IsNone result → ¬ IsEndShape line.now }
{
    parts(line)
}

/// The end line of a log of `count` records, without its line feed.
#[tactic(auto, using(decimal_text::proofs::Printing::numeral_decimal), unfolding(crate::specs::Line::end_text))]
pub fn print_end(alloc: Global, count: u64) -> Result<String, AllocError>
    ensures { IfOk result (λ line. string_bytes line ≡ end_text count) }
{
    format!(in alloc; "end {count}")
}
