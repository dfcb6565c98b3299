//! The first line of a log.

ghost use Rattle.std.specs.Prelude.{◌≡◌, ℕ, IfOk, IfSome, IsNone, option_map, string_bytes};
ghost use Rattle.log_record.specs.Line.{format_number, header_text, IsSomeHeader};
ghost use Rattle.decimal_text.specs.Numbers.{as_u64};
ghost use Rattle.decimal_text.specs.Reading.{front_now};
ghost use Rattle.log_record.specs.inner.Kept.{header_parts};
ghost use Rattle.log_record.specs.inner.Reading.{first_words, header_numbers, header_of};

use super::format::Format;
use decimal_text::{after_text, read_last, read_number};
use mem_op::CoreId;
use std::alloc::{AllocError, Global};

/// The format of a header, and its numbers. A number that doesn't fit in 64 bits is None.
#[derive(Clone, Copy, Debug, PartialEq, Eq)]
pub struct Header {
    /// The format of the log.
    pub format: Format,
    /// The core whose log it is.
    pub core: Option<u64>,
    /// The number of cores.
    pub cores: Option<u64>,
}

/// The format that a header's first words name, and the bytes after them.
#[tactic(auto, unfolding(crate::specs::inner::Reading::first_words))]
fn format_of(line: &[u8]) -> Option<(Format, &[u8])>
    ensures { front_now result ≡ first_words line.now }
{
    if let Some(rest) = after_text(b"tardis-log 1 core ", line) {
        return Some((Format::One, rest));
    }
    let rest = after_text(b"tardis-log 2 core ", line)?;
    Some((Format::Two, rest))
}

#[tactic(auto, unfolding(crate::specs::inner::Reading::header_numbers))]
fn numbers(format: Format, bytes: &[u8]) -> Option<Header>
    ensures { result ≡ option_map (λ x. header_parts (format, x)) (header_numbers bytes.now) }
{
    let (core, rest) = read_number(bytes)?;
    let rest = after_text(b" of ", rest)?;
    let cores = read_last(rest)?;
    Some(Header {
        format,
        core,
        cores,
    })
}

#[tactic(auto, unfolding(crate::specs::inner::Reading::header_of))]
fn parts(line: &[u8]) -> Option<Header>
    ensures { result ≡ option_map header_parts (header_of line.now) }
{
    let (format, rest) = format_of(line)?;
    numbers(format, rest)
}

/// Reads a header, without its line feed; None if it isn't a header of either format.
#[tactic(auto, using(crate::proofs::Ends::header_found, crate::proofs::Ends::header_none))]
pub fn read_header(line: &[u8]) -> Option<Header>
    ensures found { IfSome result (λ h. (core : ℕ) × ((cores : ℕ) ×
        (line.now ≡ header_text (format_number h.format) core cores)
        × (h.core ≡ as_u64 core) × (h.cores ≡ as_u64 cores))) }
    ensures none { IsNone result → ¬ IsSomeHeader line.now }
{
    parts(line)
}

/// The header of a core's log of this format, without its line feed.
#[tactic(auto, using(decimal_text::proofs::Printing::numeral_decimal, crate::proofs::Ends::first_header_text, crate::proofs::Ends::second_header_text))]
pub fn print_header(
    alloc: Global,
    format: Format,
    core: CoreId,
    cores: u64,
) -> Result<String, AllocError>
    ensures { IfOk result (λ line. string_bytes line ≡ header_text (format_number format) core cores) }
{
    let core = core.get();
    match format {
        Format::One => format!(in alloc; "tardis-log 1 core {core} of {cores}"),
        Format::Two => format!(in alloc; "tardis-log 2 core {core} of {cores}"),
    }
}
