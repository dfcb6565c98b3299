//! The first line of a litmus test.

ghost use Rattle.std.specs.Prelude.{◌≡◌, ◌≤◌, IfSome, IsNone, length, option_map};
ghost use Rattle.decimal_text.specs.Reading.{front_now};
ghost use Rattle.litmus.specs.TestGrammar.{is_name_byte};
ghost use Rattle.litmus.specs.inner.Reading.{IsHead, cores_at, format_at, head, head_of, head_text, name_at, name_len};
ghost use Rattle.text_lines.specs.Items.{ItemInFront, NoItemInFront};

use core_program::ProgramFormat;
use decimal_text::{after_text, read_field, read_last};
use text_lines::next_line;

/// The most bytes of a name.
const NAME_LIMIT: usize = 32;

/// The most cores of a test.
const CORE_LIMIT: u64 = 64;

/// What the first line of a test tells.
#[derive(Clone, Copy)]
pub(crate) struct Header<'a> {
    /// The format of its programs.
    pub(crate) format: ProgramFormat,
    /// Its name.
    pub(crate) name: &'a [u8],
    /// Its number of cores, 1..64.
    pub(crate) cores: u64,
}

/// Whether a byte may stand in a name.
fn is_name_byte(byte: u8) -> bool
    ensures { result ≡ is_name_byte byte }
{
    matches!(byte, b'0'..=b'9' | b'A'..=b'Z' | b'a'..=b'z' | b'+' | b'-')
}

/// How many of the first bytes may stand in a name.
fn name_len(bytes: &[u8]) -> usize
    ensures value { result ≡ name_len bytes.now }
    ensures within { result ≤ length bytes.now }
{
    let mut count = 0;
    let mut rest = bytes;
    while let [first, tail @ ..] = rest {
        if !is_name_byte(*first) {
            return count;
        }
        count += 1;
        rest = tail;
    }
    count
}

/// A name of 1..32 bytes, and the bytes after it.
fn name_at(bytes: &[u8]) -> Option<(&[u8], &[u8])>
    ensures { option_map (λ read. (read.0.now, read.1.now)) result ≡ name_at bytes.now }
{
    let count = name_len(bytes);
    if count == 0 || count > NAME_LIMIT {
        return None;
    }
    Some((&bytes[..count], &bytes[count..]))
}

/// The number of cores that the bytes after a name tell, 1..64.
#[tactic(auto, unfolding(crate::specs::inner::Reading::cores_at))]
fn cores_at(bytes: &[u8]) -> Option<u64>
    ensures { result ≡ cores_at bytes.now }
{
    let cores = read_last(after_text(b" cores ", bytes)?)??;
    if cores == 0 || cores > CORE_LIMIT {
        return None;
    }
    Some(cores)
}

/// The format before the name, and the bytes after it.
#[tactic(auto, unfolding(crate::specs::inner::Reading::format_at))]
fn format_at(line: &[u8]) -> Option<(ProgramFormat, &[u8])>
    ensures { front_now result ≡ format_at line.now }
{
    let (number, rest) = read_field(b' ', after_text(b"tardis-litmus ", line)?)?;
    match number? {
        1 => Some((ProgramFormat::One, rest)),
        2 => Some((ProgramFormat::Two, rest)),
        _ => None,
    }
}

/// What a first line tells; None if it isn't one.
#[tactic(auto, unfolding(crate::specs::inner::Reading::head_of))]
fn header_of(line: &[u8]) -> Option<Header<'_>>
    ensures { option_map head result ≡ head_of line.now }
{
    let (format, rest) = format_at(line)?;
    let (name, rest) = name_at(rest)?;
    let cores = cores_at(rest)?;
    Some(Header {
        format,
        name,
        cores,
    })
}

/// What the first line tells, and the bytes after it; None if it isn't as it should be.
pub(crate) fn after_header(text: &[u8]) -> Option<(Header<'_>, &[u8])>
    ensures found { IfSome result (λ read. ItemInFront head_text IsHead (head read.0) text.now read.1.now) }
    ensures none { IsNone result → NoItemInFront head_text IsHead text.now }
{
    let (line, rest) = next_line(text)?;
    let header = header_of(line)?;
    Some((header, rest))
}
