//! The lines after the sections of a litmus test.

ghost use Rattle.std.specs.Prelude.{◌+◌, ◌<◌, ◌≤◌, ◌^◌, IfOk, MatchBool, MatchResult};
ghost use Rattle.litmus.specs.inner.Ending.{AreForbidsOf, BeginsInstruction, IsEnding, IsEndingFault, IsWrongLine, word_lists};

use super::litmus_fault::LitmusFault;
use super::test::Shown;
use super::words::{read_forbid, read_show};
use decimal_text::after_text;
use std::alloc::{AllocError, Global};
use text_lines::next_line;

/// The most outcomes that a test forbids.
const FORBID_LIMIT: usize = 16;

/// What the lines after the sections say.
#[derive(Drop)]
pub(crate) struct Ending {
    /// The registers that are shown.
    pub(crate) shown: Vec<Shown>,
    /// The outcomes that are forbidden.
    pub(crate) forbidden: Vec<Vec<u64>>,
}

/// The forbidden outcomes at the front of bytes.
#[derive(Drop)]
pub(crate) struct Forbids {
    /// The outcomes.
    pub(crate) outcomes: Vec<Vec<u64>>,
    /// How many bytes their lines have.
    pub(crate) taken: usize,
}

/// Whether there are bytes, and they begin neither with `core ` nor with `show `.
fn begins_instruction(bytes: &[u8]) -> bool
    ensures { MatchBool result (BeginsInstruction bytes.now) (BeginsInstruction bytes.now → ⊥) }
{
    !bytes.is_empty()
        && after_text(b"core ", bytes).is_none()
        && after_text(b"show ", bytes).is_none()
}

/// The fault of a wrong line where sections may go on, after this many have begun.
pub(crate) fn wrong_line(line: u64, begun: u64, bytes: &[u8]) -> LitmusFault
    ensures { IsWrongLine line begun bytes.now result }
{
    if begun > 0 && begins_instruction(bytes) {
        LitmusFault::BadLine(line)
    } else {
        LitmusFault::BadLitmusLine(line)
    }
}

/// The forbidden outcomes, 16 at most and each of this many registers, whose lines the bytes begin with.
fn read_forbids(alloc: Global, count: usize, text: &[u8]) -> Result<Forbids, AllocError>
    ensures { IfOk result (AreForbidsOf count text.now) }
{
    let mut outcomes = Vec::new(alloc);
    let mut rest = text;
    for _ in 0..FORBID_LIMIT {
        let Some((values, behind)) = read_forbid(alloc, count, rest)? else {
            break;
        };
        outcomes.push(values)?;
        rest = behind;
    }
    Ok(Forbids {
        outcomes,
        taken: text.len() - rest.len(),
    })
}

/// What the lines after the sections of `cores` cores say. The first of them is line `line`. A fault is
/// that of the first line that isn't as it should be.
pub(crate) fn read_ending(
    alloc: Global,
    cores: u64,
    text: &[u8],
    line: u64,
) -> Result<Ending, LitmusFault>
    requires cores { cores ≤ 64 }
    requires line { line < 2 ^ 32 }
    ensures { MatchResult result
        (λ ending. IsEnding cores text.now ending.shown.items (word_lists ending.forbidden.items))
        (λ fault. IsEndingFault cores line text.now fault) }
{
    let Some((first, behind)) = next_line(text) else {
        return Err(wrong_line(line, cores, text));
    };
    let Some(shown) = read_show(alloc, cores, first)? else {
        return Err(wrong_line(line, cores, text));
    };
    let forbids = read_forbids(alloc, shown.len(), behind)?;
    let behind_forbids = line + 1 + forbids.outcomes.len() as u64;
    match after_text(b"end\n", &behind[forbids.taken..]) {
        None => Err(LitmusFault::BadLitmusLine(behind_forbids)),
        Some([]) => Ok(Ending {
            shown,
            forbidden: forbids.outcomes,
        }),
        Some(_) => Err(LitmusFault::BadLitmusLine(behind_forbids + 1)),
    }
}
