//! The text of an order as a certificate.

ghost use Rattle.std.specs.Prelude.{◌≡◌, ◌<◌, ◌^◌, ◌++◌, ◌∷◌, [], IfOk, IfSome, IsNone, vec_len};
ghost use Rattle.commands.specs.OrderTexts.{SpellsOrder};
ghost use Rattle.merge_judge.specs.OrderText.{end_line, id_line, id_lines};

use decimal_text::{after_text, read_field, read_last};
use flat_replay::first_wrong_place;
use mem_op::{CoreId, OpId, OpIndex};
use std::alloc::{AllocError, Global};
use text_lines::next_line;
use trace::Trace;

/// The id whose line this is, without its line feed.
fn read_id(line: &[u8]) -> Option<OpId>
    ensures { IfSome result (λ id. line.now ++ 10 ∷ [] ≡ id_line id) }
{
    let (core, rest) = read_field(b'.', line)?;
    let core = CoreId::new(core?).ok()?;
    let index = OpIndex::new(read_last(rest)??).ok()?;
    Some(OpId { core, index })
}

/// The id whose line is the first, and the bytes after it; None if the first line is no id's, or has no line feed.
fn next_id(text: &[u8]) -> Option<(OpId, &[u8])>
    ensures { IfSome result (λ read. text.now ≡ id_line read.0 ++ read.1.now) }
{
    let (line, rest) = next_line(text)?;
    Some((read_id(line)?, rest))
}

/// The ids whose lines a text begins with, and what comes after them.
#[derive(Drop)]
struct Front<'a> {
    ids: Vec<OpId>,
    rest: &'a [u8],
}

/// Reads ids up to the first line that isn't an id's.
fn read_ids(alloc: Global, text: &[u8]) -> Result<Front<'_>, AllocError>
    ensures begins { IfOk result (λ front. text.now ≡ id_lines front.ids.items ++ front.rest.now) }
    ensures few { IfOk result (λ front. vec_len front.ids < 2 ^ 63) }
{
    let mut ids = Vec::new(alloc);
    let mut rest = text;
    'reading: while let Some((id, behind)) = next_id(rest) {
        ids.push(id)?;
        rest = behind;
    }
    Ok(Front { ids, rest })
}

/// The line of the text at which its end is wrong: these bytes should be the `end` line of so many ids.
fn bad_end(alloc: Global, rest: &[u8], count: u64) -> Result<Option<u64>, AllocError>
    requires { count < 2 ^ 63 }
    ensures { IfOk result (λ bad. IsNone bad → rest.now ≡ end_line count) }
{
    let due = format!(in alloc; "end {count}\n")?;
    Ok(match after_text(due.as_bytes(), rest) {
        None => Some(count + 1),
        Some([]) => None,
        Some(_) => Some(count + 2),
    })
}

/// The first line of a text that isn't as it should be in the text of an order of the trace's operations; None if it is
/// that of a sequential order. Whoever made it isn't trusted. Err if memory was refused.
pub(crate) fn first_bad_line_of_order(
    alloc: Global,
    trace: &Trace,
    text: &[u8],
) -> Result<Option<u64>, AllocError>
    ensures { IfOk result (λ bad. IsNone bad → SpellsOrder trace.now text.now) }
{
    let front = read_ids(alloc, text)?;
    if let Some(place) = first_wrong_place(alloc, trace.cores(), front.ids.as_slice())? {
        return Ok(Some(place as u64 + 1));
    }
    bad_end(alloc, front.rest, front.ids.len() as u64)
}
