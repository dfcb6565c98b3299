//! Reads a command's line from left to right.

ghost use Rattle.std.specs.Prelude.{◌≡◌, min};
ghost use Rattle.decimal_text.specs.Reading.{front_now};
ghost use Rattle.simulation.specs.inner.CommandReading.{core_at, addr_at, kind_at, last_core, last_addr, last_stamp};
ghost use Rattle.simulation.specs.inner.CommandReading.{recall_of, evict_of, command_of};
ghost use Rattle.text_lines.specs.Fields.{below};

use super::command::Command;
use decimal_text::{after_text, read_field, read_last};
use line_stamps::{Recall, RecallKind, Stamp};
use mem_op::{Addr, CoreId};

/// The core of this number, if it is below `cores`, and below 64.
fn core_of(cores: usize, number: u64) -> Option<CoreId>
    ensures { result ≡ below (min cores 64) number }
{
    let core = CoreId::new(number).ok()?;
    if number < cores as u64 {
        Some(core)
    } else {
        None
    }
}

/// A core with a space after it, and the bytes after them.
#[tactic(auto, unfolding(text_lines::specs::Fields::field_below))]
fn core_field(cores: usize, bytes: &[u8]) -> Option<(CoreId, &[u8])>
    ensures { front_now result ≡ core_at cores bytes.now }
{
    let (number, rest) = read_field(b' ', bytes)?;
    Some((core_of(cores, number?)?, rest))
}

/// An address with a space after it, and the bytes after them.
#[tactic(auto, unfolding(text_lines::specs::Fields::field_below))]
fn addr_field(bytes: &[u8]) -> Option<(Addr, &[u8])>
    ensures { front_now result ≡ addr_at bytes.now }
{
    let (number, rest) = read_field(b' ', bytes)?;
    Some((Addr::new(number?).ok()?, rest))
}

/// How a recall wants a line back, with a space after it, and the bytes after them.
#[tactic(auto, unfolding(crate::specs::inner::CommandReading::kind_at, decimal_text::specs::Reading::after))]
fn kind_field(bytes: &[u8]) -> Option<(RecallKind, &[u8])>
    ensures { front_now result ≡ kind_at bytes.now }
{
    match bytes {
        [b'w', b'b', b' ', rest @ ..] => Some((RecallKind::WriteBack, rest)),
        [b'f', b'l', b'u', b's', b'h', b' ', rest @ ..] => Some((RecallKind::Flush, rest)),
        _ => None,
    }
}

/// A core, and nothing after it.
#[tactic(auto, unfolding(text_lines::specs::Fields::last_below))]
fn last_core(cores: usize, bytes: &[u8]) -> Option<CoreId>
    ensures { result ≡ last_core cores bytes.now }
{
    core_of(cores, read_last(bytes)??)
}

/// An address, and nothing after it.
#[tactic(auto, unfolding(text_lines::specs::Fields::last_below))]
fn last_addr(bytes: &[u8]) -> Option<Addr>
    ensures { result ≡ last_addr bytes.now }
{
    Addr::new(read_last(bytes)??).ok()
}

/// A stamp, and nothing after it.
#[tactic(auto, unfolding(text_lines::specs::Fields::last_below))]
fn last_stamp(bytes: &[u8]) -> Option<Stamp>
    ensures { result ≡ last_stamp bytes.now }
{
    Stamp::new(read_last(bytes)??).ok()
}

/// The fields of `recall c a wb t` or `recall c a flush t`.
#[tactic(auto, unfolding(crate::specs::inner::CommandReading::recall_of))]
fn recall(cores: usize, fields: &[u8]) -> Option<Command>
    ensures { result ≡ recall_of cores fields.now }
{
    let Some((owner, rest)) = core_field(cores, fields) else {
        return None;
    };
    let Some((addr, rest)) = addr_field(rest) else {
        return None;
    };
    let Some((kind, rest)) = kind_field(rest) else {
        return None;
    };
    let rts = last_stamp(rest)?;
    Some(Command::Recall(Recall {
        rts,
        addr,
        owner,
        kind,
    }))
}

/// The fields of `evict c a`.
#[tactic(auto, unfolding(crate::specs::inner::CommandReading::evict_of))]
fn evict(cores: usize, fields: &[u8]) -> Option<Command>
    ensures { result ≡ evict_of cores fields.now }
{
    let Some((core, rest)) = core_field(cores, fields) else {
        return None;
    };
    Some(Command::Evict(core, last_addr(rest)?))
}

/// The command whose line this is, without its line feed, if there are `cores` cores.
#[tactic(auto, unfolding(crate::specs::inner::CommandReading::command_of))]
pub(crate) fn read_command(cores: usize, line: &[u8]) -> Option<Command>
    ensures { result ≡ command_of cores line.now }
{
    if let Some(core) = after_text(b"turn ", line) {
        Some(Command::Turn(last_core(cores, core)?))
    } else if let Some(core) = after_text(b"serve ", line) {
        Some(Command::Serve(last_core(cores, core)?))
    } else if let Some(core) = after_text(b"take ", line) {
        Some(Command::Take(last_core(cores, core)?))
    } else if let Some(fields) = after_text(b"recall ", line) {
        recall(cores, fields)
    } else if let Some(fields) = after_text(b"evict ", line) {
        evict(cores, fields)
    } else if let Some(addr) = after_text(b"spill ", line) {
        Some(Command::Spill(last_addr(addr)?))
    } else if let Some(core) = after_text(b"bump ", line) {
        Some(Command::Bump(last_core(cores, core)?))
    } else if let Some(core) = after_text(b"round ", line) {
        Some(Command::Round(last_core(cores, core)?))
    } else if let Some(core) = after_text(b"op ", line) {
        Some(Command::Op(last_core(cores, core)?))
    } else {
        Some(Command::Finish(last_core(cores, after_text(b"finish ", line)?)?))
    }
}
