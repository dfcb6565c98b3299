//! Reads an instruction's line from left to right.

ghost use Rattle.std.specs.Prelude.{◌≡◌, ◌^◌};
ghost use Rattle.decimal_text.specs.Reading.{front_now};
ghost use Rattle.core_program.specs.inner.Reading.{register_at, last_register, last_skip};
ghost use Rattle.core_program.specs.inner.Reading.{load_of, store_of, store_register_of, add_of, skip_of, swap_of, instruction_of};
ghost use Rattle.text_lines.specs.Fields.{field_below, last_below};

use super::format::ProgramFormat;
use super::instruction::Instruction;
use super::register::Register;
use super::skip::Skip;
use decimal_text::{after_text, read_field, read_last};
use mem_op::{Addr, Word};

/// A register with a space after it, and the bytes after the space.
#[tactic(auto, unfolding(crate::specs::inner::Reading::register_at, text_lines::specs::Fields::field_below))]
fn register(bytes: &[u8]) -> Option<(Register, &[u8])>
    ensures { front_now result ≡ register_at bytes.now }
{
    let (number, rest) = read_field(b' ', after_text(b"r", bytes)?)?;
    Some((Register::new(number?)?, rest))
}

/// An address with a space after it, and the bytes after the space.
#[tactic(auto, unfolding(text_lines::specs::Fields::field_below))]
fn addr(bytes: &[u8]) -> Option<(Addr, &[u8])>
    ensures { front_now result ≡ field_below 65536 bytes.now }
{
    let (number, rest) = read_field(b' ', bytes)?;
    Some((Addr::new(number?).ok()?, rest))
}

/// A register that takes up all the bytes.
#[tactic(auto, unfolding(crate::specs::inner::Reading::last_register, text_lines::specs::Fields::last_below))]
fn last_register(bytes: &[u8]) -> Option<Register>
    ensures { result ≡ last_register bytes.now }
{
    Register::new(read_last(after_text(b"r", bytes)?)??)
}

/// An address that takes up all the bytes.
#[tactic(auto, unfolding(text_lines::specs::Fields::last_below))]
fn last_addr(bytes: &[u8]) -> Option<Addr>
    ensures { result ≡ last_below 65536 bytes.now }
{
    Addr::new(read_last(bytes)??).ok()
}

/// A word that takes up all the bytes.
#[tactic(auto, unfolding(text_lines::specs::Fields::last_below))]
fn last_word(bytes: &[u8]) -> Option<Word>
    ensures { result ≡ last_below (2 ^ 64) bytes.now }
{
    read_last(bytes)?
}

/// The length of a jump that takes up all the bytes.
#[tactic(auto, unfolding(crate::specs::inner::Reading::last_skip))]
fn last_skip(bytes: &[u8]) -> Option<Skip>
    ensures { result ≡ last_skip bytes.now }
{
    Skip::new(read_last(bytes)??)
}

/// The fields of `ld rN a`.
#[tactic(auto, unfolding(crate::specs::inner::Reading::load_of))]
fn load(fields: &[u8]) -> Option<Instruction>
    ensures { result ≡ load_of fields.now }
{
    let Some((to, rest)) = register(fields) else {
        return None;
    };
    Some(Instruction::Load(to, last_addr(rest)?))
}

/// The fields of `st a K`.
#[tactic(auto, unfolding(crate::specs::inner::Reading::store_of))]
fn store(fields: &[u8]) -> Option<Instruction>
    ensures { result ≡ store_of fields.now }
{
    let Some((addr, rest)) = addr(fields) else {
        return None;
    };
    Some(Instruction::Store(addr, last_word(rest)?))
}

/// The fields of `sr a rN`.
#[tactic(auto, unfolding(crate::specs::inner::Reading::store_register_of))]
fn store_register(fields: &[u8]) -> Option<Instruction>
    ensures { result ≡ store_register_of fields.now }
{
    let Some((addr, rest)) = addr(fields) else {
        return None;
    };
    Some(Instruction::StoreRegister(addr, last_register(rest)?))
}

/// The fields of `ai rN rM K`.
#[tactic(auto, unfolding(crate::specs::inner::Reading::add_of))]
fn add(fields: &[u8]) -> Option<Instruction>
    ensures { result ≡ add_of fields.now }
{
    let Some((to, rest)) = register(fields) else {
        return None;
    };
    let Some((from, rest)) = register(rest) else {
        return None;
    };
    Some(Instruction::Add(to, from, last_word(rest)?))
}

/// The fields of `jz rN k`.
#[tactic(auto, unfolding(crate::specs::inner::Reading::skip_of))]
fn skip(fields: &[u8]) -> Option<Instruction>
    ensures { result ≡ skip_of fields.now }
{
    let Some((tested, rest)) = register(fields) else {
        return None;
    };
    Some(Instruction::SkipIfZero(tested, last_skip(rest)?))
}

/// The fields of `sw rN a K`.
#[tactic(auto, unfolding(crate::specs::inner::Reading::swap_of))]
fn swap(fields: &[u8]) -> Option<Instruction>
    ensures { result ≡ swap_of fields.now }
{
    let Some((to, rest)) = register(fields) else {
        return None;
    };
    let Some((addr, rest)) = addr(rest) else {
        return None;
    };
    Some(Instruction::Swap(to, addr, last_word(rest)?))
}

/// The instruction on this line in a format, without its line feed.
#[tactic(auto, unfolding(crate::specs::inner::Reading::instruction_of, decimal_text::specs::Reading::after))]
pub(crate) fn read_instruction(format: ProgramFormat, line: &[u8]) -> Option<Instruction>
    ensures { result ≡ instruction_of format line.now }
{
    match (format, line) {
        (_, [b'l', b'd', b' ', fields @ ..]) => load(fields),
        (_, [b's', b't', b' ', fields @ ..]) => store(fields),
        (_, [b's', b'r', b' ', fields @ ..]) => store_register(fields),
        (_, [b'a', b'i', b' ', fields @ ..]) => add(fields),
        (_, [b'j', b'z', b' ', fields @ ..]) => skip(fields),
        (ProgramFormat::Two, [b's', b'w', b' ', fields @ ..]) => swap(fields),
        _ => None,
    }
}
