//! Reads the text of a refutation.

ghost use Rattle.std.specs.Prelude.{◌≡◌, ◌≢◌, ℕ, List, ◌≤◌, ◌<◌, ◌^◌, ◌∷◌, ◌++◌, [], IfOk, IfSome, IsNone, MatchOption, MatchResult, length};
ghost use Rattle.refutation.specs.declared.step.Step.{Step};
ghost use Rattle.refutation.specs.Grammar.{end_line};
ghost use Rattle.refutation.specs.Texts.{IsFault, IsFirstBad, NoStepInFront, Spells, SpellsRefutation, StepInFront};
ghost use Rattle.refutation.specs.inner.Lines.{TellsEnd, TellsText};

use super::fault::CertificateFault;
use super::line::read_step;
use super::refuting::first_wrong_step;
use super::step::{Refutation, Step};
use decimal_text::{after_text, read_field};
use std::alloc::{AllocError, Global};
use text_lines::next_line;
use trace::Trace;

/// Adds the step of the first line, if that is the line of a step, and gives the bytes after it.
fn push_step<'a>(
    alloc: Global,
    steps: &mut Vec<Step>,
    bytes: &'a [u8],
) -> Result<Option<&'a [u8]>, AllocError>
    ensures { IfOk result (λ found. MatchOption found
        (NoStepInFront bytes.now × (steps.new.items ≡ steps.old.items))
        (λ rest. (step : Step) × StepInFront step bytes.now rest.now × (steps.new.items ≡ steps.old.items ++ step ∷ []))) }
{
    let Some((line, rest)) = next_line(bytes) else {
        return Ok(None);
    };
    let Some(step) = read_step(alloc, line)? else {
        return Ok(None);
    };
    steps.push(step)?;
    Ok(Some(rest))
}

/// The line at which the end of a text is wrong, if it is: these bytes should be the `end` line of this many steps, and nothing more.
fn bad_end(rest: &[u8], count: u64) -> Option<u64>
    requires { count < 2 ^ 63 }
    ensures { TellsEnd rest.now count result }
{
    match after_end(rest, count) {
        None => Some(count + 2),
        Some([]) => None,
        Some(_) => Some(count + 3),
    }
}

/// The bytes after the `end` line of this many steps; None if these bytes don't begin with it.
fn after_end(rest: &[u8], count: u64) -> Option<&[u8]>
    ensures found { IfSome result (λ more. rest.now ≡ end_line count ++ more.now) }
    ensures none { IsNone result → (more : List ℕ) → rest.now ≢ end_line count ++ more }
{
    let (number, more) = read_field(b'\n', after_text(b"end ", rest)?)?;
    if number == Some(count) {
        Some(more)
    } else {
        None
    }
}

/// The steps at the front of a text, and its first line that isn't of the shape.
#[derive(Drop)]
struct Front {
    steps: Vec<Step>,
    bad_line: Option<u64>,
}

/// Reads the steps of a text up to its first line that isn't of the shape.
fn read(alloc: Global, text: &[u8]) -> Result<Front, AllocError>
    ensures { IfOk result (TellsText text.now) }
{
    let mut steps = Vec::new(alloc);
    let Some(body) = after_text(b"tardis-refutation 1\n", text) else {
        return Ok(Front {
            steps,
            bad_line: Some(1),
        });
    };
    let mut rest = body;
    while let Some(behind) = push_step(alloc, &mut steps, rest)? {
        rest = behind;
    }
    let bad_line = bad_end(rest, steps.len() as u64);
    Ok(Front { steps, bad_line })
}

impl Refutation {
    /// The list of steps whose text this is. BadCertificate at the first line that isn't of its shape; OutOfMemory if memory was refused.
    pub fn parse(alloc: Global, text: &[u8]) -> Result<Refutation, CertificateFault>
        ensures { MatchResult result (λ refutation. Spells text.now refutation) (λ fault. IsFault text.now fault) }
    {
        let found = read(alloc, text)?;
        match found.bad_line {
            None => Ok(Refutation::new(found.steps)),
            Some(line) => Err(CertificateFault::BadCertificate { line }),
        }
    }
}

/// The first line of a text that isn't of a refutation's shape, or whose step isn't right or comes after the last case was
/// closed, or the `end` line if cases are left. None if the text is that of a refutation of the trace. Err if memory was
/// refused.
#[tactic(auto, using(crate::proofs::Fronts::judged_right))]
pub fn first_bad_line(alloc: Global, trace: &Trace, text: &[u8]) -> Result<Option<u64>, AllocError>
    ensures { IfOk result (λ bad. MatchOption bad
        (SpellsRefutation trace.now text.now)
        (λ line. IsFirstBad trace.now text.now line)) }
{
    let found = read(alloc, text)?;
    if found.bad_line == Some(1) {
        return Ok(found.bad_line);
    }
    let refutation = Refutation::new(found.steps);
    match first_wrong_step(alloc, trace, &refutation)? {
        Some(place) => Ok(Some(place as u64 + 2)),
        None => Ok(found.bad_line),
    }
}
