//! What is printed of a no to a search.

ghost use Rattle.std.specs.Prelude.{◌≡◌, IfOk, string_bytes};
ghost use Rattle.log_file.specs.Sinks.{line};
ghost use Rattle.telling.specs.FirstLines.{IsGrown};
ghost use Rattle.commands.specs.SearchAnswers.{search_text};

use super::search_answer::SearchAnswer;
use refutation::Refutation;
use refuted_cases::Names;
use std::alloc::{AllocError, Global};
use telling::push_argument;
use trace::Trace;

/// The line of an answer to a trace, whose addresses have these names, and why it is so.
pub(crate) fn print_no(
    alloc: Global,
    names: &Names,
    trace: &Trace,
    refutation: &Refutation,
    answer: &SearchAnswer,
) -> Result<String, AllocError>
    ensures { IfOk result (λ text. IsGrown (line (search_text answer.now)) (string_bytes text)) }
{
    let mut text = format!(in alloc; "{answer}\n")?;
    push_argument(&mut text, alloc, names, trace, refutation)?;
    Ok(text)
}
