//! What the program prints.

ghost use Rattle.std.specs.Prelude.{◌≡◌, ◌⊎◌, ℕ, List};
ghost use Rattle.verdict.specs.Texts.{verdict_text};
ghost use Rattle.verdict.specs.declared.answer.Verdict.{Verdict};
ghost use Rattle.commands.specs.Answers.{answer_status};
ghost use Rattle.commands.specs.Refusals.{refusal_status, refusal_text};
ghost use Rattle.log_file.specs.Sinks.{Takes, line, sink_of};
ghost use Rattle.commands.specs.inner.Printing.{IsPrinted};
ghost use Rattle.commands.specs.declared.answer.CommandAnswer.TheVariants.{Done, Ordered};
ghost use Rattle.commands.specs.declared.refusal.Refusal.TheVariants.{OutOfMemory};

use super::answer::CommandAnswer;
use super::refusal::Refusal;
use super::verdict_line::verdict_line;
use log_file::{ByteSink, write_all};
use std::alloc::Global;

/// Prints the line of an answer, and gives it back: 29 if standard output fails.
pub(crate) fn print_answer<O: ByteSink>(
    alloc: Global,
    out: &mut O,
    answer: CommandAnswer,
) -> Result<CommandAnswer, Refusal>
    ensures { IsPrinted answer (sink_of O.contents O.failed out.old) (sink_of O.contents O.failed out.new) result }
{
    let line = format!(in alloc; "{answer}\n")?;
    write_all(out, line.as_bytes())?;
    Ok(answer)
}

/// Prints that so many operations are done.
pub(crate) fn print_done<O: ByteSink>(
    alloc: Global,
    out: &mut O,
    operations: u64,
) -> Result<CommandAnswer, Refusal>
    ensures { IsPrinted (Done operations) (sink_of O.contents O.failed out.old) (sink_of O.contents O.failed out.new) result }
{
    print_answer(alloc, out, CommandAnswer::Done(operations))
}

/// Tells on standard error what belongs there of an answer, and answers its exit status.
pub(crate) fn tell_answer<E: ByteSink>(err: &mut E, answer: &CommandAnswer) -> u8
    ensures status { result ≡ answer_status answer.now }
    ensures aside { (verdict : Verdict) → answer.now ≡ Ordered verdict
        → Takes (sink_of E.contents E.failed err.old) (sink_of E.contents E.failed err.new) (line (verdict_text verdict)) }
{
    if let CommandAnswer::Ordered(verdict) = answer {
        tell(err, verdict_line(verdict).as_str());
    }
    answer.status()
}

/// Tells the user of a refusal on standard error, and answers its exit status. Where there is no
/// memory for that, it tells of this instead.
pub(crate) fn refuse<E: ByteSink>(alloc: Global, err: &mut E, refusal: Refusal) -> u8
    ensures { (told : Refusal) × ((told ≡ refusal) ⊎ (told ≡ OutOfMemory))
        × Takes (sink_of E.contents E.failed err.old) (sink_of E.contents E.failed err.new)
        (line (refusal_text told))
        × (result ≡ refusal_status told) }
{
    match format!(in alloc; "{refusal}\n") {
        Ok(line) => {
            tell(err, line.as_str());
            refusal.status()
        }
        Err(_) => {
            tell(err, "refused: 10 OutOfMemory\n");
            Refusal::OutOfMemory.status()
        }
    }
}

/// Tells the user on standard error that words are refused, in these lines.
pub(crate) fn tell_usage<E: ByteSink>(err: &mut E, text: &str)
    ensures { (words : List ℕ) × Takes (sink_of E.contents E.failed err.old) (sink_of E.contents E.failed err.new) (line words) }
{
    if text.ends_with('\n') {
        tell(err, text);
    } else {
        tell(err, "error: these words ask for nothing\n");
    }
}

/// Tells the user on standard error. A write that fails is passed over.
pub(crate) fn tell<E: ByteSink>(err: &mut E, text: &str)
    ensures { Takes (sink_of E.contents E.failed err.old) (sink_of E.contents E.failed err.new)
        text.now }
{
    let _ = write_all(err, text.as_bytes());
}
