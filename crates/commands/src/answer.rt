//! What a command answers.

ghost use Rattle.std.specs.Prelude.{◌≡◌};
ghost use Rattle.commands.specs.Answers.{answer_status, answer_text};

use super::search_answer::SearchAnswer;
use command_line::FileKind;
use std::fmt;
use std::fmt::Display;
use trace_replay::ReplayVerdict;
use verdict::Verdict;

/// What a command answers.
#[derive(Clone, Copy)]
pub enum CommandAnswer {
    /// The verdict on a set of logs.
    Judged(Verdict),
    /// The verdict on a set of logs whose order was written, if it is Yes.
    Ordered(Verdict),
    /// The verdict on a set of logs, with what there is to tell of it.
    Explained(Verdict),
    /// A file of this kind can be read, and is for so many cores.
    Readable(FileKind, usize),
    /// Whether a trace is consistent, by a search or by a certificate.
    Searched(SearchAnswer),
    /// A certificate holds of a trace, and gives this answer.
    Certified(SearchAnswer),
    /// Whether a trace is right in the order of its lines.
    Replayed(ReplayVerdict),
    /// A table of the outcomes of a litmus test was written, and whether one of them is forbidden.
    Counted(bool),
    /// Programs were run to their ends, and have performed this number of operations.
    Done(u64),
    /// The version of the program, and what it was proved with.
    Version,
}

/// The version of the program, and the logic of the toolchain with which it was proved.
const VERSION: &str = "tardis 1.0, proved with logic dac8208d650f15bf";

impl CommandAnswer {
    /// The exit status: 1 for No and for a forbidden outcome, else 0.
    pub(crate) fn status(&self) -> u8
        ensures { result ≡ answer_status self.now }
    {
        match self {
            CommandAnswer::Judged(verdict)
            | CommandAnswer::Ordered(verdict)
            | CommandAnswer::Explained(verdict) => { verdict.status() }
            CommandAnswer::Searched(answer) => answer.status(),
            CommandAnswer::Replayed(verdict) => verdict.status(),
            CommandAnswer::Counted(true) => 1,
            CommandAnswer::Counted(false)
            | CommandAnswer::Readable(_, _)
            | CommandAnswer::Certified(_)
            | CommandAnswer::Done(_)
            | CommandAnswer::Version => 0,
        }
    }
}

impl Display for CommandAnswer {
    ghost output = { λ answer. answer_text answer };

    fn fmt<W: fmt::Write>(&self, f: &mut fmt::Formatter<W>) -> fmt::Result {
        match self {
            CommandAnswer::Judged(verdict)
            | CommandAnswer::Ordered(verdict)
            | CommandAnswer::Explained(verdict) => { write!(f, "{verdict}") }
            CommandAnswer::Readable(FileKind::Litmus, cores) => {
                write!(f, "right: a litmus test of {cores} cores")
            }
            CommandAnswer::Readable(FileKind::Programs, cores) => {
                write!(f, "right: programs of {cores} cores")
            }
            CommandAnswer::Readable(FileKind::Trace, cores) => {
                write!(f, "right: a trace of {cores} cores")
            }
            CommandAnswer::Searched(answer) => write!(f, "{answer}"),
            CommandAnswer::Certified(SearchAnswer::Yes(operations)) => {
                write!(f, "right: an order of {operations} operations")
            }
            CommandAnswer::Certified(
                SearchAnswer::No(operations) | SearchAnswer::NoBySources(operations),
            ) => { write!(f, "right: a refutation of {operations} operations") }
            CommandAnswer::Replayed(verdict) => write!(f, "{verdict}"),
            CommandAnswer::Counted(_) => f.write_str(""),
            CommandAnswer::Done(operations) => write!(f, "done: {operations} operations"),
            CommandAnswer::Version => f.write_str(VERSION),
        }
    }
}
