//! What is answered of a trace.

ghost use Rattle.std.specs.Prelude.{◌≡◌, Some};
ghost use Rattle.commands.specs.SearchAnswers.{no_of, search_status, search_text};

use command_line::TraceFiles;
use std::fmt;
use std::fmt::Display;

/// Whether a trace is consistent, with the number of its operations.
#[derive(Clone, Copy)]
pub enum SearchAnswer {
    /// It is.
    Yes(u64),
    /// It isn't.
    No(u64),
    /// It isn't where each load and swap has its word from the store that its log names.
    NoBySources(u64),
}

impl SearchAnswer {
    /// The no of so many operations in these files.
    pub(crate) fn no_of(files: &TraceFiles<'_>, operations: u64) -> SearchAnswer
        ensures { result ≡ no_of files.now operations }
    {
        match files {
            TraceFiles::One(_) | TraceFiles::Logs(_) => SearchAnswer::No(operations),
            TraceFiles::Sourced(_) => SearchAnswer::NoBySources(operations),
        }
    }

    /// The exit status: 0 for yes, 1 for no.
    pub(crate) fn status(&self) -> u8
        ensures { result ≡ search_status self.now }
    {
        match self {
            SearchAnswer::Yes(_) => 0,
            SearchAnswer::No(_) | SearchAnswer::NoBySources(_) => 1,
        }
    }
}

impl Display for SearchAnswer {
    ghost output = { λ answer. Some (search_text answer) };

    fn fmt<W: fmt::Write>(&self, f: &mut fmt::Formatter<W>) -> fmt::Result {
        match self {
            SearchAnswer::Yes(operations) => write!(f, "yes: {operations} operations"),
            SearchAnswer::No(operations) => write!(f, "no: no order of {operations} operations"),
            SearchAnswer::NoBySources(operations) => write!(
                f,
                "no: no order of {operations} operations with these sources"
            ),
        }
    }
}
