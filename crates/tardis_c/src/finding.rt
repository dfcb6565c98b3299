//! The findings of a search.

ghost use Rattle.std.specs.Prelude.{List, IfOk};
ghost use Rattle.mem_op.specs.Consistency.{Operation};
ghost use Rattle.refutation.specs.Answers.{IsShown};
ghost use Rattle.tardis_c.specs.Found.{Shows};

use merge_judge::print_order;
use refutation::Answer;
use std::alloc::{AllocError, Global};

/// The finding of a search, with a text that shows it.
#[derive(Drop)]
pub enum Finding {
    /// The operations are consistent, by the order of this text.
    Order(String),
    /// They aren't consistent, by the refutation of this text.
    Refutation(String),
    /// The search found neither.
    Undecided,
}

/// The finding of an answer, with its text. It shows the same about the operations as the answer.
pub(crate) fn finding_of(alloc: Global, answer: &Answer) -> Result<Finding, AllocError>
    ensures { IfOk result (λ finding. (cores : List (List Operation)) → IsShown cores answer.now → Shows cores finding) }
{
    match answer {
        Answer::Order(order) => Ok(Finding::Order(print_order(alloc, order)?)),
        Answer::Refutation(refutation) => Ok(Finding::Refutation(refutation.print(alloc)?)),
        Answer::Undecided => Ok(Finding::Undecided),
    }
}
