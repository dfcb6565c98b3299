//! Whether a set that got No has another order, one that explains all values.

ghost use Rattle.std.specs.Prelude.{◌≡◌, ◌⊎◌, List, IfOk, IsTrue};
ghost use Rattle.log_record.specs.Entries.{operations_of};
ghost use Rattle.log_record.specs.declared.record.Record.{Record};
ghost use Rattle.mem_op.specs.Consistency.{IsConsistent};
ghost use Rattle.commands.specs.inner.ReadLogs.{AreLogsOf};
ghost use Rattle.refutation.specs.Answers.{IsRight};

use super::basis_logs::{logs_of, records_in};
use super::log_traces::trace_of;
use super::sources::sourced_trace;
use refutation::Answer;
use refuted_cases::Names;
use search::{SearchWatch, search_watched};
use std::alloc::{AllocError, Global};
use telling::push_argument;
use trace::Trace;
use verdict::{Basis, Examined, Rule, Verdict};

/// The most operations of a set for which another order is searched.
const MOST_SEARCHED: usize = 1_000_000;

/// How many steps each of the two searches may make, which takes some seconds at most.
const STEPS: u64 = 10_000_000;

/// The words if there is one that explains the sources, too.
const BY_SOURCES: &str =
    "\nanother order explains all values with these sources, so this run is sequentially consistent; a time was logged wrong, or the machine broke its own order and no value of this run shows it\n";

/// The words if there is one, and none explains the sources, too.
const BY_OTHERS: &str =
    "\nanother order explains all values, though none with these sources, so this run is sequentially consistent; a source was logged wrong, or the machine broke its own order and no value of this run shows it\n";

/// The words if there is one, and it isn't known whether one explains the sources, too.
const ANOTHER: &str =
    "\nanother order explains all values, so this run is sequentially consistent; a time or a source was logged wrong, or the machine broke its own order and no value of this run shows it\n";

/// The words if there is none, before the argument.
const NONE: &str = "\nno order explains all values:\n";

/// The words if the search gave up.
const UNDECIDED: &str =
    "\nwhether another order explains all values isn't decided within 10,000,000 steps; search --logs looks longer\n";

/// The words about a set that is too large for the search.
const UNSEARCHED: &str =
    "\nwhether another order explains all values wasn't searched, for more than 1,000,000 operations; search --logs searches\n";

/// The last lines of the words about a set.
#[derive(Drop)]
pub(crate) struct LastLines {
    /// Whether they say that another order explains all values.
    pub(crate) say_another: bool,
    pub(crate) text: String,
}

/// The last lines of the words about a set: whether another order explains all values, or that this wasn't searched, for more than 1,000,000
/// operations. Nothing where that is declined, of a Yes, and of a log that isn't its program's. A watch is told how far the search is.
pub(crate) fn other_order<W: SearchWatch>(
    alloc: Global,
    watch: &W,
    names: &Names,
    examined: &Examined,
    cores: usize,
    is_declined: bool,
) -> Result<LastLines, AllocError>
    requires { (logs : List (List Record)) × AreLogsOf logs examined.now.basis cores }
    ensures { (logs : List (List Record)) → AreLogsOf logs examined.now.basis cores
        → IfOk result (λ last. IsTrue last.say_another → IsConsistent (operations_of logs)) }
{
    if is_declined || !is_wrong_by_its_order(&examined.verdict) {
        return last_lines(alloc, false, "");
    }
    if records_in(&examined.basis) > MOST_SEARCHED {
        return last_lines(alloc, false, UNSEARCHED);
    }
    whether_another(alloc, watch, names, &examined.basis, cores)
}

/// These last lines.
fn last_lines(alloc: Global, say_another: bool, text: &str) -> Result<LastLines, AllocError>
    ensures { IfOk result (λ last. last.say_another ≡ say_another) }
{
    let text = String::from_str(alloc, text)?;
    Ok(LastLines { say_another, text })
}

/// Whether it is by its order that a set got No, which another order may mend.
fn is_wrong_by_its_order(verdict: &Verdict) -> bool {
    match verdict {
        Verdict::Yes(_) => false,
        Verdict::No(fault) => fault.rule != Rule::Program,
    }
}

/// Whether some order explains all values of the set that a verdict stands on, of so many cores.
fn whether_another<W: SearchWatch>(
    alloc: Global,
    watch: &W,
    names: &Names,
    basis: &Basis,
    cores: usize,
) -> Result<LastLines, AllocError>
    requires { (logs : List (List Record)) × AreLogsOf logs basis.now cores }
    ensures { (logs : List (List Record)) → AreLogsOf logs basis.now cores
        → IfOk result (λ last. IsTrue last.say_another → IsConsistent (operations_of logs)) }
{
    let logs = logs_of(alloc, basis, cores)?;
    let logs = logs.as_slice();
    let trace = trace_of(alloc, logs)?;
    let sourced = sourced_trace(alloc, &trace, logs)?;
    let last = whether_by_sources(alloc, watch, names, &sourced, &trace)?;
    Ok(last)
}

/// Whether some order of a trace explains all values; one of the trace with sources in place of words is looked for first.
fn whether_by_sources<W: SearchWatch>(
    alloc: Global,
    watch: &W,
    names: &Names,
    sourced: &Trace,
    trace: &Trace,
) -> Result<LastLines, AllocError>
    ensures { IfOk result (λ last. IsTrue last.say_another → IsConsistent sourced.now ⊎ IsConsistent trace.now) }
{
    match searched(alloc, watch, sourced)? {
        Answer::Order(_) => last_lines(alloc, true, BY_SOURCES),
        Answer::Refutation(_) => whether_any(alloc, watch, names, trace, BY_OTHERS),
        Answer::Undecided => whether_any(alloc, watch, names, trace, ANOTHER),
    }
}

/// An order of a trace, a refutation, or neither.
fn searched<W: SearchWatch>(alloc: Global, watch: &W, trace: &Trace) -> Result<Answer, AllocError>
    ensures { IfOk result (IsRight trace.now) }
{
    search_watched(alloc, trace, STEPS, watch)
}

/// Whether some order of a trace explains all values, which is told in these words.
fn whether_any<W: SearchWatch>(
    alloc: Global,
    watch: &W,
    names: &Names,
    trace: &Trace,
    another: &str,
) -> Result<LastLines, AllocError>
    ensures { IfOk result (λ last. IsTrue last.say_another → IsConsistent trace.now) }
{
    match searched(alloc, watch, trace)? {
        Answer::Order(_) => last_lines(alloc, true, another),
        Answer::Undecided => last_lines(alloc, false, UNDECIDED),
        Answer::Refutation(refutation) => {
            let mut text = String::from_str(alloc, NONE)?;
            push_argument(&mut text, alloc, names, trace, &refutation)?;
            Ok(LastLines {
                say_another: false,
                text,
            })
        }
    }
}
