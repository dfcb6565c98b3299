//! How an answer of the judge is printed.

ghost use Rattle.std.specs.Prelude.{◌≡◌, ◌≤◌, ◌<◌, ◌⊎◌, IfErr, IfOk, IsOkAnd, OnErr};
ghost use Rattle.log_file.specs.Devices.{TakesBeginning};
ghost use Rattle.log_file.specs.Sinks.{Takes, line, sink_of};
ghost use Rattle.verdict.specs.Reports.{IsPrinted, IsRefusedStatus, no_memory_line, refused_line};
ghost use Rattle.verdict.specs.Texts.{verdict_text};

use super::answer::Verdict;
use super::judge_fault::JudgeFault;
use log_file::{ByteSink, write_all};
use std::alloc::Global;

/// Prints an answer of the judge, and gives the exit status. The line of a verdict goes to `out`, with 0 for Yes and 1 for No. A fault goes
/// to `err`, with its status. If `out` fails, or there is no memory for a line, `err` gets that, and the status is 4. If a write to `err`
/// fails, nothing more happens.
pub fn report<O: ByteSink, E: ByteSink>(
    alloc: Global,
    answer: Result<Verdict, JudgeFault>,
    out: &mut O,
    err: &mut E,
) -> u8
    ensures verdict { result < 2
        → IsOkAnd answer (IsPrinted (O.contents out.old) (O.contents out.new) result) }
    ensures begun { IfOk answer (λ verdict.
        TakesBeginning (O.contents out.old) (O.contents out.new) (line (verdict_text verdict))) }
    ensures refused { OnErr answer (out.new ≡ out.old) }
    ensures told { IfErr answer (λ fault.
        Takes (sink_of E.contents E.failed err.old) (sink_of E.contents E.failed err.new) (refused_line fault)
        ⊎ Takes (sink_of E.contents E.failed err.old) (sink_of E.contents E.failed err.new) no_memory_line) }
    ensures quiet { result < 2 → err.new ≡ err.old }
    ensures status { 2 ≤ result → IsRefusedStatus result answer }
{
    match answer {
        Ok(verdict) => match format!(in alloc; "{verdict}\n") {
            Ok(line) => match write_all(out, line.as_bytes()) {
                Ok(()) => verdict.status(),
                Err(_) => complain(err, "refused: output: 29 Write\n"),
            },
            Err(_) => complain(err, "refused: 10 OutOfMemory\n"),
        },
        Err(fault) => match format!(in alloc; "refused: {fault}\n") {
            Ok(line) => {
                let _ = write_all(err, line.as_bytes());
                fault.status()
            }
            Err(_) => complain(err, "refused: 10 OutOfMemory\n"),
        },
    }
}

/// Tells why nothing could be printed, and answers 4.
fn complain<E: ByteSink>(err: &mut E, text: &str) -> u8
    ensures status { result ≡ 4 }
    ensures told { Takes (sink_of E.contents E.failed err.old) (sink_of E.contents E.failed err.new) text.now }
{
    let _ = write_all(err, text.as_bytes());
    4
}
