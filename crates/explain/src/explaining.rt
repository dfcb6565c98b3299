//! The explanation of a verdict.

ghost use Rattle.std.specs.Prelude.{List, IfOk, IfSome, IsSome};
ghost use Rattle.log_record.specs.declared.record.Record.{Record};
ghost use Rattle.explain.specs.Explanations.{Explains};
ghost use Rattle.explain.specs.inner.CoreFault.{IsCoreFault};
ghost use Rattle.verdict.specs.CoreFaultsOf.{given};
ghost use Rattle.verdict.specs.Bases.{IsExaminationOf};
ghost use Rattle.verdict.specs.declared.answer.Verdict.TheVariants.{No};
ghost use Rattle.verdict.specs.declared.basis.Basis.TheVariants.{Logs};

use super::departure::departure;
use super::explanation::Explanation;
use super::fall::fall;
use super::faults::falls;
use super::summary::summary;
use super::wrong_read::wrong_read;
use core_program::ProgramSet;
use std::alloc::{AllocError, Global};
use verdict::{Basis, Examined, Fault, LogSet, Rule, Verdict};

/// Why a core's log breaks a rule.
fn log_fault(
    alloc: Global,
    set: &LogSet,
    programs: Option<&ProgramSet>,
    fault: &Fault,
) -> Result<Option<Explanation>, AllocError>
    ensures found { IfOk result (λ why. IfSome why
        (Explains (given programs.entry) (No fault.now) (Logs set.now))) }
    ensures explained { IfOk result (λ why.
        IsCoreFault (given programs.entry) set.now fault.now → IsSome why) }
{
    let Some(log) = set.get(fault.id.core) else {
        return Ok(None);
    };
    match fault.rule {
        Rule::CoreOrder => match fall(alloc, log, fault.id, falls(alloc, set)?)? {
            Some(found) => Ok(Some(Explanation::CoreOrder(found))),
            None => Ok(None),
        },
        Rule::Program => match departure(alloc, programs, log, fault.id)? {
            Some(found) => Ok(Some(Explanation::Program(found))),
            None => Ok(None),
        },
        Rule::Source | Rule::Value => Ok(None),
    }
}

/// Why a set of logs, of this many cores, got its verdict: the record that breaks a rule with what stands around it, or, with a
/// Yes, what the records have. Whatever `examine` gives with these programs has an explanation. None comes only if the verdict and
/// what it stands on don't belong together.
pub fn explain(
    alloc: Global,
    examined: &Examined,
    programs: Option<&ProgramSet>,
    cores: usize,
) -> Result<Option<Explanation>, AllocError>
    ensures found { IfOk result (λ why.
        IfSome why
        (Explains (given programs.entry) examined.now.verdict examined.now.basis)) }
    // There is one where the verdict and what it stands on are those of the examination of some set.
    ensures explained { IfOk result (λ why. (logs : List (List Record))
        → IsExaminationOf (given programs.entry) logs examined.now → IsSome why) }
{
    match (&examined.verdict, &examined.basis) {
        (Verdict::No(fault), Basis::Index(index)) => match wrong_read(
            alloc, index, fault.id, fault.rule,
        )? {
            Some(found) => Ok(Some(Explanation::Load(found))),
            None => Ok(None),
        },
        (Verdict::No(fault), Basis::Logs(set)) => log_fault(alloc, set, programs, fault),
        (Verdict::Yes(_), Basis::Index(index)) => {
            Ok(Some(Explanation::Summed(summary(alloc, cores, index)?)))
        }
        (Verdict::Yes(_), Basis::Logs(_)) => Ok(None),
    }
}
