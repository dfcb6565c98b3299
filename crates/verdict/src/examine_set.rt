//! The verdict on a set of logs, with what it stands on.

ghost use Rattle.std.specs.Prelude.{◌≡◌, IfOk, None};
ghost use Rattle.core_check.specs.CoreFaults.{least_core_fault};
ghost use Rattle.verdict.specs.CoreFaultsOf.{given};
ghost use Rattle.verdict.specs.Counts.{IsInRange};
ghost use Rattle.verdict.specs.Bases.{IsExaminationOf};

use super::answer::Verdict;
use super::basis::{Basis, Examined};
use super::cores::CoreCheck;
use super::fault::Fault;
use address_check::{AddressIndex, Gate};
use core_program::ProgramSet;
use log_file::LogSet;
use std::alloc::{AllocError, Global};
use std::thread::Threads;

/// The verdict on a set, against the programs of its cores if they are given, with what it stands
/// on: each core alone first, and if none has a fault, each address alone. Err if memory was
/// refused.
pub(crate) fn examine_set<R: Threads + Sync, G: Gate + Sync>(
    rt: &R,
    alloc: Global,
    programs: Option<&ProgramSet>,
    set: LogSet,
    workers: usize,
    gate: &G,
) -> Result<Examined, AllocError>
    requires workers { IsInRange workers }
    ensures { IfOk result (IsExaminationOf (given programs.entry) set) }
{
    let cores = CoreCheck::new(&set, programs);
    if let Some(fault) = cores.least_fault(rt, alloc, gate, workers)? {
        return Ok(Examined {
            verdict: Verdict::No(Fault::from(fault)),
            basis: Basis::Logs(set),
        });
    }
    let index = AddressIndex::of_entries(rt, set.into_entries());
    let verdict = match index.least_fault(rt, alloc, gate, workers)? {
        Some(fault) => Verdict::No(Fault::from(fault)),
        None => Verdict::Yes(index.all().len()),
    };
    Ok(Examined {
        verdict,
        basis: Basis::Index(index),
    })
}
