//! The check of the logs of a set, each core alone.

ghost use Rattle.std.specs.Prelude.{◌≡◌, ◌<◌, ◌≤◌, ℕ, IfOk, length, refl};
ghost use Rattle.mem_op.specs.Limits.{operation_limit};
ghost use Rattle.line_stamps.specs.Ordered.{In};
ghost use Rattle.core_check.specs.CoreFaults.{order_faults};
ghost use Rattle.core_check.specs.FaultOrder.{core_fault_cmp};
ghost use Rattle.line_stamps.specs.Least.{least_of};
ghost use Rattle.verdict.specs.CoreFaultsOf.{core_faults, given, least_of_core, least_of_cores, faults_by_programs};
ghost use Rattle.verdict.specs.CoreLaw.{least_of_cores-joined};

use address_check::{Gate, LocalCheck, Phase, fault_by_workers, lesser_fault};
use core_check::{CoreRule, RuleFault, conforms, core_fault};
use core_program::ProgramSet;
use log_file::LogSet;
use mem_op::{CoreId, OpId, OpIndex};
use std::alloc::{AllocError, Global};
use std::thread::Threads;

/// The check of the logs of a set, against the programs of its cores if they are given.
#[derive(Clone, Copy)]
pub(crate) struct CoreCheck<'a> {
    logs: &'a LogSet,
    programs: Option<&'a ProgramSet>,
}

impl<'a> CoreCheck<'a> {
    /// The check of these logs.
    pub(crate) fn new(logs: &'a LogSet, programs: Option<&'a ProgramSet>) -> CoreCheck<'a>
        ensures logs { result.logs.now ≡ logs.now }
        ensures programs { given result.programs ≡ given programs.entry }
    {
        CoreCheck { logs, programs }
    }

    /// The cores of the set. Err if memory was refused.
    fn cores(&self, alloc: Global) -> Result<Vec<CoreId>, AllocError>
        ensures { IfOk result (λ cores. (core : ℕ) → core < length self.now.logs.now → In core cores.items) }
    {
        let mut cores = Vec::new(alloc);
        for number in 0..self.logs.len() {
            cores.push(CoreId::at(number))?;
        }
        Ok(cores)
    }

    /// The first place at which a core's log falls, if it does.
    fn order_fault(&self, core: CoreId) -> Option<RuleFault>
        ensures { result ≡ least_of_core (order_faults self.now.logs.now) core }
    {
        let index = core_fault(self.logs.get(core)?)?;
        Some(fault_at(CoreRule::CoreOrder, core, index))
    }

    /// The first place at which a core's log leaves its program, if there are programs and it does.
    fn program_fault(&self, core: CoreId) -> Option<RuleFault>
        ensures { result
            ≡ least_of_core (faults_by_programs (given self.now.programs) self.now.logs.now) core }
    {
        let program = self.programs?.get(core)?;
        let index = conforms(program, self.logs.get(core)?)?;
        Some(fault_at(CoreRule::Program, core, index))
    }

    /// The least fault of a core.
    fn fault_of_core(&self, core: CoreId) -> Option<RuleFault>
        ensures { result
            ≡ least_of_core (core_faults (given self.now.programs) self.now.logs.now) core }
    {
        lesser_fault(self.order_fault(core), self.program_fault(core))
    }

    /// The least core fault of the set, found by `workers` workers at once, 1 to 64. Each has whole cores.
    /// Err if memory was refused.
    pub(crate) fn least_fault<R: Threads + Sync, G: Gate + Sync>(
        &self,
        rt: &R,
        alloc: Global,
        gate: &G,
        workers: usize,
    ) -> Result<Option<RuleFault>, AllocError>
        requires some { 0 < workers }
        requires few { workers ≤ 64 }
        ensures { IfOk result (λ fault. fault
            ≡ least_of core_fault_cmp (core_faults (given self.now.programs) self.now.logs.now)) }
    {
        let cores = self.cores(alloc)?;
        let fault = fault_by_workers(rt, alloc, gate, Phase::Cores, self, &cores, workers)?;
        Ok(fault)
    }
}

/// The fault at an index of a core's log.
fn fault_at(rule: CoreRule, core: CoreId, index: usize) -> RuleFault
    requires { index < operation_limit }
    ensures { result ≡ record { rule = rule; id = record { core = core; index = index } } }
{
    let index = OpIndex::at(index);
    RuleFault {
        rule,
        id: OpId { core, index },
    }
}

// An item stands for the whole log of its core.
impl LocalCheck for CoreCheck<'_> {
    type Item = CoreId;

    type Fault = RuleFault;

    ghost fault_of = { λ check cores. least_of_cores (core_faults (given check.programs) check.logs.now) cores };

    fn fault(&self, cores: &[CoreId]) -> Option<RuleFault> {
        let mut least = None;
        for core in cores {
            least = lesser_fault(least, self.fault_of_core(*core));
        }
        least
    }

    ghost empty = { λ check. refl };

    ghost joined = { λ check xs ys. least_of_cores-joined (core_faults (given check.programs) check.logs.now) xs ys };
}
