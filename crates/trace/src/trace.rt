//! The operations of the cores.

ghost use Rattle.std.specs.Prelude.{◌≡◌, ◌<◌, ◌≤◌, ◌↔◌, [], All, IsTrue, IfErr, IfOk, IfSome, OnOk, OnErr, length, vec_len};
ghost use Rattle.mem_op.specs.Consistency as consistency;
ghost use Rattle.mem_op.specs.Limits.{operation_limit};
ghost use Rattle.flat_replay.specs.Accesses.{operation_lists};
ghost use Rattle.flat_replay.specs.Accesses.{own_operations};
ghost use Rattle.trace.specs.Growing.{with_operation, IsOfSize, IsRefusal, IsRefusalOfAll, SameOperations};
ghost use Rattle.trace.specs.Texts.{with_line};
ghost use Rattle.trace.specs.inner.Taking.{IsLineRefusal};
ghost use Rattle.trace.specs.inner.Widening.{IsWidened};

use super::line::TraceLine;
use super::refusal::TraceFull;
use super::written::Written;
use flat_replay::{Access, operation_at};
use mem_op::{CoreId, OpId};
use std::alloc::{AllocError, Global};
use std::marker::Model;

/// How many cores there are at most.
const CORE_LIMIT: usize = 64;

/// How many operations a core has at most.
const OPERATION_LIMIT: usize = 1_048_576;

/// Whether each core has at most 1,048,576 operations.
fn are_short(cores: &[Vec<Access>]) -> bool
    ensures { IsTrue result ↔ All (λ core. vec_len core ≤ operation_limit) cores.now }
{
    cores.iter().all(|core| core.len() <= OPERATION_LIMIT)
}

/// Cores of no operation after the others, until one is at the place.
#[tactic(auto, using(crate::proofs::Growth::IsWidened_refl, crate::proofs::Growth::IsWidened_push))]
fn widen(alloc: Global, cores: &mut Vec<Vec<Access>>, place: usize) -> Result<(), AllocError>
    requires { place < 64 }
    ensures there { OnOk result (place < vec_len cores.new) }
    ensures widened { IsWidened place (operation_lists cores.old.items) (operation_lists cores.new.items) }
    ensures few { vec_len cores.old ≤ 64 → vec_len cores.new ≤ 64 }
{
    while cores.len() <= place {
        cores.push(Vec::new(alloc))?;
    }
    Ok(())
}

/// One more operation of the core at a place that is there.
#[tactic(auto, using(crate::proofs::Growth::lists_set, crate::proofs::Growth::lists_kept))]
fn push_at(cores: &mut Vec<Vec<Access>>, place: usize, access: Access) -> Result<(), AllocError>
    requires { place < vec_len cores.old }
    ensures pushed { OnOk result
        (operation_lists cores.new.items ≡ with_operation place access (operation_lists cores.old.items)) }
    ensures kept { OnErr result (operation_lists cores.new.items ≡ operation_lists cores.old.items) }
{
    cores[place].push(access)?;
    Ok(())
}

/// The operations of each core in program order: at most 64 cores, each with at most 1,048,576 operations.
#[derive(Debug, Drop)]
pub struct Trace {
    cores: Vec<Vec<Access>>,
    written: Written,
    alloc: Global,
}

impl Model for Trace {
    ghost use Rattle.std.specs.Prelude.{List};
    ghost use Rattle.mem_op.specs.Consistency.{Operation};
    ghost use Rattle.flat_replay.specs.Accesses.{operation_lists};
    ghost use Rattle.trace.specs.Growing.{IsOfSize};

    ghost Value = { List (List Operation) };

    ghost view = { λ t. operation_lists t.cores.items };

    ghost invariant = { λ t. IsOfSize (operation_lists t.cores.items) };
}

impl Trace {
    /// The trace of no core.
    pub fn new(alloc: Global) -> Trace
        ensures { result ≡ [] }
    {
        Trace {
            cores: Vec::new(alloc),
            written: Written::new(alloc),
            alloc,
        }
    }

    /// The trace of these operations, core 0's first; 23 TooMany if there are more than 64 cores, or one has more than
    /// 1,048,576.
    #[tactic(auto, using(crate::proofs::Growth::size_is))]
    pub fn of(alloc: Global, cores: Vec<Vec<Access>>) -> Result<Trace, TraceFull>
        ensures trace { IfOk result (λ trace. trace ≡ operation_lists cores.items) }
        ensures refused { IfErr result (IsRefusalOfAll (operation_lists cores.items)) }
    {
        if cores.len() > CORE_LIMIT || !are_short(&cores) {
            return Err(TraceFull::TooMany);
        }
        Ok(Trace {
            cores,
            written: Written::new(alloc),
            alloc,
        })
    }

    /// The same operations, written one after the other by these cores.
    pub fn written_by(self, cores: Vec<CoreId>) -> Trace
        ensures { result ≡ self }
    {
        let written = Written::by(self.alloc, cores);
        Trace { written, ..self }
    }

    /// The operations in the order in which they were pushed, or their lines stood, or `written_by` says that they were written; if lines
    /// tell when operations ended, in that order. Nothing is promised of it. Err if memory was refused.
    pub fn as_written(&self, alloc: Global) -> Result<Vec<OpId>, AllocError> {
        self.written.order(alloc)
    }

    /// The operations of each core, core 0's first.
    pub fn cores(&self) -> &[Vec<Access>]
        ensures value { operation_lists result.now ≡ self.now }
        ensures size { IsOfSize self.now }
    {
        &self.cores
    }

    /// The operation of an id.
    pub fn operation(&self, id: &OpId) -> Option<Access>
        ensures found { result ≡ consistency.operation_at self.now id.now }
        ensures within { IfSome result (λ _. id.now.core < length self.now) }
    {
        operation_at(&self.cores, id)
    }

    /// How many operations a core has; 0 if the trace doesn't name it.
    fn count(&self, core: CoreId) -> usize
        ensures { result ≡ length (own_operations self.now core) }
    {
        match self.cores.get(core.get() as usize) {
            Some(operations) => operations.len(),
            None => 0,
        }
    }

    /// Adds an operation of a core after its others. If the core isn't there yet, it comes, and the cores before it. 23 TooMany if
    /// the core has 1,048,576 operations, and 10 OutOfMemory if memory was refused; then the operations stay as they were.
    #[tactic(auto, using(crate::proofs::Growth::size_of_widened, crate::proofs::Growth::size_with, crate::proofs::Growth::length_lists))]
    pub fn push(&mut self, core: CoreId, access: Access) -> Result<(), TraceFull>
        ensures pushed { OnOk result (self.new ≡ with_operation core access self.old) }
        ensures refused { IfErr result (IsRefusal core self.old) }
        ensures kept { OnErr result (SameOperations self.old self.new) }
        ensures size { OnOk result (IsOfSize self.new) }
    {
        if self.count(core) >= OPERATION_LIMIT {
            return Err(TraceFull::TooMany);
        }
        let place = core.get() as usize;
        widen(self.alloc, &mut self.cores, place)?;
        self.written.push(core)?;
        if let Err(refusal) = push_at(&mut self.cores, place, access) {
            self.written.pop();
            return Err(TraceFull::from(refusal));
        }
        Ok(())
    }

    /// Adds what one more line says.
    pub(crate) fn add(&mut self, line: &[u8], said: TraceLine) -> Result<(), TraceFull>
        ensures added { OnOk result (self.new ≡ with_line self.old said) }
        ensures refused { IfErr result (IsLineRefusal self.old said) }
        ensures size { OnOk result (IsOfSize self.new) }
    {
        let _cores = &self.cores;
        match said {
            TraceLine::Nothing => Ok(()),
            TraceLine::Performs(core, access) => {
                self.push(core, access)?;
                self.written.end(line)?;
                Ok(())
            }
        }
    }
}
