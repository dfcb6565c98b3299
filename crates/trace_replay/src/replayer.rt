//! Operations performed one after another on one memory.

ghost use Rattle.std.specs.Prelude.{◌≡◌, ◌≢◌, ◌<◌, ◌++◌, ◌∷◌, [], List, Some, IfOk, IfSome, MatchOption, MatchResult, length};
ghost use Rattle.flat_replay.specs.Memory.{IsAnsweredBy, word_at};
ghost use Rattle.trace_replay.specs.Steps.{Step, next_step};
ghost use Rattle.trace_replay.specs.States.{IsWrong, StandsFor, counted};
ghost use Rattle.trace_replay.specs.inner.Wrong.{IsWrongIn};

use super::step_id::StepId;
use super::wrong_load::WrongLoad;
use flat_replay::{Access, Memory};
use mem_op::CoreId;
use std::alloc::{AllocError, Global};

/// What cores have performed, each operation on the memory that those before it left.
#[derive(Drop)]
pub struct Replayer {
    /// How many operations each core has performed.
    counts: [u64; 64],
    /// What they left.
    memory: Memory<StepId>,
    /// How many operations were performed.
    count: u64,
}

impl Replayer {
    /// Nothing was performed.
    pub fn new(alloc: Global) -> Replayer
        ensures { StandsFor result [] }
    {
        Replayer {
            counts: [0; 64],
            memory: Memory::new(alloc),
            count: 0,
        }
    }

    /// How many operations were performed.
    pub fn count(&self) -> u64
        ensures { (steps : List Step) → StandsFor self.now steps → result ≡ counted (length steps) }
    {
        self.count
    }

    /// The id of a core's next operation.
    pub(crate) fn next_id(&self, core: CoreId) -> StepId {
        StepId {
            core,
            index: self.counts[core.get() as usize],
        }
    }

    /// What is wrong with the operation of this id, if it may not come next.
    fn wrong_load(&self, id: StepId, access: &Access) -> Option<WrongLoad>
        ensures { MatchOption result
            (IsAnsweredBy (word_at self.now.memory) access.now)
            (IsWrongIn self.now.memory id access.now) }
    {
        let read = access.read()?;
        if self.memory.answers(access) {
            return None;
        }
        let addr = access.addr();
        Some(WrongLoad {
            id,
            addr,
            read,
            last: self.memory.last(addr),
        })
    }

    /// Performs the next operation of a core. A load or a swap that didn't read the word at its address isn't performed:
    /// this tells what is wrong with it. Err if memory was refused.
    pub fn step(&mut self, core: CoreId, access: &Access) -> Result<Option<WrongLoad>, AllocError>
        ensures performed { (steps : List Step) → StandsFor self.old steps → IfOk result (λ wrong. MatchOption wrong
            (StandsFor self.new (steps ++ next_step steps core access.now ∷ []))
            (IsWrong steps core access.now)) }
        // What isn't performed leaves the state as it was.
        ensures kept { (steps : List Step) → StandsFor self.old steps → MatchResult result
            (λ wrong. IfSome wrong (λ _. StandsFor self.new steps))
            (λ _. StandsFor self.new steps) }
    {
        let place = core.get() as usize;
        let index = self.counts[place];
        let id = StepId { core, index };
        if let Some(wrong) = self.wrong_load(id, access) {
            return Ok(Some(wrong));
        }
        self.memory.perform(access, id)?;
        self.counts[place] = index.saturating_add(1);
        self.count = self.count.saturating_add(1);
        Ok(None)
    }
}
