//! The recalls that wait for a core.

ghost use Rattle.std.specs.Prelude.{◌≡◌, max, IfOk, IfErr};

use crossbeam_queue::ArrayQueue;
use line_stamps::Recall;
use std::alloc::{AllocError, Global};
use std::sync::Wait;

/// The recalls that wait for a core. Any thread may offer them, and the core's own thread takes them. A recall is a hint: no
/// promise rests on its delivery or order.
#[derive(Drop)]
pub struct Inbox {
    queue: ArrayQueue<Recall>,
}

impl Inbox {
    ghost use Rattle.inbox.specs.Capacity.{capacity_of};

    /// An empty inbox, for at most this many recalls; a capacity of 0 counts as 1. Only 10 OutOfMemory may come.
    pub fn new(alloc: Global, capacity: usize) -> Result<Inbox, AllocError>
        ensures { IfOk result (λ inbox. capacity_of inbox ≡ max 1 capacity) }
    {
        Ok(Inbox {
            queue: ArrayQueue::new(alloc, capacity.max(1))?,
        })
    }

    /// Leaves a recall for the core. If the inbox is full, the recall comes back.
    pub fn offer<R: Wait>(&self, rt: &R, recall: Recall) -> Result<(), Recall>
        ensures { IfErr result (λ refused. refused ≡ recall) }
    {
        self.queue.push(rt, recall)
    }

    /// Takes the recall that has waited longest, if one waits.
    pub fn poll<R: Wait>(&self, rt: &R) -> Option<Recall> {
        // Mostly no recall waits, and two loads show that.
        if self.queue.is_empty() {
            return None;
        }
        self.queue.pop(rt)
    }
}
