//! Events.

use line_stamps::Recall;
use mem_op::{Addr, CoreId};

/// An event of the core machine. Any list of events is a run.
#[derive(Clone, Copy, Debug, PartialEq, Eq)]
pub enum Event {
    /// The core makes a turn.
    Turn(CoreId),
    /// A slice serves the core's message in hand.
    Serve(CoreId),
    /// The core takes the reply that the machine keeps for it.
    Take(CoreId),
    /// The core gets this recall.
    Recall(CoreId, Recall),
    /// The core evicts the line of this address.
    Evict(CoreId, Addr),
    /// The slice of this address evicts its line, if it is Shared.
    Spill(Addr),
    /// The core increments its stamp.
    Increment(CoreId),
}
