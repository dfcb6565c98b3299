//! A line as its manager has it, and the entries of a slice's history.

use line_stamps::{Line, Message, Reply};
use mem_op::{Addr, CoreId};

/// A line as the slice that manages it has it.
#[derive(Clone, Copy, Debug, PartialEq, Eq)]
pub enum ManagedLine {
    /// The line itself: any core may have a copy.
    Shared(Line),
    /// The core that owns the line. Only this core knows its word and stamps.
    Exclusive(CoreId),
}

/// An entry of a slice's history.
#[derive(Clone, Copy, Debug, PartialEq, Eq)]
pub enum HistoryEntry {
    /// The Shared line of this address went to memory.
    Evicted(Addr),
    /// The slice answered this core's message with this reply, which isn't Busy.
    Served(CoreId, Message, Reply),
}
