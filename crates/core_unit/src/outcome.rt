//! The outcome of an event.

use line_stamps::{Message, Recall, Reply};
use mem_op::{Addr, OpId};

/// The outcome of an event.
#[derive(Clone, Copy, Debug, PartialEq, Eq)]
pub enum Outcome {
    /// The core performed this operation.
    Performed(OpId),
    /// The core dropped the Shared line of this address.
    Dropped(Addr),
    /// A turn took this message in hand.
    Sent(Message),
    /// The program has ended.
    Ended,
    /// The core took the reply.
    Took,
    /// The reply was Busy: the caller should offer this recall, and a turn makes the request again.
    Busy(Recall),
    /// A recall or an eviction took this give-back in hand.
    Gave(Message),
    /// The core incremented its stamp.
    Bumped,
    /// A slice answered the message in hand with this reply.
    Served(Reply),
    /// A slice's Shared line went to memory.
    Spilled,
    /// The event doesn't apply, and nothing changed.
    NoEffect,
}
