//! The entries of a core's transcript.

use line_stamps::{Message, Reply};
use mem_op::Addr;

/// An entry of a core's transcript.
#[derive(Clone, Copy, Debug, PartialEq, Eq)]
pub enum CoreEntry {
    /// The core performed the next operation, and incremented its stamp if that was due.
    Performed,
    /// The core dropped the Shared line of this address.
    Dropped(Addr),
    /// The core gave an Exclusive line back by this message.
    Gave(Message),
    /// The core took this reply to this message. The reply isn't Busy.
    Got(Message, Reply),
    /// The core incremented its stamp of its own accord.
    Bumped,
}
