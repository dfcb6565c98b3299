//! Stamps, ranks and keys; lines with their stamps; the messages between cores and slices.
#![tactic(auto)]

mod fault;
mod key;
mod laws;
mod line;
mod message;
mod rank;
mod stamp;

pub use fault::StampFault;
pub use key::Key;
pub use laws::{keys_are_totally_ordered, least_of_joined_lists, tied_keys_are_one};
pub use line::{Line, LineStamps};
pub use message::{Message, Recall, RecallKind, Reply};
pub use rank::Rank;
pub use stamp::Stamp;
