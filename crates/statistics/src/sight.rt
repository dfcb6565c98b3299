//! The sights that the columns count: the entries of a core's transcript, with what the columns need of its past, and those of a
//! slice's history.

ghost use Rattle.std.specs.Prelude.{◌≡◌, ◌+◌, ◌≤◌};
ghost use Rattle.manager_slice.specs.Limits.{entry_limit};
ghost use Rattle.manager_slice.specs.Messages.{is_request};
ghost use Rattle.statistics.specs.Sights.{act_at, past_after, sight_of};

use core_unit::CoreEntry;
use line_stamps::Message;
use log_record::{Act, Record};
use manager_slice::HistoryEntry;

/// A sight that columns count.
#[derive(Clone, Copy, Debug, PartialEq, Eq)]
pub(crate) enum Sight {
    /// A core performed an operation. `came` says whether a line came since the operation before, and `due` whether a period ended
    /// with it.
    Operation { act: Act, came: bool, due: bool },
    /// Another entry of a core.
    Core(CoreEntry),
    /// An entry of a slice.
    Slice(HistoryEntry),
}

/// What the columns need of a core's past.
#[derive(Clone, Copy, Debug, Default, PartialEq, Eq)]
pub(crate) struct Past {
    /// How many operations it has performed.
    pub(crate) done: usize,
    /// Whether a line has come since the last of them.
    pub(crate) came: bool,
}

impl Past {
    /// What is seen of an entry.
    pub(crate) fn sight_of(self, entry: &CoreEntry, log: &[Record], period: u64) -> Sight
        requires period { 1 ≤ period }
        requires few { self.done ≤ entry_limit }
        ensures { result ≡ sight_of period log.now self entry.now }
    {
        match entry {
            CoreEntry::Performed => Sight::Operation {
                act: act_at(log, self.done),
                came: self.came,
                due: (self.done as u64 + 1) % period == 0,
            },
            _ => Sight::Core(*entry),
        }
    }

    /// The past after one entry more. The reply to a give-back brings no line.
    pub(crate) fn after(self, entry: &CoreEntry) -> Past
        requires { self.done ≤ entry_limit }
        ensures value { result ≡ past_after self entry.now }
        ensures steps { result.done ≤ self.done + 1 }
    {
        match entry {
            CoreEntry::Performed => Past {
                done: self.done + 1,
                came: false,
            },
            CoreEntry::Got(message, _) => Past {
                done: self.done,
                came: is_request(message) || self.came,
            },
            _ => self,
        }
    }
}

/// Whether a message is a request. The others give a line back.
pub(crate) fn is_request(message: &Message) -> bool
    ensures { result ≡ is_request message.now }
{
    matches!(message, Message::ShReq { .. } | Message::ExReq { .. })
}

// The act of the operation at a place of a log. A log has a record for each operation, by `logs_are_counted`.
fn act_at(log: &[Record], place: usize) -> Act
    ensures { result ≡ act_at log.now place }
{
    match log.get(place) {
        Some(record) => record.act(),
        None => Act::Store,
    }
}
