//! The columns of the table: the name of each, and what it counts.

ghost use Rattle.std.specs.Prelude.{◌≡◌, ◌<◌};
ghost use Rattle.statistics.specs.Columns as columns;

use super::sight::{Sight, is_request};
use core_unit::CoreEntry;
use line_stamps::{Message, Reply};
use log_record::Act;
use manager_slice::HistoryEntry;

/// A column of the table.
#[derive(Clone, Copy, Debug, PartialEq, Eq)]
pub enum Column {
    Operations,
    Loads,
    Stores,
    Swaps,
    Hits,
    ShReq,
    ExReq,
    Renewals,
    Upgrades,
    WbRep,
    FlushRep,
    Dropped,
    SelfIncrements,
    Pts,
    Requests,
    GiveBacks,
    Evictions,
    Mts,
    PrivateWrites,
    Rank,
}

/// How many columns there are.
pub(crate) const COLUMN_COUNT: usize = 20;

/// The columns, in their order.
pub(crate) const COLUMNS: [Column; COLUMN_COUNT] = [
    Column::Operations,
    Column::Loads,
    Column::Stores,
    Column::Swaps,
    Column::Hits,
    Column::ShReq,
    Column::ExReq,
    Column::Renewals,
    Column::Upgrades,
    Column::WbRep,
    Column::FlushRep,
    Column::Dropped,
    Column::SelfIncrements,
    Column::Pts,
    Column::Requests,
    Column::GiveBacks,
    Column::Evictions,
    Column::Mts,
    Column::PrivateWrites,
    Column::Rank,
];

/// The column at a place.
#[tactic(auto, unfolding(crate::specs::Columns::column_at))]
pub(crate) fn column_at(place: usize) -> Column
    requires { place < COLUMN_COUNT }
    ensures { result ≡ columns.column_at place }
{
    COLUMNS[place]
}

impl Column {
    /// Its name.
    pub(crate) fn name(self) -> &'static str
        ensures { result.now ≡ columns.column_name self }
    {
        match self {
            Column::Operations => "operations",
            Column::Loads => "loads",
            Column::Stores => "stores",
            Column::Swaps => "swaps",
            Column::Hits => "hits",
            Column::ShReq => "sh_req",
            Column::ExReq => "ex_req",
            Column::Renewals => "renewals",
            Column::Upgrades => "upgrades",
            Column::WbRep => "wb_rep",
            Column::FlushRep => "flush_rep",
            Column::Dropped => "dropped",
            Column::SelfIncrements => "self_increments",
            Column::Pts => "pts",
            Column::Requests => "requests",
            Column::GiveBacks => "give_backs",
            Column::Evictions => "evictions",
            Column::Mts => "mts",
            Column::PrivateWrites => "private_writes",
            Column::Rank => "rank",
        }
    }

    /// Whether it has a number for each slice. Any other column has one for each core.
    pub(crate) fn is_of_slices(self) -> bool
        ensures { result ≡ columns.is_of_slices self }
    {
        matches!(
            self,
            Column::Requests | Column::GiveBacks | Column::Evictions | Column::Mts
        )
    }

    /// Whether it tells a stamp or a rank. Any other column counts sights.
    pub(crate) fn is_greatest(self) -> bool
        ensures { result ≡ columns.is_greatest self }
    {
        matches!(self, Column::Pts | Column::Mts | Column::Rank)
    }

    /// Whether it counts this sight. The columns of stamps and ranks count nothing.
    pub(crate) fn counts(self, sight: &Sight) -> bool
        ensures { result ≡ columns.counts self sight.now }
    {
        match sight {
            Sight::Operation { act, came, due } => self.counts_operation(*act, *came, *due),
            Sight::Core(entry) => self.counts_entry(entry),
            Sight::Slice(entry) => self.counts_service(entry),
        }
    }

    // Whether it counts an operation.
    fn counts_operation(self, act: Act, came: bool, due: bool) -> bool
        ensures { result ≡ columns.counts self (Sight.Operation act came due) }
    {
        match self {
            Column::Operations => true,
            Column::Loads => matches!(act, Act::Load(_)),
            Column::Stores => matches!(act, Act::Store),
            Column::Swaps => matches!(act, Act::Swap(..)),
            Column::Hits => !came,
            Column::SelfIncrements => due,
            Column::PrivateWrites => !came && !matches!(act, Act::Load(_)),
            _ => false,
        }
    }

    // Whether it counts another entry of a core.
    fn counts_entry(self, entry: &CoreEntry) -> bool
        ensures { result ≡ columns.counts self (Sight.Core entry.now) }
    {
        match self {
            Column::ShReq => matches!(entry, CoreEntry::Got(Message::ShReq { .. }, _)),
            Column::ExReq => matches!(entry, CoreEntry::Got(Message::ExReq { .. }, _)),
            Column::Renewals => matches!(
                entry,
                CoreEntry::Got(Message::ShReq { .. }, Reply::RenewRep(_))
            ),
            Column::Upgrades => matches!(
                entry,
                CoreEntry::Got(Message::ExReq { .. }, Reply::UpgradeRep(_))
            ),
            Column::WbRep => matches!(entry, CoreEntry::Got(Message::WbRep { .. }, _)),
            Column::FlushRep => matches!(entry, CoreEntry::Got(Message::FlushRep { .. }, _)),
            Column::Dropped => matches!(entry, CoreEntry::Dropped(_)),
            Column::SelfIncrements => matches!(entry, CoreEntry::Bumped),
            _ => false,
        }
    }

    // Whether it counts an entry of a slice.
    fn counts_service(self, entry: &HistoryEntry) -> bool
        ensures { result ≡ columns.counts self (Sight.Slice entry.now) }
    {
        match entry {
            HistoryEntry::Evicted(_) => matches!(self, Column::Evictions),
            HistoryEntry::Served(_, message, _) => match self {
                Column::Requests => is_request(message),
                Column::GiveBacks => !is_request(message),
                _ => false,
            },
        }
    }
}
