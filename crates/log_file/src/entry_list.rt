//! A list with the entries of one core after those of others.

ghost use Rattle.std.specs.Prelude.{◌≡◌, ◌++◌, []};
ghost use Rattle.log_record.specs.Entries.{core_entries};

use super::record_list::RecordList;
use log_record::{Entry, Record};
use mem_op::{CoreId, OpId, OpIndex};
use std::alloc::AllocError;
use std::marker::Model;

/// Keeps the records of one core as entries, after those that were there before.
#[derive(Drop)]
pub(crate) struct EntryList {
    core: CoreId,
    /// How many entries were there before.
    start: usize,
    entries: Vec<Entry>,
}

impl Model for EntryList {
    ghost use Rattle.log_file.specs.inner.Listing.{Listing};

    ghost Value = { Listing };

    ghost use Rattle.log_file.specs.inner.EntryKeeping.{listing_of, keeps_listing};

    ghost view = { listing_of };

    ghost invariant = { keeps_listing };
}

impl EntryList {
    /// A list that has these entries and no record of this core yet.
    pub(crate) fn after(core: CoreId, entries: Vec<Entry>) -> EntryList
        ensures { result ≡ record { base = record { core = core; before = entries.items }; records = [] } }
    {
        EntryList {
            core,
            start: entries.len(),
            entries,
        }
    }

    /// The entries that were there before, then those of the records.
    pub(crate) fn into_entries(self) -> Vec<Entry>
        ensures { result.items ≡ self.base.before ++ core_entries self.base.core 0 self.records }
    {
        self.entries
    }
}

impl RecordList for EntryList {
    ghost records = { λ list. list.records };

    ghost base = { λ list. list.base };

    #[inline(always)]
    fn keep(&mut self, logged: Record) -> Result<(), AllocError> {
        let index = OpIndex::at(self.entries.len() - self.start);
        let id = OpId {
            core: self.core,
            index,
        };
        self.entries.push(Entry { logged, id })?;
        Ok(())
    }
}
