//! The items of a log.

ghost use Rattle.std.specs.Prelude.{◌≡◌, ℕ, List, length, map, option_map, slice_get};
ghost use Rattle.log_record.specs.declared.record.Record.{Record};

use log_record::{Entry, Record};

/// An item of a log: a record, with or without its id.
pub trait Logged {
    // The record of an item.
    ghost record_of: { Self → Record };

    // The records of a list of items.
    ghost records_of: { List Self → List Record };

    /// The record.
    fn logged(&self) -> &Record
        ensures { result.now ≡ record_of self.now };

    // A list has as many records as items.
    ghost as_many: { (items : List Self) → length (records_of items) ≡ length items };

    // At each index it has the record of the item there.
    ghost each: { (items : List Self) (i : ℕ) →
        slice_get (records_of items) i ≡ option_map record_of (slice_get items i) };
}

impl Logged for Record {
    ghost use Rattle.std.specs.Prelude.{refl};
    ghost use Rattle.std.proofs.Common.{sym};
    ghost use Rattle.std.proofs.lemmas.Iterator.Adapters.{option_map_id};

    ghost record_of = { λ r. r };

    ghost records_of = { λ log. log };

    fn logged(&self) -> &Record {
        self
    }

    ghost as_many = { λ log. refl };

    ghost each = { λ log i. sym (option_map_id (slice_get log i)) };
}

impl Logged for Entry {
    ghost use Rattle.std.proofs.lemmas.List.{length-map};
    ghost use Rattle.std.proofs.lemmas.Option.{slice_get-map};

    ghost record_of = { λ e. e.logged };

    ghost records_of = { λ log. map (λ e. e.logged) log };

    fn logged(&self) -> &Record {
        &self.logged
    }

    ghost as_many = { λ log. length-map log (λ e. e.logged) };

    ghost each = { λ log i. slice_get-map (λ e. e.logged) log i };
}
