//! What operations of each kind are. Nothing else of this crate looks at an act.

ghost use Rattle.std.specs.Prelude.{◌≡◌};
ghost use Rattle.std.specs.Option.{option_copied};
ghost use Rattle.address_check.specs.AddressFaults.{broken_rule};
ghost use Rattle.explain.specs.Times.{rule_with};
ghost use Rattle.explain.specs.Culprits.{named_id};

use address_check::{AddressRule, broken_by};
use log_record::{Act, Entry};
use mem_op::{OpId, Source, Word};

/// The id that the source of an operation names; none if that is the initial 0, or there is no source.
pub fn named_id(entry: &Entry) -> Option<OpId>
    ensures { result ≡ named_id entry.now.logged.act }
{
    match &entry.logged.act() {
        Act::Load(Source::Store(id)) | Act::Swap(Source::Store(id), _) => Some(*id),
        Act::Load(Source::Init) | Act::Swap(Source::Init, _) | Act::Store => None,
    }
}

/// The rule that a read of a word breaks, with this source, if it should read this store, or with none the initial 0.
fn broken_with(source: &Source, read: Word, store: Option<&Entry>) -> Option<AddressRule>
    ensures { result ≡ broken_rule source.now read (option_copied store.entry) }
{
    match store {
        Some(store) => broken_by(source, read, &Source::Store(store.id), store.logged.value),
        None => broken_by(source, read, &Source::Init, 0),
    }
}

/// The rule that an operation breaks where it should read this store, or with none the initial 0.
pub(crate) fn rule_with(entry: &Entry, store: Option<&Entry>) -> Option<AddressRule>
    ensures { result ≡ rule_with entry.now (option_copied store.entry) }
{
    match &entry.logged.act() {
        Act::Load(source) => broken_with(source, entry.logged.value, store),
        Act::Store => None,
        Act::Swap(source, read) => broken_with(source, *read, store),
    }
}

/// The name of an operation's kind.
pub fn kind_name(entry: &Entry) -> &'static str {
    match &entry.logged.act() {
        Act::Store => "store",
        Act::Load(_) => "load",
        Act::Swap(..) => "swap",
    }
}

/// How many of the operations are of the kind of this name.
pub(crate) fn count_of(entries: &[Entry], kind: &str) -> usize {
    entries
        .iter()
        .filter(|entry| kind_name(entry) == kind)
        .count()
}
