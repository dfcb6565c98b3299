//! Which store a load that breaks a rule points to.

ghost use Rattle.std.specs.Prelude.{◌≡◌, ◌≤◌, length};
ghost use Rattle.std.specs.Option.{option_copied};
ghost use Rattle.explain.specs.Culprits.{culprit, first_over, has_word, is_over, same_word};

use super::acts::named_id;
use address_check::is_store;
use log_record::Entry;

/// Whether an operation is a store that comes after this one by key; after the initial 0 each does.
fn is_over(store: Option<&Entry>, entry: &Entry) -> bool
    ensures { result ≡ is_over (option_copied store.entry) entry.now }
{
    match store {
        Some(store) => is_store(entry) && store.key() < entry.key(),
        None => is_store(entry),
    }
}

/// The first store, by key, over this one, or over the initial 0, before a place.
fn first_over(group: &[Entry], place: usize, store: Option<&Entry>) -> Option<Entry>
    requires { place ≤ length group.now }
    ensures { result ≡ first_over group.now place (option_copied store.entry) }
{
    for entry in &group[..place] {
        if is_over(store, entry) {
            return Some(*entry);
        }
    }
    None
}

/// The first store, by key, that wrote over what the load at a place read, which names this record; none if that isn't a store at its
/// address.
pub(crate) fn culprit(
    group: &[Entry],
    place: usize,
    load: &Entry,
    named: &Option<Entry>,
) -> Option<Entry>
    requires { place ≤ length group.now }
    ensures { result ≡ culprit group.now place load.now named.now }
{
    match named {
        Some(store) if is_store(store) && store.logged.addr == load.logged.addr => {
            first_over(group, place, Some(store))
        }
        None if named_id(load).is_none() => first_over(group, place, None),
        _ => None,
    }
}

/// Whether an operation is a store that left the word which a load read.
fn has_word(load: &Entry, entry: &Entry) -> bool
    ensures { result ≡ has_word load.now entry.now }
{
    is_store(entry) && entry.logged.value == load.logged.word_answered()
}

/// The last store before a place that left the word which a load read.
pub(crate) fn same_word(group: &[Entry], place: usize, load: &Entry) -> Option<Entry>
    requires { place ≤ length group.now }
    ensures { result ≡ same_word group.now place load.now }
{
    let mut last = None;
    for entry in &group[..place] {
        if has_word(load, entry) {
            last = Some(*entry);
        }
    }
    last
}
