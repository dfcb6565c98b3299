//! What the times of a load that breaks a rule allow.

ghost use Rattle.std.specs.Prelude.{◌≡◌, ◌<◌, length};
ghost use Rattle.std.specs.Option.{is_none, option_copied};
ghost use Rattle.address_check.specs.AddressFaults.{is_earlier_store, right_store};
ghost use Rattle.address_check.specs.Groups.{IsGroup};
ghost use Rattle.explain.specs.Times.{is_right_earlier, is_right_later, is_tie, next_store, rule_with};

use super::acts::rule_with;
use address_check::is_store;
use log_record::Entry;

/// Whether stamp and rank of two operations of different cores are the same, so that the number of the core decides which
/// comes first.
pub fn ties(a: &Entry, b: &Entry) -> bool
    ensures { result ≡ is_tie a.now b.now }
{
    let (one, other) = (a.key(), b.key());
    one.ts == other.ts && one.rank == other.rank && one.core != other.core
}

/// Whether a load or a swap breaks no rule where it should read this store, or with none the initial 0.
pub(crate) fn is_right_with(load: &Entry, store: Option<&Entry>) -> bool
    ensures { result ≡ is_none (rule_with load.now (option_copied store.entry)) }
{
    rule_with(load, store).is_none()
}

/// Whether an operation is a store to the address of another one that comes before that by key.
fn is_earlier_store(other: &Entry, entry: &Entry) -> bool
    ensures { result ≡ is_earlier_store other.now entry.now }
{
    is_store(entry) && entry.logged.addr == other.logged.addr && entry.key() < other.key()
}

/// The last store before an operation by key, among those of its address.
pub(crate) fn right_store(group: &[Entry], entry: &Entry) -> Option<Entry>
    requires { IsGroup group.now }
    ensures { result ≡ right_store group.now entry.now }
{
    let mut last = None;
    for store in group {
        if is_earlier_store(entry, store) {
            last = Some(*store);
        }
    }
    last
}

/// The first store after a place.
pub(crate) fn store_after(group: &[Entry], place: usize) -> Option<Entry>
    requires { place < length group.now }
    ensures { result ≡ next_store group.now place }
{
    for entry in &group[place + 1..] {
        if is_store(entry) {
            return Some(*entry);
        }
    }
    None
}

/// Whether a load breaks no rule just before the store that it should read, which is this one if there is one, and which another core
/// made.
pub(crate) fn is_right_before(group: &[Entry], load: &Entry, right: &Option<Entry>) -> bool
    requires group { IsGroup group.now }
    requires right { right.now ≡ right_store group.now load.now }
    ensures { result ≡ is_right_earlier group.now load.now }
{
    let Some(right) = right else {
        return false;
    };
    let before = right_store(group, right);
    right.id.core != load.id.core && is_right_with(load, before.as_ref())
}

/// Whether a load breaks no rule just after the store that comes next, if another core made it.
pub(crate) fn is_right_after(load: &Entry, next: &Option<Entry>) -> bool
    ensures { result ≡ is_right_later load.now next.now }
{
    match next {
        Some(next) => next.id.core != load.id.core && is_right_with(load, Some(next)),
        None => false,
    }
}
