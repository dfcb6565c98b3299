//! The pass over records by address and then by key.

ghost use Rattle.std.specs.Prelude.{◌≡◌, option_copied};
ghost use Rattle.log_record.specs.declared.record.Entry.{Entry};
ghost use Rattle.address_check.specs.AddressFaults.{is_store, least_address_fault, fault_by, broken_by, broken_rule, act_fault};
ghost use Rattle.address_check.specs.Groups.{AscendsByPlace, IsGroup};
ghost use Rattle.address_check.specs.LastStores.{at_its_address};

use super::fault::{AddressFault, AddressRule};
use super::local_check::lesser_fault;
use log_record::{Act, Entry};
use mem_op::{Source, Word};

/// Whether an act writes the word of its address.
fn writes(act: &Act) -> bool
    ensures { result ≡ is_store act.now }
{
    match act {
        Act::Load(_) => false,
        Act::Store | Act::Swap(..) => true,
    }
}

/// Whether an operation writes the word of its address.
pub fn is_store(entry: &Entry) -> bool
    ensures { result ≡ is_store entry.now.logged.act }
{
    writes(&entry.logged.act())
}

/// The rule that a read of a word breaks, with this source, if its address has the word `word`, which
/// comes from `from`.
pub fn broken_by(source: &Source, read: Word, from: &Source, word: Word) -> Option<AddressRule>
    ensures { result ≡ broken_by source.now read from.now word }
{
    let named = match (source, from) {
        (Source::Init, Source::Init) => true,
        (Source::Store(id), Source::Store(other)) => *id == *other,
        _ => false,
    };
    if !named {
        Some(AddressRule::Source)
    } else if read != word {
        Some(AddressRule::Value)
    } else {
        None
    }
}

/// The rule that a read of a word breaks, with this source, if `right` is the store that it should have
/// read.
fn broken_rule(source: &Source, read: Word, right: Option<&Entry>) -> Option<AddressRule>
    ensures { result ≡ broken_rule source.now read (option_copied right.entry) }
{
    match right {
        Some(store) => broken_by(source, read, &Source::Store(store.id), store.logged.value),
        None => broken_by(source, read, &Source::Init, 0),
    }
}

/// The rule that an operation with this act breaks, if `last` is the last store before it by address and then by key.
/// That is its right store, if it is at the same address.
fn entry_rule(entry: &Entry, act: &Act, last: Option<&Entry>) -> Option<AddressRule>
    requires { act.now ≡ entry.now.logged.act }
    ensures { fault_by entry.now result
        ≡ act_fault entry.now.logged.act entry.now (at_its_address entry.now (option_copied last.entry)) }
{
    let right = last.filter(|store| store.logged.addr == entry.logged.addr);
    match act {
        Act::Load(source) => broken_rule(source, entry.logged.value, right),
        Act::Store => None,
        Act::Swap(source, read) => broken_rule(source, *read, right),
    }
}

/// The fault with the least key among records by address and then by key. It looks at each record once.
pub(crate) fn part_fault(part: &[Entry]) -> Option<AddressFault>
    requires { AscendsByPlace part.now }
    ensures { result ≡ least_address_fault part.now }
{
    let mut least = None;
    let mut last = None;
    for entry in part {
        // Making the act takes some work, so it is done once.
        let act = entry.logged.act();
        if let Some(rule) = entry_rule(entry, &act, last) {
            let key = entry.key();
            least = lesser_fault(least, Some(AddressFault { key, rule }));
        }
        if writes(&act) {
            last = Some(entry);
        }
    }
    least
}

/// The fault with the least key among the records of one address, which stand in the order of their keys.
pub fn group_fault(group: &[Entry]) -> Option<AddressFault>
    requires { IsGroup group.now }
    ensures { result ≡ least_address_fault group.now }
{
    part_fault(group)
}
