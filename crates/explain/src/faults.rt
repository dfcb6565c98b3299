//! How many records of a set break a rule.

use super::acts::rule_with;
use super::explanation::FaultCounts;
use super::summary::{most_used, uses};
use address_check::{AddressIndex, AddressRule, is_store};
use log_record::Entry;
use mem_op::CoreId;
use std::alloc::{AllocError, Global};
use verdict::LogSet;

/// The rule that an operation breaks, if this is the last store before it by address and then by key.
fn rule_after(entry: &Entry, last: Option<&Entry>) -> Option<AddressRule> {
    rule_with(
        entry,
        last.filter(|store| store.logged.addr == entry.logged.addr),
    )
}

/// How many of the operations are of each core, from core 0 to the last that there may be.
fn by_core(alloc: Global, entries: &[Entry]) -> Result<Vec<usize>, AllocError> {
    let mut counts: Vec<usize> = vec![in alloc; 0; 64]?;
    for entry in entries {
        if let Some(count) = counts.get_mut(entry.id.core.get() as usize) {
            *count = count.saturating_add(1);
        }
    }
    Ok(counts)
}

/// How many operations of a set break a rule of their address. Each is looked at once.
pub(crate) fn fault_counts(alloc: Global, index: &AddressIndex) -> Result<FaultCounts, AllocError> {
    let mut found = Vec::new(alloc);
    let (mut source, mut value) = (0usize, 0usize);
    let mut last = None;
    for entry in index.all() {
        if let Some(rule) = rule_after(entry, last) {
            found.push(*entry)?;
            match rule {
                AddressRule::Source => source = source.saturating_add(1),
                AddressRule::Value => value = value.saturating_add(1),
            }
        }
        if is_store(entry) {
            last = Some(entry);
        }
    }
    let uses = uses(alloc, found.as_slice())?;
    Ok(FaultCounts {
        source,
        value,
        by_core: by_core(alloc, found.as_slice())?,
        addresses: uses.len(),
        most: most_used(uses)?,
    })
}

/// How many records of a log have a lesser stamp and rank than the one before.
fn falls_along(log: &[Entry]) -> usize {
    let mut falls = 0usize;
    for place in 1..log.len() {
        let (one, other) = (log[place].key(), log[place - 1].key());
        if (one.ts, one.rank) < (other.ts, other.rank) {
            falls = falls.saturating_add(1);
        }
    }
    falls
}

/// How many records of each core's log have.
pub(crate) fn falls(alloc: Global, set: &LogSet) -> Result<Vec<usize>, AllocError> {
    let mut counts = Vec::new(alloc);
    for number in 0..set.len() {
        counts.push(match set.get(CoreId::at(number)) {
            Some(log) => falls_along(log),
            None => 0,
        })?;
    }
    Ok(counts)
}
