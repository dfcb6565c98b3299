//! Cores that share no address.

use numbered_trace::{NONE, Operations, Tried, at, put};
use std::alloc::Global;

/// The cores in groups: two cores are in one group if they share an address, or are linked by others that do. There are this many addresses.
pub fn groups_of(alloc: Global, operations: &Operations, addresses: u32) -> Tried<Vec<Vec<u32>>> {
    let group_of = group_of_each(alloc, operations, addresses)?;
    let mut groups = Vec::new(alloc);
    for first in operations.cores() {
        if at(&group_of, first) == first {
            let cores = operations
                .cores()
                .filter(|core| at(&group_of, *core) == first);
            let group: Vec<u32> = cores.collect(alloc)?;
            groups.push(group)?;
        }
    }
    Ok(groups)
}

/// For each core, the first core of its group.
fn group_of_each(alloc: Global, operations: &Operations, addresses: u32) -> Tried<Vec<u32>> {
    let mut group_of: Vec<u32> = operations.cores().collect(alloc)?;
    let mut first_of = vec![in alloc; NONE; addresses as usize]?;
    for operation in operations.all.iter().skip(1) {
        let (core, first) = (operation.core(), at(&first_of, operation.address));
        if first == NONE {
            put(&mut first_of, operation.address, core)?;
        } else if at(&group_of, first) != at(&group_of, core) {
            let (one, other) = (at(&group_of, first), at(&group_of, core));
            join(&mut group_of, one.min(other), one.max(other));
        }
    }
    Ok(group_of)
}

/// Puts the cores of one group into another.
fn join(group_of: &mut [u32], least: u32, most: u32) {
    for group in group_of {
        if *group == most {
            *group = least;
        }
    }
}
