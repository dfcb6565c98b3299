//! The numbers of the states that were visited.

use numbered_trace::{Stop, Tried};
use std::alloc::Global;

/// A table of numbers. At most three of four slots are taken; a free slot has 0.
#[derive(Drop)]
pub(crate) struct Visited {
    alloc: Global,
    slots: Vec<u64>,
    count: usize,
}

impl Visited {
    /// No state was visited.
    pub(crate) fn new(alloc: Global) -> Tried<Visited> {
        Ok(Visited {
            alloc,
            slots: vec![in alloc; 0u64; 1024]?,
            count: 0,
        })
    }

    /// Adds a number. Says whether it wasn't there.
    pub(crate) fn insert(&mut self, number: u64) -> Tried<bool> {
        if self.count >= self.slots.len() / 4 * 3 {
            self.grow()?;
        }
        let is_new = take_slot(&mut self.slots, number.max(1))?;
        self.count = self.count.saturating_add(usize::from(is_new));
        Ok(is_new)
    }

    /// Makes the table twice as large.
    fn grow(&mut self) -> Tried<()> {
        let length = self.slots.len().saturating_mul(2);
        let mut slots = vec![in self.alloc; 0u64; length]?;
        for number in &self.slots {
            if *number != 0 {
                take_slot(&mut slots, *number)?;
            }
        }
        self.slots = slots;
        Ok(())
    }
}

/// Puts a number into the first slot, from its own on, that has it or is free. Says whether that was free.
fn take_slot(slots: &mut [u64], number: u64) -> Tried<bool> {
    let mask = (slots.len() as u64).wrapping_sub(1);
    for step in 0..slots.len() as u64 {
        let slot = slots.get_mut((number.wrapping_add(step) & mask) as usize);
        let slot = slot.ok_or(Stop::GivenUp)?;
        if *slot == number {
            return Ok(false);
        }
        if *slot == 0 {
            *slot = number;
            return Ok(true);
        }
    }
    Err(Stop::GivenUp)
}
