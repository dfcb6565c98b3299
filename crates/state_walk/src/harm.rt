//! Which stores do no harm.

use super::state::State;
use numbered_trace::{Operation, at};

/// How many of a core's next operations are searched for a touch of an address.
const SOON: u32 = 32;

impl State<'_> {
    /// A core's next operations, at most this many.
    pub(crate) fn ahead(&self, core: u32, count: u32) -> &[Operation] {
        let from = at(&self.positions, core);
        let to = self.operations.end(core).min(from.saturating_add(count));
        match self.operations.all.get(from as usize..to as usize) {
            Some(ahead) => ahead,
            None => &[],
        }
    }

    /// Whether a core's next operation is a store that harms nobody: neither what it writes over nor what it stores is read
    /// after it.
    pub(crate) fn is_harmless(&self, core: u32, store: &Operation) -> bool {
        let over = at(&self.memory, store.address);
        let stored = store.stored().unwrap_or(over);
        !self.is_read_after(core, stored) && !self.is_read_after(core, over)
    }

    /// Whether a class is read from here on by anything but a core's next operation.
    fn is_read_after(&self, core: u32, class: u32) -> bool {
        let reader = self.touches.find(class, |touched| {
            let own = u32::from(touched.core == core);
            touched.last_read >= at(&self.positions, touched.core).saturating_add(own)
        });
        reader.is_some()
    }

    /// How long a core's next operation, a store, keeps others from its address: how many operations have to be performed, as far as that is known,
    /// until what it stores is read for the last time. None if what it writes over is still read.
    pub(crate) fn hold(&self, core: u32, store: &Operation) -> Option<u32> {
        if self.is_read_after(core, at(&self.memory, store.address)) {
            return None;
        }
        let mut hold = 0;
        let mut next = store.stored().and_then(|class| self.touches.first(class));
        for _ in 0..self.positions.len() {
            let Some(touched) = next else {
                break;
            };
            hold = hold.max(self.count_up_to(touched.core, touched.last_read));
            next = self.touches.next(&touched);
        }
        Some(hold)
    }

    /// Whether a core's next operation, a store, seems to harm nobody: no other core touches its address soon, except to
    /// read another word than the one that is there.
    pub(crate) fn seems_harmless(&self, core: u32, store: &Operation) -> bool {
        let word = at(&self.memory, store.address);
        for other in self.cores {
            if *other != core && self.wants(*other, store.address, word) {
                return false;
            }
        }
        true
    }

    /// Whether a core soon touches an address, other than to read another word than this one.
    fn wants(&self, core: u32, address: u32, word: u32) -> bool {
        for next in self.ahead(core, SOON) {
            if next.address == address {
                return next.fits(word);
            }
        }
        false
    }
}
