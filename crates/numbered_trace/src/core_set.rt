//! Sets of cores.

/// A set of cores: a bit for each, of at most 64.
#[derive(Clone, Copy, PartialEq, Eq)]
pub struct CoreSet(u64);

impl CoreSet {
    /// All cores.
    pub const ALL: CoreSet = CoreSet(u64::MAX);

    /// No core.
    pub const NONE: CoreSet = CoreSet(0);

    /// Whether a core is one of them.
    pub fn contains(self, core: u32) -> bool {
        self.0 & 1u64.wrapping_shl(core) != 0
    }

    /// Adds a core.
    pub fn insert(&mut self, core: u32) {
        self.0 |= 1u64.wrapping_shl(core);
    }

    /// Takes a core out.
    pub fn remove(&mut self, core: u32) {
        self.0 &= !1u64.wrapping_shl(core);
    }

    /// Adds others.
    pub fn extend(&mut self, others: CoreSet) {
        self.0 |= others.0;
    }
}
