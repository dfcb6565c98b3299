//! Runs of addresses.

/// The addresses whose numbers are at least `start` and below `end`.
#[derive(Clone, Copy)]
pub struct AddrSpan {
    /// The number of the first address.
    pub start: u64,
    /// The number after that of the last address.
    pub end: u64,
}
