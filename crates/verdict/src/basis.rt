//! What a verdict stands on.

use super::answer::Verdict;
use address_check::AddressIndex;
use log_file::LogSet;

/// What a verdict stands on.
#[derive(Drop)]
pub enum Basis {
    /// The logs as they were read: one of them breaks a rule by itself.
    Logs(LogSet),
    /// All records, by address and then by key.
    Index(AddressIndex),
}

/// A verdict, and what it stands on.
#[derive(Drop)]
pub struct Examined {
    /// The verdict.
    pub verdict: Verdict,
    /// What it stands on.
    pub basis: Basis,
}
