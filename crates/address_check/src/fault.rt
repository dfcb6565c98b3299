//! The rule that a load or a swap breaks.

use line_stamps::Key;
use std::marker::Model;

/// The rule that a load breaks, or a swap by its read.
#[derive(Clone, Copy, Debug, PartialEq, Eq, PartialOrd, Ord)]
pub enum AddressRule {
    /// Its source isn't the last earlier store to its address.
    Source,
    /// Its source is right, and its value isn't that store's.
    Value,
}

/// A load or a swap that breaks a rule. Faults compare by key, and then by rule.
#[derive(Clone, Copy, Debug, PartialEq, Eq, PartialOrd, Ord)]
pub struct AddressFault {
    /// The key of the operation.
    pub key: Key,
    /// The rule that it breaks.
    pub rule: AddressRule,
}

impl Model for AddressFault {
    ghost use Rattle.address_check.specs.FaultParts.{FaultParts};

    ghost Value = { FaultParts };

    ghost view = { λ f. record { key = f.key; rule = f.rule } };

    ghost inverse = { λ f. record { key = f.key; rule = f.rule } };
}
