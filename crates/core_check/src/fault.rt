//! Core faults and their order.

ghost use Rattle.std.specs.Prelude.{◌≡◌};
ghost use Rattle.core_check.specs.FaultOrder.{core_fault_cmp};

use mem_op::OpId;
use std::cmp::Ordering;
use std::marker::Model;

/// The rules that a core's log may break, the graver one first.
#[derive(Clone, Copy, Debug, PartialEq, Eq, PartialOrd, Ord)]
pub enum CoreRule {
    /// `(ts, rank)` is less than that of the record before.
    CoreOrder,
    /// The operation isn't the one that the core's program issues.
    Program,
}

/// A record that breaks a rule of its core's log. Faults compare by rule, then core, then index.
#[derive(Clone, Copy, Debug, PartialEq, Eq, PartialOrd, Ord)]
pub struct RuleFault {
    /// The rule that it breaks.
    pub rule: CoreRule,
    /// Whose record it is, and which.
    pub id: OpId,
}

impl Model for RuleFault {
    ghost use Rattle.core_check.specs.FaultParts.{CoreFaultParts};

    ghost Value = { CoreFaultParts };

    ghost view = { λ fault. record { rule = fault.rule; id = fault.id } };

    ghost inverse = { λ fault. record { rule = fault.rule; id = fault.id } };
}

impl RuleFault {
    /// The order of two faults: by rule, then core, then index.
    pub fn order(&self, other: &RuleFault) -> Ordering
        ensures { result ≡ core_fault_cmp self.now other.now }
    {
        self.cmp(other)
    }
}
