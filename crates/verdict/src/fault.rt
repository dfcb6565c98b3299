//! Records that break a rule.

ghost use Rattle.std.specs.Prelude.{◌≡◌};
ghost use Rattle.verdict.specs.Faults.{from_core, from_address};

use super::rule::Rule;
use address_check::{AddressFault, AddressRule};
use core_check::{CoreRule, RuleFault};
use mem_op::OpId;
use std::fmt;
use std::fmt::Display;
use std::marker::Model;

/// A record that breaks a rule.
#[derive(Clone, Copy, Debug, PartialEq, Eq)]
pub struct Fault {
    /// Whose record it is, and which.
    pub id: OpId,
    /// The rule that it breaks.
    pub rule: Rule,
}

impl Model for Fault {
    ghost use Rattle.verdict.specs.FaultParts.{FaultParts};

    ghost Value = { FaultParts };

    ghost view = { λ fault. record { id = fault.id; rule = fault.rule } };

    ghost inverse = { λ fault. record { id = fault.id; rule = fault.rule } };
}

impl Display for Fault {
    ghost use Rattle.std.specs.Prelude.{Some};
    ghost use Rattle.verdict.specs.Texts.{fault_text};

    ghost output = { λ fault. Some (fault_text fault) };

    fn fmt<W: fmt::Write>(&self, f: &mut fmt::Formatter<W>) -> fmt::Result {
        write!(f, "{} {}", self.id, self.rule)
    }
}

impl From<RuleFault> for Fault {
    ghost from_gives = { λ found fault. fault ≡ from_core found };

    fn from(found: RuleFault) -> Fault {
        Fault {
            id: found.id,
            rule: match found.rule {
                CoreRule::CoreOrder => Rule::CoreOrder,
                CoreRule::Program => Rule::Program,
            },
        }
    }
}

impl From<AddressFault> for Fault {
    ghost from_gives = { λ found fault. fault ≡ from_address found };

    fn from(found: AddressFault) -> Fault {
        Fault {
            id: OpId {
                core: found.key.core,
                index: found.key.index,
            },
            rule: match found.rule {
                AddressRule::Source => Rule::Source,
                AddressRule::Value => Rule::Value,
            },
        }
    }
}
