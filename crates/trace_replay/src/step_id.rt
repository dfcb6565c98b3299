//! Ids of operations, of which a core may have any number.

use mem_op::CoreId;
use std::fmt;
use std::fmt::Display;
use std::marker::Model;

/// Which operation of which core, however many the core has.
#[derive(Clone, Copy, Debug, PartialEq, Eq)]
pub struct StepId {
    /// The core whose operation it is.
    pub core: CoreId,
    /// Its place in that core's program order, as far as 64 bits count.
    pub index: u64,
}

impl Model for StepId {
    ghost use Rattle.mem_op.specs.Parts.{IdParts};

    ghost Value = { IdParts };

    ghost view = { λ id. record { core = id.core; index = id.index } };

    ghost inverse = { λ id. record { core = id.core; index = id.index } };
}

/// As `1.0`: the core, and its operation's place.
impl Display for StepId {
    ghost use Rattle.std.specs.Prelude.{Some};
    ghost use Rattle.mem_op.specs.Texts.{id_text};

    ghost output = { λ id. Some (id_text id) };

    fn fmt<W: fmt::Write>(&self, f: &mut fmt::Formatter<W>) -> fmt::Result {
        write!(f, "{}.{}", self.core.get(), self.index)
    }
}
