//! Where cores and slices don't agree.

use mem_op::FaultName;
use std::fmt;
use std::fmt::Display;
use thiserror::Error;

/// Where the entries of a core and of a slice don't agree.
#[derive(Clone, Copy, Debug, PartialEq, Eq, Error)]
pub struct AuditFault {
    /// The number of the core, 0 to 63.
    pub core: usize,
    /// The number of the slice.
    pub slice: usize,
    /// The place among the messages of this core and this slice, counted from 0.
    pub place: usize,
}

impl Display for AuditFault {
    ghost use Rattle.std.specs.Prelude.{Some};
    ghost use Rattle.audit.specs.Faults.{audit_text};

    ghost output = { λ fault. Some (audit_text fault) };

    fn fmt<W: fmt::Write>(&self, f: &mut fmt::Formatter<W>) -> fmt::Result {
        write!(
            f,
            "core {} slice {} place {}: {}",
            self.core,
            self.slice,
            self.place,
            FaultName::Audit
        )
    }
}
