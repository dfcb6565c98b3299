//! Why a core refuses an event.

ghost use Rattle.std.specs.Prelude.{◌≡◌};
ghost use Rattle.core_unit.specs.declared.fault.UnitFault.TheVariants.{OutOfMemory, Stamp};

use line_stamps::StampFault;
use mem_op::FaultName;
use private_cache::FillFault;
use std::alloc::AllocError;
use std::fmt;
use std::fmt::Display;
use thiserror::Error;

/// Why a core refuses an event.
#[derive(Clone, Copy, Debug, PartialEq, Eq, Error)]
pub enum UnitFault {
    /// The reply doesn't answer the message in hand, or no message is in hand.
    BadReply,
    /// The transcript has 1,048,576 entries, which is the most.
    TranscriptFull,
    /// A stamp or a rank would be above its limit.
    Stamp(StampFault),
    /// The host refused memory.
    OutOfMemory,
}

impl Display for UnitFault {
    ghost use Rattle.std.specs.Prelude.{Some};
    ghost use Rattle.core_unit.specs.Faults.{fault_text};

    ghost output = { λ fault. Some (fault_text fault) };

    fn fmt<W: fmt::Write>(&self, f: &mut fmt::Formatter<W>) -> fmt::Result {
        match self {
            UnitFault::BadReply => write!(f, "{}", FaultName::BadReply),
            UnitFault::TranscriptFull => write!(f, "{}", FaultName::TranscriptFull),
            UnitFault::Stamp(fault) => write!(f, "{fault}"),
            UnitFault::OutOfMemory => write!(f, "{}", FaultName::OutOfMemory),
        }
    }
}

impl From<AllocError> for UnitFault {
    ghost from_gives = { λ _ fault. fault ≡ OutOfMemory };

    fn from(_refused: AllocError) -> UnitFault {
        UnitFault::OutOfMemory
    }
}

impl From<StampFault> for UnitFault {
    ghost from_gives = { λ limit fault. fault ≡ Stamp limit };

    fn from(limit: StampFault) -> UnitFault {
        UnitFault::Stamp(limit)
    }
}

impl From<FillFault> for UnitFault {
    ghost use Rattle.core_unit.specs.Faults.{of_fill};

    ghost from_gives = { λ refused fault. fault ≡ of_fill refused };

    fn from(refused: FillFault) -> UnitFault {
        match refused {
            FillFault::BadReply => UnitFault::BadReply,
            FillFault::OutOfMemory => UnitFault::OutOfMemory,
        }
    }
}
