//! Why a merge has no verdict.

ghost use Rattle.std.specs.Prelude.{◌≡◌};
ghost use Rattle.verdict.specs.declared.judge_fault.JudgeFault.TheVariants.{OutOfMemory};
ghost use Rattle.merge_judge.specs.declared.merge_fault.MergeFault.TheVariants.{Judge};
ghost use Rattle.merge_judge.specs.WriteFaults.{from_write};

use log_file::WriteFault;
use mem_op::FaultName;
use std::alloc::AllocError;
use std::fmt;
use std::fmt::Display;
use thiserror::Error;
use verdict::JudgeFault;

/// Why a merge has no verdict.
#[derive(Clone, Copy, Debug, PartialEq, Eq, Error)]
pub enum MergeFault {
    /// The judge has no verdict on the logs.
    Judge(JudgeFault),
    /// A write of the order failed.
    Write,
}

impl Display for MergeFault {
    ghost use Rattle.std.specs.Prelude.{Some};
    ghost use Rattle.merge_judge.specs.Texts.{merge_fault_text};

    ghost output = { λ fault. Some (merge_fault_text fault) };

    fn fmt<W: fmt::Write>(&self, f: &mut fmt::Formatter<W>) -> fmt::Result {
        match self {
            MergeFault::Judge(fault) => write!(f, "{}", fault),
            MergeFault::Write => write!(f, "output: {}", FaultName::Write),
        }
    }
}

impl From<AllocError> for MergeFault {
    ghost from_gives = { λ _ fault. fault ≡ Judge OutOfMemory };

    fn from(_: AllocError) -> MergeFault {
        MergeFault::Judge(JudgeFault::OutOfMemory)
    }
}

impl From<JudgeFault> for MergeFault {
    ghost from_gives = { λ found fault. fault ≡ Judge found };

    fn from(found: JudgeFault) -> MergeFault {
        MergeFault::Judge(found)
    }
}

impl From<WriteFault> for MergeFault {
    ghost from_gives = { λ found fault. fault ≡ from_write found };

    fn from(found: WriteFault) -> MergeFault {
        match found {
            WriteFault::OutOfMemory => MergeFault::Judge(JudgeFault::OutOfMemory),
            WriteFault::Write => MergeFault::Write,
        }
    }
}
