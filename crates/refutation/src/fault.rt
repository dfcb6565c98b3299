//! Why bytes aren't a certificate.

ghost use Rattle.std.specs.Prelude.{◌≡◌};
ghost use Rattle.refutation.specs.declared.fault.CertificateFault.TheVariants.{OutOfMemory};

use mem_op::FaultName;
use std::alloc::{AllocError, AllocFailed};
use std::fmt;
use std::fmt::Display;
use thiserror::Error;

/// Why bytes aren't a certificate.
#[derive(Clone, Copy, Debug, PartialEq, Eq, Error)]
pub enum CertificateFault {
    /// This line, counted from 1, is the first that isn't as it should be.
    BadCertificate { line: u64 },
    /// Memory was refused.
    OutOfMemory,
}

impl Display for CertificateFault {
    ghost use Rattle.std.specs.Prelude.{Some};
    ghost use Rattle.refutation.specs.FaultTexts.{fault_text};

    ghost output = { λ fault. Some (fault_text fault) };

    fn fmt<W: fmt::Write>(&self, f: &mut fmt::Formatter<W>) -> fmt::Result {
        match self {
            CertificateFault::BadCertificate { line } => write!(
                f,
                "line {line}: {}",
                FaultName::BadCertificate
            ),
            CertificateFault::OutOfMemory => write!(f, "{}", FaultName::OutOfMemory),
        }
    }
}

impl<T: Drop> From<AllocFailed<T>> for CertificateFault {
    ghost from_gives = { λ _ fault. fault ≡ OutOfMemory };

    fn from(_: AllocFailed<T>) -> CertificateFault {
        CertificateFault::OutOfMemory
    }
}

impl From<AllocError> for CertificateFault {
    ghost from_gives = { λ _ fault. fault ≡ OutOfMemory };

    fn from(_: AllocError) -> CertificateFault {
        CertificateFault::OutOfMemory
    }
}
