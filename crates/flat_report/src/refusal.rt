//! Why a report is not printed.

ghost use Rattle.std.specs.Prelude.{◌≡◌};
ghost use Rattle.flat_report.specs.declared.refusal.ReportRefusal.TheVariants.{WriteFault, OutOfMemory};

use host_port::Failed;
use std::alloc::{AllocError, AllocFailed};

/// Why a report is not printed, or not whole.
#[derive(Clone, Copy, Debug, PartialEq, Eq)]
pub enum ReportRefusal {
    /// A call on the host failed. A prefix of the text is printed.
    WriteFault,
    /// Nothing is printed.
    OutOfMemory,
}

impl From<Failed> for ReportRefusal {
    ghost from_gives = { λ _ e. e ≡ WriteFault };

    fn from(_e: Failed) -> ReportRefusal {
        ReportRefusal::WriteFault
    }
}

impl From<AllocError> for ReportRefusal {
    ghost from_gives = { λ _ e. e ≡ OutOfMemory };

    fn from(_e: AllocError) -> ReportRefusal {
        ReportRefusal::OutOfMemory
    }
}

impl<T: Drop> From<AllocFailed<T>> for ReportRefusal {
    ghost from_gives = { λ _ e. e ≡ OutOfMemory };

    fn from(_e: AllocFailed<T>) -> ReportRefusal {
        ReportRefusal::OutOfMemory
    }
}
