//! Why a run is not folded to its end.

ghost use Rattle.std.specs.Prelude.{◌≡◌};
ghost use Rattle.folded.specs.declared.refusal.FoldRefusal.TheVariants.{HostFailed, OutOfMemory};

use host_port::Failed;
use std::alloc::AllocError;

/// Why a run is not folded to its end. The run isn't used again.
#[derive(Clone, Copy, Debug, PartialEq, Eq)]
pub enum FoldRefusal {
    /// A print of the program failed. Of its last piece a rest isn't printed.
    HostFailed,
    /// All that the program printed in its turns is printed.
    OutOfMemory,
}

impl From<Failed> for FoldRefusal {
    ghost from_gives = { λ _ e. e ≡ HostFailed };

    fn from(_e: Failed) -> FoldRefusal {
        FoldRefusal::HostFailed
    }
}

impl From<AllocError> for FoldRefusal {
    ghost from_gives = { λ _ e. e ≡ OutOfMemory };

    fn from(_e: AllocError) -> FoldRefusal {
        FoldRefusal::OutOfMemory
    }
}
