//! Why a flow has no exact times.

ghost use Rattle.std.specs.Prelude.{◌≡◌};
ghost use Rattle.exact_flow.specs.declared.refusal.ExactRefusal.TheVariants.{OutOfMemory};

use std::alloc::{AllocError, AllocFailed};

/// Why a flow has no exact times.
#[derive(Clone, Copy, Debug, PartialEq, Eq)]
pub enum ExactRefusal {
    /// A fraction does not fit: the first one, component by component and arc by arc, is at the arc with
    /// the number `arc`, which leaves the component whose head is the function `head`.
    TooWide { head: u32, arc: u32 },
    OutOfMemory,
}

impl From<AllocError> for ExactRefusal {
    ghost from_gives = { λ _ e. e ≡ OutOfMemory };

    fn from(_e: AllocError) -> ExactRefusal {
        ExactRefusal::OutOfMemory
    }
}
