//! Why a profile file was refused.

ghost use Rattle.std.specs.Prelude.{◌≡◌, ◌↔◌, IsTrue, Ok};
ghost use Rattle.gp_base.specs.declared.refusal.GmonRefusal.TheVariants.{OutOfMemory};

use std::alloc::{AllocError, AllocFailed};

/// What is wrong with the bytes of a gmon.out file: the first fault in the order in which its form is
/// read. Offsets are in bytes from the file's begin.
#[derive(Clone, Copy, Debug, PartialEq, Eq)]
pub enum GmonRefusal {
    /// The file ends where more is due: `at` is its length.
    Short { at: u32 },
    /// The version is another.
    Version { value: u32 },
    /// The record at `at` begins with a tag that is not one.
    Tag { at: u32, value: u8 },
    /// The histogram at `at` has counters, and `low` isn't below `high`.
    Range { at: u32, low: u32, high: u32 },
    /// The number of bytes up to the arcs can't be.
    Size { value: u32 },
    /// The arc that begins at `at` is torn.
    Rest { at: u32 },
    OutOfMemory,
}

/// Whether two refusals are the same.
pub fn is_same(a: &GmonRefusal, b: &GmonRefusal) -> bool
    ensures { IsTrue result ↔ (a.now ≡ b.now) }
{
    a == b
}

/// The same refusal.
pub fn copied(a: &GmonRefusal) -> Result<GmonRefusal, AllocError>
    ensures { result ≡ Ok a.now }
{
    a.clone()
}

impl From<AllocError> for GmonRefusal {
    ghost from_gives = { λ _ e. e ≡ OutOfMemory };

    fn from(_e: AllocError) -> GmonRefusal {
        GmonRefusal::OutOfMemory
    }
}

impl<T: Drop> From<AllocFailed<T>> for GmonRefusal {
    ghost from_gives = { λ _ e. e ≡ OutOfMemory };

    fn from(_e: AllocFailed<T>) -> GmonRefusal {
        GmonRefusal::OutOfMemory
    }
}
