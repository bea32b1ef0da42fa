//! Why two profiles have no sum.

ghost use Rattle.std.specs.Prelude.{◌≡◌, ◌↔◌, IsTrue, Ok};
ghost use Rattle.profile_sum.specs.declared.refusal.SumRefusal.TheVariants.{OutOfMemory};
ghost use Rattle.profile_sum.specs.Sum.{sum_refusal};

use gmon_data::AddRefusal;
use std::alloc::AllocError;

/// Why a profile is not added.
#[derive(Clone, Copy, Debug, PartialEq, Eq)]
pub enum SumRefusal {
    /// A histogram can't be added.
    Unlike(gmon_data::Unlike),
    OutOfMemory,
}

/// Whether two refusals are the same.
pub fn is_same(a: &SumRefusal, b: &SumRefusal) -> bool
    ensures { IsTrue result ↔ (a.now ≡ b.now) }
{
    a == b
}

/// The same refusal.
pub fn copied(a: &SumRefusal) -> Result<SumRefusal, AllocError>
    ensures { result ≡ Ok a.now }
{
    a.clone()
}

impl From<AllocError> for SumRefusal {
    ghost from_gives = { λ _ e. e ≡ OutOfMemory };

    fn from(_e: AllocError) -> SumRefusal {
        SumRefusal::OutOfMemory
    }
}

impl From<AddRefusal> for SumRefusal {
    ghost from_gives = { λ refusal e. e ≡ sum_refusal refusal };

    fn from(refusal: AddRefusal) -> SumRefusal {
        match refusal {
            AddRefusal::Unlike(unlike) => SumRefusal::Unlike(unlike),
            AddRefusal::OutOfMemory => SumRefusal::OutOfMemory,
        }
    }
}
