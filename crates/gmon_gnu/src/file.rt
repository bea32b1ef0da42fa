//! Reading a whole file.

ghost use Rattle.std.specs.Prelude.{◌≡◌, ◌^◌, ◌<◌, length, None, Err, IfOk, OnOk, IfErr, IfSome};
ghost use Rattle.gp_base.specs.Refusal.{IsRefusal};
ghost use Rattle.gmon_gnu.specs.Grammar.{GnuSpells};
ghost use Rattle.gmon_gnu.specs.Reading.{gnu_refusal, gnu_records};

use crate::faults::fault;
use crate::reader::Reader;
use gp_base::{GmonRefusal, Records};
use std::alloc::Global;

/// The version that the header names: `GMON_VERSION` of `gmon_out.h`.
pub(crate) const VERSION: u32 = 1;

/// Bytes of the header.
pub(crate) const HEADER: usize = 20;

/// Reads a file of the GNU form: its records in file order. The first four bytes and the spare bytes of
/// the header are not looked at.
///
/// Refusals, in this order: `Short` where the header isn't all there; `Version`; then, for each record
/// in file order, `Tag`; `Short` where its fields aren't all there; `Range` where there are counters and
/// the low address isn't below the high one; `Short` where its counters or pairs aren't all there. They take
/// no memory, so that want of it doesn't stand in for them.
pub fn read(alloc: Global, bytes: &[u8]) -> Result<Records, GmonRefusal>
    requires { length bytes.now < 2 ^ 32 }
    ensures refused { IfSome (gnu_refusal bytes.now) (λ refusal. result ≡ Err refusal) }
    ensures refusal { IfErr result (λ refusal. IsRefusal refusal (gnu_refusal bytes.now)) }
    ensures accepted { OnOk result (gnu_refusal bytes.now ≡ None) }
    ensures records { IfOk result (λ records. records ≡ gnu_records bytes.now) }
    ensures spelled { IfOk result (λ records. GnuSpells bytes.now records) }
{
    if let Some(refusal) = fault(bytes) {
        return Err(refusal);
    }
    let mut reader = Reader::new(alloc);
    reader.feed(bytes)?;
    reader.finish()
}
