//! Writing how often the instructions of a run were executed.

ghost use Rattle.std.specs.Prelude.{◌≡◌, ◌+◌, ◌*◌, ◌^◌, ◌<◌, ℕ, true, length, OnOk};
ghost use Rattle.host_port.specs.Buffered.{Adds};
ghost use Rattle.host_port.specs.Host.{Puts};
ghost use Rattle.host_port.specs.declared.side.Side.TheVariants.{File};
ghost use Rattle.gmon_gnu.specs.Blocks.{block_record, executed_blocks, pair_bytes, pairs_bytes};

use crate::rounds::put_front;
use gp_base::le4;
use host_port::{Failed, Host, OutBuf};

/// Writes to the file that is being written how often instructions were executed: one record of the
/// counts that aren't 0, each with its address, or nothing where all are 0. The first count is that of
/// the instruction at `low`, the others those of the words behind it. After `Failed` a prefix of that
/// record was written, and not the whole. Takes no memory.
#[tactic(auto)]
pub fn write_blocks<H: Host>(low: u32, counts: &[u32], host: &mut H) -> Result<(), Failed>
    requires within { (i : ℕ) → i < length counts.now → low + 4 * i < 2 ^ 32 }
    requires ready { (H.outside host.old).is_writing ≡ true }
    ensures { Puts File (block_record low counts.now) (H.outside host.old)
        (H.outside host.new) result }
{
    let mut out = OutBuf::new();
    put_record(low, counts, &mut out, host)?;
    out.flush(host)
}

fn put_record<H: Host>(
    low: u32,
    counts: &[u32],
    out: &mut OutBuf,
    host: &mut H,
) -> Result<(), Failed>
    requires within { (i : ℕ) → i < length counts.now → low + 4 * i < 2 ^ 32 }
    requires ready { (H.outside host.old).is_writing ≡ true }
    ensures adds { Adds File (block_record low counts.now) out.old out.new (H.outside host.old)
        (H.outside host.new) result }
    ensures ready { OnOk result ((H.outside host.new).is_writing ≡ true) }
{
    let number = executed(counts);
    if number == 0 {
        return Ok(());
    }
    put_front(number, out, host)?;
    put_pairs(low, counts, out, host)
}

/// How many counts aren't 0.
fn executed(counts: &[u32]) -> u32
    requires { length counts.now < 2 ^ 32 }
    ensures { (low : ℕ) → result ≡ length (executed_blocks low counts.now) }
{
    let mut number = 0;
    for i in 0..counts.len() {
        number += u32::from(counts[i] != 0);
    }
    number
}

fn put_pairs<H: Host>(
    low: u32,
    counts: &[u32],
    out: &mut OutBuf,
    host: &mut H,
) -> Result<(), Failed>
    requires within { (i : ℕ) → i < length counts.now → low + 4 * i < 2 ^ 32 }
    requires ready { (H.outside host.old).is_writing ≡ true }
    ensures adds { Adds File (pairs_bytes low counts.now) out.old out.new (H.outside host.old)
        (H.outside host.new) result }
    ensures ready { OnOk result ((H.outside host.new).is_writing ≡ true) }
{
    for i in 0..counts.len() {
        put_pair(low + 4 * i as u32, counts[i], out, host)?;
    }
    Ok(())
}

/// An address and its count, unless that is 0.
fn put_pair<H: Host>(addr: u32, count: u32, out: &mut OutBuf, host: &mut H) -> Result<(), Failed>
    requires { (H.outside host.old).is_writing ≡ true }
    ensures adds { Adds File (pair_bytes addr count) out.old out.new (H.outside host.old)
        (H.outside host.new) result }
    ensures ready { OnOk result ((H.outside host.new).is_writing ≡ true) }
{
    if count == 0 {
        return Ok(());
    }
    out.put(host, &le4(addr))?;
    out.put(host, &le4(count))
}
