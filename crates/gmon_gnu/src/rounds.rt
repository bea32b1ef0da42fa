//! Counts of basic blocks in rounds: round `j` has a piece of each count of which something is left behind `j` pieces.

ghost use Rattle.std.specs.Prelude.{◌≡◌, ◌+◌, ◌*◌, ◌-◌, ◌^◌, ◌<◌, ◌≤◌, true, false, [], ◌++◌, length, min, take, drop, slice_get, Some, OnOk};
ghost use Rattle.std.specs.List.{flat_map};
ghost use Rattle.host_port.specs.Buffered.{Adds};
ghost use Rattle.host_port.specs.declared.side.Side.TheVariants.{File};
ghost use Rattle.gmon_gnu.specs.Pieces.{blocks_front, left_bytes, left_of, part_of, round_bytes, rounds_text, AreMarks, IsPartSize};

use crate::pieces::{MOST_CALLS, has_left, piece};
use gmon_data::Profile;
use gp_base::le4;
use host_port::{Failed, Host, OutBuf};

/// The tag of counts of basic blocks.
const BLOCKS_TAG: u8 = 2;

/// How many addresses are listed at most.
const FEW: usize = 256;

/// How many parts the addresses of a profile have.
const PARTS: usize = 32_768;

/// How many addresses a part has at least, but for the last one that has any.
const SMALL_PART: usize = 64;

/// The counts of basic blocks in so many rounds.
///
/// A mark says of a part of the addresses whether one of them has something left; where none has, they aren't looked
/// at again. So a round looks at the addresses of one part, 256 in the largest file, for each one that it writes at
/// most, and at the marks. Those are few beside what it writes, since it writes more than `FEW` addresses: from the
/// first round on in which at most `FEW` have something left, these are listed, and a round looks at what the round
/// before wrote. What is marked and listed takes 36 KiB of the stack, which no other function is to pay for.
#[inline(never)]
pub(crate) fn put_rounds<H: Host>(
    rounds: u64,
    profile: &Profile,
    out: &mut OutBuf,
    host: &mut H,
) -> Result<(), Failed>
    requires within { (rounds - 1) * 4294967295 < 2 ^ 64 }
    requires ready { (H.outside host.old).is_writing ≡ true }
    ensures adds { Adds File (rounds_text 0 rounds profile.now.blocks) out.old out.new
        (H.outside host.old) (H.outside host.new) result }
    ensures ready { OnOk result ((H.outside host.new).is_writing ≡ true) }
{
    let size = part_size(profile);
    let mut few = [(0, 0); FEW];
    let mut marks = [true; PARTS];
    for j in 0..rounds {
        let left = list_left(j, size, profile, &mut marks, &mut few);
        if left as usize <= FEW {
            return put_few_rounds(j, rounds, left as usize, &mut few, out, host);
        }
        put_round(j, left, size, profile, &marks, out, host)?;
    }
    Ok(())
}

/// What stands in front of so many counts of basic blocks: their tag, and their number.
pub(crate) fn put_front<H: Host>(number: u32, out: &mut OutBuf, host: &mut H) -> Result<(), Failed>
    requires { (H.outside host.old).is_writing ≡ true }
    ensures adds { Adds File (blocks_front number) out.old out.new (H.outside host.old)
        (H.outside host.new) result }
    ensures ready { OnOk result ((H.outside host.new).is_writing ≡ true) }
{
    out.put(host, &[BLOCKS_TAG])?;
    out.put(host, &le4(number))
}

/// The addresses that have something left for round `j`, with their piece.
fn put_round<H: Host>(
    j: u64,
    left: u32,
    size: usize,
    profile: &Profile,
    marks: &[bool],
    out: &mut OutBuf,
    host: &mut H,
) -> Result<(), Failed>
    requires within { j * 4294967295 < 2 ^ 64 }
    requires counted { left ≡ length (left_of j profile.now.blocks) }
    requires sized { IsPartSize size profile.now.blocks }
    requires marked { AreMarks j size profile.now.blocks marks.now }
    requires ready { (H.outside host.old).is_writing ≡ true }
    ensures adds { Adds File (round_bytes profile.now.blocks j) out.old out.new (H.outside host.old)
        (H.outside host.new) result }
    ensures ready { OnOk result ((H.outside host.new).is_writing ≡ true) }
{
    put_front(left, out, host)?;
    put_left(j, size, profile, marks, out, host)
}

/// How many addresses have something left for round `j`. These are listed from the front of `few` on, if it has room for all.
/// Looks at marked addresses alone, and takes the marks away where none has something left.
#[tactic(auto, using(crate::proofs::RoundLemmas::few_left))]
fn list_left(
    j: u64,
    size: usize,
    profile: &Profile,
    marks: &mut [bool],
    few: &mut [(u32, u64)],
) -> u32
    requires within { j * 4294967295 < 2 ^ 64 }
    requires sized { IsPartSize size profile.now.blocks }
    requires marked { AreMarks j size profile.now.blocks marks.old }
    ensures marked { AreMarks j size profile.now.blocks marks.new }
    ensures counted { result ≡ length (left_of j profile.now.blocks) }
    ensures listed { result ≤ length few.new → take result few.new ≡ left_of j profile.now.blocks }
{
    let mut left = 0;
    for part in 0..PARTS {
        if marks[part] {
            let before = left;
            left = list_part(j, size, part, before, profile, few);
            marks[part] = before < left;
        }
    }
    left
}

/// Lists behind `listed` others the addresses of a part that have something left for round `j`, and answers how many
/// are listed then.
fn list_part(
    j: u64,
    size: usize,
    part: usize,
    listed: u32,
    profile: &Profile,
    few: &mut [(u32, u64)],
) -> u32
    requires within { j * 4294967295 < 2 ^ 64 }
    requires sized { IsPartSize size profile.now.blocks }
    requires part { part < 32768 }
    requires listed { listed ≤ part * size }
    ensures counted { result ≡ listed + length (left_of j (part_of size part profile.now.blocks)) }
    ensures listed { result ≤ length few.new → take result few.new ≡ take listed few.old
        ++ left_of j (part_of size part profile.now.blocks) }
{
    let start = start_of(part, size);
    let mut left = listed;
    for k in 0..part_len(start, size, profile) {
        let (addr, runs) = part_block(start, size, k, profile);
        if has_left(j, runs) {
            if (left as usize) < few.len() {
                few[left as usize] = (addr, runs);
            }
            left += 1;
        }
    }
    left
}

/// How many addresses a part has, so that `PARTS` of them have all.
fn part_size(profile: &Profile) -> usize
    ensures { IsPartSize result profile.now.blocks }
{
    profile.holds();
    (profile.block_count() / PARTS + 1).max(SMALL_PART)
}

/// The number of the first address of a part.
fn start_of(part: usize, size: usize) -> usize
    requires part { part < 32768 }
    requires size { size ≤ 2 ^ 26 }
    ensures { result ≡ part * size }
{
    part * size
}

/// How many addresses the part that starts there has.
fn part_len(start: usize, size: usize, profile: &Profile) -> usize
    ensures { result ≡ min size (length profile.now.blocks - start) }
{
    profile.block_count().saturating_sub(start).min(size)
}

/// Address `k` of the part that starts there, and its executions.
fn part_block(start: usize, size: usize, k: usize, profile: &Profile) -> (u32, u64)
    requires within { k < min size (length profile.now.blocks - start) }
    ensures value { slice_get (take size (drop start profile.now.blocks)) k ≡ Some (result.0, result.1) }
    ensures few { start + k < 2 ^ 26 }
{
    profile.holds();
    profile.block(start + k)
}

/// Of the first `left` addresses of a list, keeps those that have something left for round `j`, in front, and says how many.
fn keep_left(j: u64, left: usize, few: &mut [(u32, u64)]) -> usize
    requires within { j * 4294967295 < 2 ^ 64 }
    requires listed { left ≤ length few.old }
    ensures kept { take result few.new ≡ left_of j (take left few.old) }
    ensures fewer { result ≤ left }
{
    let mut kept = 0;
    for i in 0..left {
        if has_left(j, few[i].1) {
            few[kept] = few[i];
            kept += 1;
        }
    }
    kept
}

/// The rounds from `first` on, of the first `listed` addresses of a list.
fn put_few_rounds<H: Host>(
    first: u64,
    rounds: u64,
    listed: usize,
    few: &mut [(u32, u64)],
    out: &mut OutBuf,
    host: &mut H,
) -> Result<(), Failed>
    requires within { (rounds - 1) * 4294967295 < 2 ^ 64 }
    requires listed { listed ≤ length few.old }
    requires short { length few.old < 2 ^ 32 }
    requires ready { (H.outside host.old).is_writing ≡ true }
    ensures adds { Adds File (rounds_text first (rounds - first) (take listed few.old)) out.old
        out.new (H.outside host.old) (H.outside host.new) result }
    ensures ready { OnOk result ((H.outside host.new).is_writing ≡ true) }
{
    let mut left = listed;
    for j in first..rounds {
        left = keep_left(j, left, few);
        put_few(j, &few[..left], out, host)?;
    }
    Ok(())
}

/// The addresses of a list, all of which have something left for round `j`, with their piece.
fn put_few<H: Host>(
    j: u64,
    few: &[(u32, u64)],
    out: &mut OutBuf,
    host: &mut H,
) -> Result<(), Failed>
    requires within { j * 4294967295 < 2 ^ 64 }
    requires counted { length few.now ≡ length (left_of j few.now) }
    requires short { length few.now < 2 ^ 32 }
    requires ready { (H.outside host.old).is_writing ≡ true }
    ensures adds { Adds File (round_bytes few.now j) out.old out.new (H.outside host.old)
        (H.outside host.new) result }
    ensures ready { OnOk result ((H.outside host.new).is_writing ≡ true) }
{
    put_front(few.len() as u32, out, host)?;
    put_listed(j, few, out, host)
}

fn put_listed<H: Host>(
    j: u64,
    few: &[(u32, u64)],
    out: &mut OutBuf,
    host: &mut H,
) -> Result<(), Failed>
    requires within { j * 4294967295 < 2 ^ 64 }
    requires ready { (H.outside host.old).is_writing ≡ true }
    ensures adds { Adds File (flat_map (left_bytes j) few.now) out.old out.new (H.outside host.old)
        (H.outside host.new) result }
    ensures ready { OnOk result ((H.outside host.new).is_writing ≡ true) }
{
    for i in 0..few.len() {
        let (addr, runs) = few[i];
        put_block(j, addr, runs, out, host)?;
    }
    Ok(())
}

/// The pieces of round `j`: of the marked parts, since the others have none.
fn put_left<H: Host>(
    j: u64,
    size: usize,
    profile: &Profile,
    marks: &[bool],
    out: &mut OutBuf,
    host: &mut H,
) -> Result<(), Failed>
    requires within { j * 4294967295 < 2 ^ 64 }
    requires sized { IsPartSize size profile.now.blocks }
    requires marked { AreMarks j size profile.now.blocks marks.now }
    requires ready { (H.outside host.old).is_writing ≡ true }
    ensures adds { Adds File (flat_map (left_bytes j) profile.now.blocks) out.old out.new
        (H.outside host.old) (H.outside host.new) result }
    ensures ready { OnOk result ((H.outside host.new).is_writing ≡ true) }
{
    for part in 0..PARTS {
        put_part(j, size, part, marks[part], profile, out, host)?;
    }
    Ok(())
}

/// The pieces of a part for round `j`, of which there are none without a mark.
fn put_part<H: Host>(
    j: u64,
    size: usize,
    part: usize,
    mark: bool,
    profile: &Profile,
    out: &mut OutBuf,
    host: &mut H,
) -> Result<(), Failed>
    requires within { j * 4294967295 < 2 ^ 64 }
    requires size { size ≤ 2 ^ 26 }
    requires part { part < 32768 }
    requires marked { mark ≡ false → left_of j (part_of size part profile.now.blocks) ≡ [] }
    requires ready { (H.outside host.old).is_writing ≡ true }
    ensures adds { Adds File (flat_map (left_bytes j) (part_of size part profile.now.blocks)) out.old
        out.new (H.outside host.old) (H.outside host.new) result }
    ensures ready { OnOk result ((H.outside host.new).is_writing ≡ true) }
{
    if !mark {
        return Ok(());
    }
    let start = start_of(part, size);
    for k in 0..part_len(start, size, profile) {
        let (addr, runs) = part_block(start, size, k, profile);
        put_block(j, addr, runs, out, host)?;
    }
    Ok(())
}

/// The piece of an address for round `j`, if something is left.
#[inline(always)]
fn put_block<H: Host>(
    j: u64,
    addr: u32,
    runs: u64,
    out: &mut OutBuf,
    host: &mut H,
) -> Result<(), Failed>
    requires within { j * 4294967295 < 2 ^ 64 }
    requires ready { (H.outside host.old).is_writing ≡ true }
    ensures adds { Adds File (left_bytes j (addr, runs)) out.old out.new (H.outside host.old)
        (H.outside host.new) result }
    ensures ready { OnOk result ((H.outside host.new).is_writing ≡ true) }
{
    if !has_left(j, runs) {
        return Ok(());
    }
    out.put(host, &le4(addr))?;
    out.put(host, &le4(piece(MOST_CALLS, j, runs) as u32))
}
