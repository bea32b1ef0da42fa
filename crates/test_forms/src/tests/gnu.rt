ghost use Rattle.gmon_data.specs.Content.{empty_content};
ghost use Rattle.host_port.specs.Memory.{outside_of};
ghost use Rattle.std.specs.Prelude.{◌≡◌, ℕ, ◌+◌, ◌*◌, ◌^◌, ◌<◌, ◌≤◌, [], ◌∷◌, false, length, IfOk};

use super::pieces::read_large;
use super::records::{arc_in, blocks_in, expect_large_arcs, expect_large_counters};
use crate::{GNU_RUN, LARGE_NUMBERS, SEVERAL, large_gnu_file};
use gmon_data::{AddRefusal, Hist, Profile};
use gmon_gnu::{GmonRefusal, Reader, read, write, write_blocks};
use gp_base::{Form, RawArc, RawBlock, Rec, Records, Totals, Unit};
use host_port::{Failed, Host, MemHost};
use std::alloc::{AllocError, Global};
use std::process::Abort;
use std::test::Fail;
use test_profiles::{boxed, new_profile, seconds};

/// A header of version 2, with spare bytes that are not zeros.
const OTHER_VERSION: [u8; 20] = *b"gmon\x02\0\0\0\x01\x02\x03\x04\x05\x06\x07\x08\x09\x0A\x0B\x0C";

#[test]
fn a_torn_header_is_refused_before_its_version(rt: HostRuntime) -> Result<(), Fail> {
    for len in 0..20u32 {
        let refusal = read(rt.alloc(), OTHER_VERSION.split_at(len as usize).0).err();
        assert_eq!(rt; refusal, Some(GmonRefusal::Short { at: len }));
    }
    let refusal = read(rt.alloc(), &OTHER_VERSION).err();
    assert_eq!(rt; refusal, Some(GmonRefusal::Version { value: 2 }));
    Ok(())
}

/// Whether the records are the first `count` of the file of 128 bytes.
fn are_of_the_file(records: &Records, count: usize) -> bool {
    let recs = records.recs.as_slice();
    recs.len() == count
        && is_hist(recs.first())
        && is_hist(recs.get(1))
        && is_arc(recs.get(2))
        && is_block(recs.get(3))
}

/// Whether a record, where there is one, is its histogram.
fn is_hist(rec: Option<&Rec>) -> bool {
    match rec {
        Some(Rec::Hist(hist)) => {
            hist.low == 0x1_0000
                && hist.high == 0x1_0010
                && hist.unit
                    == Unit {
                        rate: 100,
                        dim: *b"seconds\0\0\0\0\0\0\0\0",
                        abbrev: 0x73,
                    }
                && hist.counters.as_slice() == [1, 2, 0, 0].as_slice()
        }
        Some(_) => false,
        None => true,
    }
}

/// Whether a record, where there is one, is its arc.
fn is_arc(rec: Option<&Rec>) -> bool {
    let arc = RawArc {
        from: 0x1_0004,
        to: 0x1_0008,
        count: 0,
    };
    rec.is_none() || arc_in(rec) == Some(arc)
}

/// Whether a record, where there is one, is the count of its block.
fn is_block(rec: Option<&Rec>) -> bool {
    match rec {
        Some(Rec::Blocks(blocks)) => {
            let block = RawBlock {
                addr: 0x1_0000,
                count: 9,
            };
            blocks.as_slice() == [block].as_slice()
        }
        Some(_) => false,
        None => true,
    }
}

/// What reading a front of that file gives.
fn expect_front(rt: &impl Abort, answer: &Result<Records, GmonRefusal>, count: usize) {
    match answer {
        Ok(records) => assert!(rt; are_of_the_file(records, count), "{count} records"),
        Err(_) => assert!(rt; false, "{count} records"),
    }
}

#[test]
fn records_are_read_in_order(rt: HostRuntime) -> Result<(), Fail> {
    for (len, count) in [(20usize, 0usize), (61, 1), (102, 2), (115, 3), (128, 4)] {
        let answer = read(rt.alloc(), SEVERAL.split_at(len).0);
        expect_front(&rt, &answer, count);
    }
    Ok(())
}

#[test]
fn a_file_of_100_000_bytes_is_read(rt: HostRuntime) -> Result<(), Fail> {
    let bytes = large_gnu_file(rt.alloc())?;
    let records = read_large(&rt, rt.alloc(), Form::Gnu, &bytes)?;
    expect_large(&rt, &records);
    Ok(())
}

/// The executions of the large file: from 0 on, one more than the address.
fn expect_blocks(rt: &impl Abort, rec: &Rec) {
    let blocks = blocks_in(Some(rec));
    assert_eq!(rt; blocks.len(), 4_983, "counts of blocks");
    for (block, addr) in blocks.iter().zip(0..4_983) {
        assert_eq!(rt;
            *block,
            RawBlock {
                addr,
                count: addr.wrapping_add(1),
            }
        );
    }
}

/// What the large file holds.
fn expect_large(rt: &impl Abort, records: &Records) {
    let recs = records.recs.as_slice();
    assert_eq!(rt; recs.len(), 4_008);
    expect_large_counters(rt, &recs[0]);
    expect_large_arcs(rt, &recs[1..4_007]);
    expect_blocks(rt, &recs[4_007]);
}

fn expect_file(rt: &impl Abort, host: &MemHost, file: &[u8]) {
    assert_eq!(rt; host.file("gmon.out"), Some(file));
}

/// The record of 1, 0, 258 and 0 executions from 0x10000 on: the addresses that have some.
const EXECUTED: [u8; 21] = [
    2, 2, 0, 0, 0, // two pairs
    0, 0, 1, 0, 1, 0, 0, 0, //
    8, 0, 1, 0, 2, 1, 0, 0,
];

/// Writes the records of executed instructions on a host.
fn write_blocks_to(host: &mut MemHost, low: u32, counts: &[u32]) -> Result<(), Failed>
    requires idle { (outside_of host.old).is_writing ≡ false }
    requires fits { (i : ℕ) → i < length counts.now → low + 4 * i < 2 ^ 32 }
{
    host.create_output("gmon.out")?;
    write_blocks(low, counts, host)
}

/// The file of these counts of executed instructions.
fn expect_blocks_file(
    rt: &impl Abort,
    alloc: Global,
    low: u32,
    counts: &[u32],
    file: &[u8],
) -> Result<(), Fail>
    requires { (i : ℕ) → i < length counts.now → low + 4 * i < 2 ^ 32 }
{
    let mut host = boxed(alloc, MemHost::new(alloc))?;
    write_blocks_to(&mut host, low, counts)?;
    expect_file(rt, &host, file);
    Ok(())
}

#[test]
fn executed_instructions_are_written_to_the_byte(rt: HostRuntime) -> Result<(), Fail> {
    expect_blocks_file(&rt, rt.alloc(), 0x1_0000, &[1, 0, 258, 0], &EXECUTED)
}

#[test]
fn nothing_executed_has_no_record(rt: HostRuntime) -> Result<(), Fail> {
    expect_blocks_file(&rt, rt.alloc(), 0x1_0000, &[0, 0], &[])?;
    expect_blocks_file(&rt, rt.alloc(), 0xFFFF_FFFC, &[], &[])
}

/// The addresses of that record, with their executions.
const BLOCKS: [RawBlock; 2] = [
    RawBlock {
        addr: 0x1_0000,
        count: 1,
    },
    RawBlock {
        addr: 0x1_0008,
        count: 258,
    },
];

/// The run's records and one more.
fn expect_counted(rt: &impl Abort, recs: &[Rec]) {
    assert_eq!(rt;
        (recs.len(), blocks_in(recs.last())),
        (5, BLOCKS.as_slice()),
        "counts of blocks"
    );
}

/// The file of the small run, and that record behind it.
fn counted_run(alloc: Global) -> Result<Vec<u8>, AllocError>
    ensures { IfOk result (λ bytes. length bytes.items ≡ 121) }
{
    let mut bytes = GNU_RUN.to_vec(alloc)?;
    bytes.extend_from_slice(&EXECUTED)?;
    Ok(bytes)
}

#[test]
fn executed_instructions_stand_behind_a_run(rt: HostRuntime) -> Result<(), Fail> {
    let bytes = counted_run(rt.alloc())?;
    let records = read(rt.alloc(), &bytes)?;
    expect_counted(&rt, records.recs.as_slice());
    Ok(())
}

/// A histogram with a counter of 200,000.
fn large_hist(alloc: Global) -> Result<Hist, AllocError>
    ensures low { IfOk result (λ hist. hist.low ≡ 65536) }
    ensures high { IfOk result (λ hist. hist.high ≡ 65548) }
    ensures counters { IfOk result (λ hist. hist.counters ≡ 200000 ∷ 65535 ∷ 0 ∷ []) }
{
    let mut counters = Totals::new(alloc);
    counters.push(200_000)?;
    counters.push(65_535)?;
    counters.push(0)?;
    Ok(Hist {
        low: 0x1_0000,
        high: 0x1_000C,
        counters,
    })
}

/// Adds that histogram, 2^33 calls of a pair and none of another, and 5 and 2^33 executions of basic blocks.
fn add_large_numbers(profile: &mut Profile, hist: &Hist) -> Result<(), AddRefusal>
    requires empty { profile.old ≡ empty_content }
    requires low { hist.now.low ≡ 65536 }
    requires high { hist.now.high ≡ 65548 }
    requires counters { hist.now.counters ≡ 200000 ∷ 65535 ∷ 0 ∷ [] }
{
    profile.add_wide(hist, seconds(100))?;
    profile.add_calls(0x1_0000, 0x1_0008, 1 << 33)?;
    profile.add_calls(0x1_0004, 0x1_0008, 0)?;
    profile.add_runs(0x1_0000, 5)?;
    profile.add_runs(0x1_0004, 1 << 33)?;
    Ok(())
}

/// A profile with a counter of 200,000, with 2^33 calls of a pair and none of another, and with 5 and 2^33
/// executions of basic blocks.
fn profile_of_large_numbers(alloc: Global) -> Result<Box<Profile>, AddRefusal> {
    let hist = large_hist(alloc)?;
    let mut profile = new_profile(alloc)?;
    add_large_numbers(&mut profile, &hist)?;
    Ok(profile)
}

/// The header of a file that is written.
const NEW_HEADER: [u8; 20] = *b"gmon\x01\0\0\0\0\0\0\0\0\0\0\0\0\0\0\0";

/// Writes the file of a profile on a host.
fn write_to(host: &mut MemHost, profile: &Profile) -> Result<(), Failed>
    requires { (outside_of host.old).is_writing ≡ false }
{
    host.create_output("gmon.out")?;
    write(profile, host)
}

/// The file of a profile.
fn expect_written(
    rt: &impl Abort,
    alloc: Global,
    profile: &Profile,
    file: &[u8],
) -> Result<(), Fail> {
    let mut host = boxed(alloc, MemHost::new(alloc))?;
    write_to(&mut host, profile)?;
    expect_file(rt, &host, file);
    Ok(())
}

#[test]
fn large_numbers_are_split_over_records(rt: HostRuntime) -> Result<(), Fail> {
    let profile = profile_of_large_numbers(rt.alloc())?;
    expect_written(&rt, rt.alloc(), &profile, &LARGE_NUMBERS)
}

#[test]
fn an_empty_profile_is_a_header(rt: HostRuntime) -> Result<(), Fail> {
    let profile = new_profile(rt.alloc())?;
    expect_written(&rt, rt.alloc(), &profile, &NEW_HEADER)
}

/// The sums of the first counters, of the calls, and of the last executions.
fn sums_of(recs: &[Rec]) -> [u64; 3] {
    let (mut samples, mut calls, mut runs) = (0u64, 0u64, 0u64);
    for rec in recs {
        match rec {
            Rec::Hist(hist) => {
                let first = hist.counters.as_slice().first().copied().unwrap_or(0);
                samples = samples.wrapping_add(u64::from(first));
            }
            Rec::Arc(arc) => calls = calls.wrapping_add(u64::from(arc.count)),
            Rec::Blocks(blocks) => {
                let last = blocks.as_slice().last().map_or(0, |block| block.count);
                runs = runs.wrapping_add(u64::from(last));
            }
        }
    }
    [samples, calls, runs]
}

#[test]
fn numbers_are_put_together_again(rt: HostRuntime) -> Result<(), Fail> {
    let records = read(rt.alloc(), &LARGE_NUMBERS)?;
    let sums = sums_of(records.recs.as_slice());
    assert_eq!(rt; sums, [200_000, 1 << 33, 1 << 33]);
    Ok(())
}

/// A number of 4,294,967,295 pairs, and none of them.
const STATED_PAIRS: [u8; 25] = *b"gmon\x01\0\0\0\x01\x02\x03\x04\x05\x06\x07\x08\x09\x0A\x0B\x0C\
    \x02\xFF\xFF\xFF\xFF";

/// A histogram of as many counters, and none of them.
const STATED_COUNTERS: [u8; 53] = *b"gmon\x01\0\0\0\x01\x02\x03\x04\x05\x06\x07\x08\x09\x0A\x0B\x0C\
    \0\0\0\x01\0\x10\0\x01\0\xFF\xFF\xFF\xFFd\0\0\0\
    seconds\0\0\0\0\0\0\0\0s";

/// A reader that was fed a file.
fn fed(alloc: Global, file: &[u8]) -> Result<Reader, AllocError>
    requires { length file.now ≤ 1000 }
{
    let mut reader = Reader::new(alloc);
    reader.feed(file)?;
    Ok(reader)
}

/// Readers of both, and where each file ends: more than have room for 8 GiB each among all addresses.
fn stated(alloc: Global) -> Result<Vec<(Reader, u32)>, AllocError> {
    let mut readers = Vec::new(alloc);
    for _ in 0..20_000 {
        readers.push((fed(alloc, &STATED_PAIRS)?, 25))?;
        readers.push((fed(alloc, &STATED_COUNTERS)?, 53))?;
    }
    Ok(readers)
}

#[test]
fn a_stated_number_takes_no_room(rt: HostRuntime) -> Result<(), Fail> {
    let readers = stated(rt.alloc())?;
    for (reader, at) in readers {
        assert_eq!(rt; reader.finish().err(), Some(GmonRefusal::Short { at }));
    }
    Ok(())
}
