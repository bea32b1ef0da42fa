ghost use Rattle.std.specs.Prelude.{◌≡◌, false};
ghost use Rattle.host_port.specs.Memory.{outside_of};

use super::pieces::read_large;
use super::records::{arc_in, expect_large_arcs, expect_large_counters, hist_in};
use crate::{TWO_OF_EACH, large_bsd_file, small_run};
use gmon_bsd::{GmonRefusal, Reader, read, run_profile, write_run};
use gmon_data::Profile;
use gp_base::{Form, RawArc, Rec, Records, Span};
use host_port::{Failed, Host, MemHost};
use mcount_arcs::Gmon;
use std::alloc::{AllocError, Global};
use std::process::Abort;
use std::test::Fail;
use test_profiles::boxed;

/// A file whose range is from 0x10000 to 0x10100, at rate 100, with two counters and an arc.
const COUNTERS_AND_AN_ARC: [u8; 48] = [
    0, 0, 1, 0, 0, 1, 1, 0, 36, 0, 0, 0, 0x79, 0x18, 5, 0, 100, 0, 0, 0, 0, 0, 0, 0, 0, 0, 0, 0, 0,
    0, 0, 0, // header
    0, 0, 0x34, 0x12, // counters
    4, 0, 1, 0, 20, 0, 1, 0, 1, 0, 0, 0, // from 0x10004 to 0x10014
];

#[test]
fn counters_and_arcs_are_read_in_order(rt: HostRuntime) -> Result<(), Fail> {
    let records = read(rt.alloc(), &COUNTERS_AND_AN_ARC)?;
    expect_in_order(&rt, records.recs.as_slice());
    Ok(())
}

/// What that file holds.
fn expect_in_order(rt: &impl Abort, recs: &[Rec]) {
    let arc = RawArc {
        from: 0x1_0004,
        to: 0x1_0014,
        count: 1,
    };
    assert_eq!(rt;
        (recs.len(), hist_in(recs.first()), arc_in(recs.get(1))),
        (
            2,
            Some((0x1_0000, 0x1_0100, 100, [0, 0x1234].as_slice())),
            Some(arc)
        ),
        "a histogram and an arc"
    );
}

#[test]
fn a_file_of_100_000_bytes_is_read(rt: HostRuntime) -> Result<(), Fail> {
    let bytes = large_bsd_file(rt.alloc())?;
    let records = read_large(&rt, rt.alloc(), Form::Bsd, &bytes)?;
    expect_large(&rt, &records);
    Ok(())
}

/// What the large file holds.
fn expect_large(rt: &impl Abort, records: &Records) {
    let recs = records.recs.as_slice();
    assert_eq!(rt; recs.len(), 7_665);
    let (hist, arcs) = recs.split_at(1);
    expect_large_counters(rt, &hist[0]);
    expect_large_arcs(rt, arcs);
}

/// Writes the file of a run on a host.
fn write_to(host: &mut MemHost, gmon: &Gmon, rate: u32) -> Result<(), Failed>
    requires { (outside_of host.old).is_writing ≡ false }
{
    host.create_output("gmon.out")?;
    write_run(gmon, rate, host)
}

/// A run of a text of 3,000 words, with samples in four of them.
fn long_run(alloc: Global) -> Result<Box<Gmon>, AllocError> {
    let text = Span {
        low: 0x1_0000,
        high: 0x1_0000 + 12_000,
    };
    let mut gmon = boxed(alloc, Gmon::startup(alloc, text, 2, 2)?)?;
    gmon.tick(0x1_0000 + 4 * 2_047);
    gmon.tick(0x1_0000 + 4 * 2_048);
    gmon.tick(0x1_0000 + 4 * 2_048);
    gmon.tick(0x1_0000 + 11_999);
    Ok(gmon)
}

/// Some of its counters.
const LONG_COUNTERS: &[(usize, u8)] = &[(0, 0), (2_047, 1), (2_048, 2), (2_049, 0), (2_999, 1)];

fn expect_counters(rt: &impl Abort, bytes: &[u8]) {
    assert_eq!(rt; bytes.len(), 32 + 2 * 3_000);
    for (i, count) in LONG_COUNTERS {
        let at = 32 + 2 * (*i).min(3_000);
        assert_eq!(rt;
            bytes.get(at..at + 2),
            Some([*count, 0].as_slice()),
            "counter {i}"
        );
    }
}

#[test]
fn more_counters_than_a_piece_holds(rt: HostRuntime) -> Result<(), Fail> {
    let gmon = long_run(rt.alloc())?;
    let mut host = boxed(rt.alloc(), MemHost::new(rt.alloc()))?;
    write_to(&mut host, &gmon, 1_000)?;
    expect_counters(&rt, host.file("gmon.out").unwrap_or_default());
    Ok(())
}

fn expect_profile(rt: &impl Abort, profile: &Profile, gmon: &Gmon) {
    assert_eq!(rt;
        (
            profile.unit().map(|unit| unit.rate),
            profile.hist_count(),
            profile.samples(),
            profile.arc_count()
        ),
        (Some(100), 1, 304, 3)
    );
    let mut i = 0;
    for arc in gmon.arcs() {
        if i < profile.arc_count() {
            assert_eq!(rt; profile.arc(i), (arc.from, arc.to, u64::from(arc.count)));
            i += 1;
        }
    }
}

/// The profile of a run, in a box.
fn profile_of(alloc: Global, gmon: &Gmon) -> Result<Box<Profile>, AllocError> {
    boxed(alloc, run_profile(alloc, gmon, 0)?)
}

#[test]
fn the_profile_of_a_run(rt: HostRuntime) -> Result<(), Fail> {
    let gmon = small_run(rt.alloc())?;
    let profile = profile_of(rt.alloc(), &gmon)?;
    expect_profile(&rt, &profile, &gmon);
    Ok(())
}

/// Whether the records are the first `count` of the file of two of each.
fn are_of_two_of_each(records: &Records, count: usize) -> bool {
    let recs = records.recs.as_slice();
    if recs.len() != count {
        return false;
    }
    hist_in(recs.first()) == Some((0x1_0000, 0x1_0008, 100, [3, 256].as_slice()))
        && is_arc(recs.get(1), 0x1_0004, 7)
        && is_arc(recs.get(2), 0x1_0008, 9)
}

/// Whether a record, where there is one, is an arc to 16 bytes behind its call site.
fn is_arc(rec: Option<&Rec>, from: u32, count: u32) -> bool {
    let arc = RawArc {
        from,
        to: from.wrapping_add(16),
        count,
    };
    rec.is_none() || arc_in(rec) == Some(arc)
}

/// What reading a front of that file gives.
fn expect_front(rt: &impl Abort, answer: &Result<Records, GmonRefusal>, count: usize) {
    match answer {
        Ok(records) => assert!(rt; are_of_two_of_each(records, count), "{count} records"),
        Err(_) => assert!(rt; false, "{count} records"),
    }
}

#[test]
fn fronts_of_a_file_are_read(rt: HostRuntime) -> Result<(), Fail> {
    for count in 1..4usize {
        let front = TWO_OF_EACH.split_at(24 + 12 * count).0;
        let answer = read(rt.alloc(), front);
        expect_front(&rt, &answer, count);
    }
    let refusal = read(rt.alloc(), TWO_OF_EACH.split_at(47).0).err();
    assert_eq!(rt; refusal, Some(GmonRefusal::Rest { at: 36 }));
    Ok(())
}

/// A header that states 2,147,483,666 bytes up to the arcs, and two counters.
const STATED: [u8; 36] = [
    0, 0, 1, 0, 8, 0, 1, 0, 18, 0, 0, 0x80, 0x79, 0x18, 5, 0, 100, 0, 0, 0, 0, 0, 0, 0, 0, 0, 0, 0,
    0, 0, 0, 0, 3, 0, 0, 1,
];

/// A reader that was fed the header.
fn fed(alloc: Global) -> Result<Reader, AllocError> {
    let mut reader = Reader::new(alloc);
    reader.feed(&STATED)?;
    Ok(reader)
}

/// More of them than have room for 2 GiB each among all addresses.
fn stated(alloc: Global) -> Result<Vec<Reader>, AllocError> {
    let mut readers = Vec::new(alloc);
    for _ in 0..70_000 {
        readers.push(fed(alloc)?)?;
    }
    Ok(readers)
}

#[test]
fn a_stated_size_takes_no_room(rt: HostRuntime) -> Result<(), Fail> {
    let readers = stated(rt.alloc())?;
    for reader in readers {
        let refusal = reader.finish().err();
        assert_eq!(rt; refusal, Some(GmonRefusal::Short { at: 36 }));
    }
    Ok(())
}
