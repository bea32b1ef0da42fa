//! Profile files of both forms that come in pieces.

ghost use Rattle.std.specs.Prelude.{◌≡◌, ◌<◌, ◌≤◌, length, IfOk};
ghost use Rattle.gmon_data.specs.Content.{empty_content};
ghost use Rattle.gmon_files.specs.FileRead.{IsFed, StandsFor};
ghost use Rattle.gmon_files.specs.Forms.{FileSpells};

use crate::{
    BSD_RUN, GNU_RUN, HEADER_ALONE, LARGE_NUMBERS, SEVERAL, TWO_OF_EACH, large_bsd_file,
    large_gnu_file,
};
use gmon_data::{AddRefusal, HistRange, Profile, ReadRefusal, Unlike};
use gmon_files::FileReader;
use gp_base::{Form, GmonRefusal, Rec, Records};
use std::alloc::{AllocError, Global};
use std::process::Abort;
use std::test::Fail;
use test_profiles::{are_same, boxed, new_profile};

/// A GNU file of a histogram of rate 100, an arc of 7 calls, a histogram of rate 50, and an arc of 9 calls.
const UNLIKE: [u8; 128] = *b"gmon\x01\0\0\0\x01\x02\x03\x04\x05\x06\x07\x08\x09\x0A\x0B\x0C\
    \0\0\0\x01\0\x10\0\x01\0\x04\0\0\0d\0\0\0\
    seconds\0\0\0\0\0\0\0\0s\
    \x01\0\x02\0\0\0\0\0\
    \x01\x04\0\x01\0\x08\0\x01\0\x07\0\0\0\
    \0\0\0\x01\0\x10\0\x01\0\x04\0\0\0\x32\0\0\0\
    seconds\0\0\0\0\0\0\0\0s\
    \x01\0\x02\0\0\0\0\0\
    \x01\x04\0\x01\0\x08\0\x01\0\x09\0\0\0";

/// A GNU file of a histogram from 0x10010 with 5 samples, an arc of 7 calls, a histogram from 0x10000 with 3, one from
/// 0x10010 with 7 more, and an arc of 9 calls.
const OUT_OF_ORDER: [u8; 151] = *b"gmon\x01\0\0\0\x01\x02\x03\x04\x05\x06\x07\x08\x09\x0A\x0B\x0C\
    \0\x10\0\x01\0\x20\0\x01\0\x01\0\0\0d\0\0\0\
    seconds\0\0\0\0\0\0\0\0s\
    \x05\0\
    \x01\x04\0\x01\0\x08\0\x01\0\x07\0\0\0\
    \0\0\0\x01\0\x10\0\x01\0\x01\0\0\0d\0\0\0\
    seconds\0\0\0\0\0\0\0\0s\
    \x03\0\
    \0\x10\0\x01\0\x20\0\x01\0\x01\0\0\0d\0\0\0\
    seconds\0\0\0\0\0\0\0\0s\
    \x07\0\
    \x01\0\0\x01\0\x08\0\x01\0\x09\0\0\0";

/// The same records, the histograms before the arcs and in ascending order.
const IN_ORDER: [u8; 151] = *b"gmon\x01\0\0\0\x01\x02\x03\x04\x05\x06\x07\x08\x09\x0A\x0B\x0C\
    \0\0\0\x01\0\x10\0\x01\0\x01\0\0\0d\0\0\0\
    seconds\0\0\0\0\0\0\0\0s\
    \x03\0\
    \0\x10\0\x01\0\x20\0\x01\0\x01\0\0\0d\0\0\0\
    seconds\0\0\0\0\0\0\0\0s\
    \x05\0\
    \0\x10\0\x01\0\x20\0\x01\0\x01\0\0\0d\0\0\0\
    seconds\0\0\0\0\0\0\0\0s\
    \x07\0\
    \x01\x04\0\x01\0\x08\0\x01\0\x07\0\0\0\
    \x01\0\0\x01\0\x08\0\x01\0\x09\0\0\0";

/// A GNU file of histograms from 0x10020, from 0x10000, from 0x10024, which overlaps the first one, and from 0x10008,
/// which overlaps the second one.
const TWO_CONFLICTS: [u8; 160] = *b"gmon\x01\0\0\0\x01\x02\x03\x04\x05\x06\x07\x08\x09\x0A\x0B\x0C\
    \0\x20\0\x01\0\x30\0\x01\0\x01\0\0\0d\0\0\0\
    seconds\0\0\0\0\0\0\0\0s\
    \x01\0\
    \0\0\0\x01\0\x10\0\x01\0\x01\0\0\0d\0\0\0\
    seconds\0\0\0\0\0\0\0\0s\
    \x02\0\
    \0\x24\0\x01\0\x34\0\x01\0\x01\0\0\0d\0\0\0\
    seconds\0\0\0\0\0\0\0\0s\
    \x03\0\
    \0\x08\0\x01\0\x18\0\x01\0\x01\0\0\0d\0\0\0\
    seconds\0\0\0\0\0\0\0\0s\
    \x04\0";

/// A reader that was fed the bytes in pieces of at most `size`.
fn fed(alloc: Global, bytes: &[u8], size: usize) -> Result<FileReader, AllocError>
    requires some { 0 < size }
    requires small { length bytes.now ≤ 100000 }
    ensures fed { IfOk result IsFed }
    ensures stands { IfOk result (StandsFor bytes.now) }
{
    let mut reader = FileReader::new();
    let mut fed = 0;
    while fed < bytes.len() {
        let rest = bytes.split_at(fed).1;
        let piece = rest.split_at(size.min(rest.len())).0;
        reader = reader.feed(alloc, piece)?;
        fed += piece.len();
    }
    Ok(reader)
}

/// What a reader answers that is fed the bytes in pieces of at most `size`.
fn in_pieces(alloc: Global, bytes: &[u8], size: usize) -> Result<Records, GmonRefusal>
    requires some { 0 < size }
    requires small { length bytes.now ≤ 100000 }
    ensures { IfOk result (FileSpells bytes.now) }
{
    fed(alloc, bytes, size)?.finish()
}

/// What a reader answers that is fed the bytes in two pieces.
fn in_two(alloc: Global, front: &[u8], rest: &[u8]) -> Result<Records, GmonRefusal>
    requires front { length front.now ≤ 1000 }
    requires rest { length rest.now ≤ 1000 }
{
    let reader = FileReader::new().feed(alloc, front)?;
    reader.feed(alloc, rest)?.finish()
}

/// What the form's own reader of whole files answers.
fn whole(alloc: Global, form: Form, bytes: &[u8]) -> Result<Records, GmonRefusal>
    requires { length bytes.now ≤ 100000 }
{
    match form {
        Form::Bsd => gmon_bsd::read(alloc, bytes),
        Form::Gnu => gmon_gnu::read(alloc, bytes),
    }
}

/// What is read of a file of 100,000 bytes.
pub(super) fn read_large(
    rt: &impl Abort,
    alloc: Global,
    form: Form,
    bytes: &[u8],
) -> Result<Records, GmonRefusal> {
    assert_eq!(rt; bytes.len(), 100_000);
    whole(alloc, form, bytes)
}

/// The profile of what a reader was fed.
fn profile_of(alloc: Global, bytes: &[u8], size: usize) -> Result<Profile, ReadRefusal>
    requires some { 0 < size }
    requires small { length bytes.now ≤ 100000 }
{
    match fed(alloc, bytes, size) {
        Ok(reader) => reader.into_profile(),
        Err(_) => Err(ReadRefusal::Profile(AddRefusal::OutOfMemory)),
    }
}

/// A profile in a box, or why there is none.
pub(super) fn in_box(
    alloc: Global,
    answer: Result<Profile, ReadRefusal>,
) -> Result<Box<Profile>, ReadRefusal> {
    match boxed(alloc, answer?) {
        Ok(profile) => Ok(profile),
        Err(_) => Err(ReadRefusal::Profile(AddRefusal::OutOfMemory)),
    }
}

/// The profile of what a reader was fed, in a box.
fn made_of(alloc: Global, bytes: &[u8], size: usize) -> Result<Box<Profile>, ReadRefusal>
    requires some { 0 < size }
    requires small { length bytes.now ≤ 100000 }
{
    in_box(alloc, profile_of(alloc, bytes, size))
}

/// Adds the records that a reader lists.
fn add_listed(
    profile: &mut Profile,
    alloc: Global,
    bytes: &[u8],
    size: usize,
) -> Result<(), ReadRefusal>
    requires empty { profile.old ≡ empty_content }
    requires some { 0 < size }
    requires small { length bytes.now ≤ 100000 }
{
    let records = in_pieces(alloc, bytes, size)?;
    profile.add_records(&records)?;
    Ok(())
}

/// A profile that holds nothing.
fn empty_profile(alloc: Global) -> Result<Box<Profile>, AddRefusal>
    ensures { IfOk result (λ profile. profile.value ≡ empty_content) }
{
    Ok(new_profile(alloc)?)
}

/// The profile of the records that a reader lists.
fn profile_of_listed(alloc: Global, bytes: &[u8], size: usize) -> Result<Box<Profile>, ReadRefusal>
    requires some { 0 < size }
    requires small { length bytes.now ≤ 100000 }
{
    let mut profile = empty_profile(alloc)?;
    add_listed(&mut profile, alloc, bytes, size)?;
    Ok(profile)
}

/// Whether two lists of records are the same.
fn have_same_recs(a: &[Rec], b: &[Rec]) -> bool {
    if a.len() != b.len() {
        return false;
    }
    for (a, b) in a.iter().zip(b.iter()) {
        if !are_same_recs(a, b) {
            return false;
        }
    }
    true
}

fn are_same_recs(a: &Rec, b: &Rec) -> bool {
    match (a, b) {
        (Rec::Hist(a), Rec::Hist(b)) => {
            a.low == b.low
                && a.high == b.high
                && a.unit == b.unit
                && a.counters.as_slice() == b.counters.as_slice()
        }
        (Rec::Arc(a), Rec::Arc(b)) => *a == *b,
        (Rec::Blocks(a), Rec::Blocks(b)) => a.as_slice() == b.as_slice(),
        _ => false,
    }
}

/// Whether two answers are the same.
fn are_same_answers(a: &Result<Records, GmonRefusal>, b: &Result<Records, GmonRefusal>) -> bool {
    match (a, b) {
        (Ok(a), Ok(b)) => {
            a.form == b.form && have_same_recs(a.recs.as_slice(), b.recs.as_slice())
        }
        (Err(a), Err(b)) => *a == *b,
        _ => false,
    }
}

/// How many records an answer has, or the refusal.
fn told(answer: &Result<Records, GmonRefusal>) -> Result<usize, GmonRefusal> {
    match answer {
        Ok(records) => Ok(records.recs.as_slice().len()),
        Err(refusal) => Err(*refusal),
    }
}

/// What is due of a file in pieces is also answered of the whole.
fn expect_answers(
    rt: &impl Abort,
    answer: &Result<Records, GmonRefusal>,
    whole: &Result<Records, GmonRefusal>,
    due: Result<usize, GmonRefusal>,
) {
    assert_eq!(rt;
        (told(answer), are_same_answers(answer, whole)),
        (due, true),
        "in pieces, and the same as the whole"
    );
}

/// What is due of a file that comes in pieces of at most `size`.
fn expect(
    rt: &impl Abort,
    alloc: Global,
    form: Form,
    bytes: &[u8],
    size: usize,
    due: Result<usize, GmonRefusal>,
)
    requires some { 0 < size }
    requires small { length bytes.now ≤ 100000 }
{
    let answer = in_pieces(alloc, bytes, size);
    let whole = whole(alloc, form, bytes);
    expect_answers(rt, &answer, &whole, due);
}

/// What is due of a file that comes in two pieces.
fn expect_cut(
    rt: &impl Abort,
    alloc: Global,
    form: Form,
    bytes: &[u8],
    cut: usize,
    due: Result<usize, GmonRefusal>,
)
    requires cut { cut ≤ length bytes.now }
    requires small { length bytes.now ≤ 1000 }
{
    let (front, rest) = bytes.split_at(cut);
    let answer = in_two(alloc, front, rest);
    let whole = whole(alloc, form, bytes);
    expect_answers(rt, &answer, &whole, due);
}

/// How many samples, calls and executions the profile of a file has, or why there is none.
#[derive(Clone, Copy)]
struct Due {
    name: &'static str,
    answer: Result<[u64; 3], ReadRefusal>,
}

/// How many samples, calls and executions a profile has, or why there is none.
fn numbers_of(answer: &Result<Box<Profile>, ReadRefusal>) -> Result<[u64; 3], ReadRefusal> {
    match answer {
        Ok(profile) => Ok([profile.samples(), profile.calls(), profile.blocks()]),
        Err(refusal) => Err(*refusal),
    }
}

/// Whether two profiles, or refusals, are the same.
fn are_same_made(
    a: &Result<Box<Profile>, ReadRefusal>,
    b: &Result<Box<Profile>, ReadRefusal>,
) -> bool {
    match (a, b) {
        (Ok(a), Ok(b)) => are_same(a, b),
        (Err(a), Err(b)) => *a == *b,
        _ => false,
    }
}

/// Makes the profile of what a reader was fed, beside that of a list of its records. Both are due, and the same.
fn expect_made(rt: &impl Abort, alloc: Global, bytes: &[u8], size: usize, due: Due)
    requires some { 0 < size }
    requires small { length bytes.now ≤ 100000 }
{
    let made = made_of(alloc, bytes, size);
    let listed = profile_of_listed(alloc, bytes, size);
    expect_due(rt, due, &made, &listed);
}

fn expect_due(
    rt: &impl Abort,
    due: Due,
    made: &Result<Box<Profile>, ReadRefusal>,
    listed: &Result<Box<Profile>, ReadRefusal>,
) {
    let name = due.name;
    assert_eq!(rt;
        (
            numbers_of(made),
            numbers_of(listed),
            are_same_made(made, listed)
        ),
        (due.answer, due.answer, true),
        "{name}, made and listed, and whether they are the same"
    );
}

/// A file is refused, as a whole, byte by byte and in place of a profile.
fn expect_refused(
    rt: &impl Abort,
    alloc: Global,
    form: Form,
    bytes: &[u8],
    name: &'static str,
    refusal: GmonRefusal,
) {
    assert!(rt; bytes.len() <= 1_000, "{name}");
    expect(rt, alloc, form, bytes, 1, Err(refusal));
    let due = Due {
        name,
        answer: Err(ReadRefusal::File(refusal)),
    };
    expect_made(rt, alloc, bytes, 1, due);
    expect_made(rt, alloc, bytes, 1_000, due);
}

/// The first bytes of a 4.4BSD file of 160 bytes up to the arcs, whose range is from 0x10000 to 0x10100, at rate 100.
const BSD_HEADER: [u8; 20] = *b"\0\0\x01\0\0\x01\x01\0\xA0\0\0\0y\x18\x05\0d\0\0\0";

/// A fault, a place in the header and the byte that stands there, and the length of the file, which has zeros behind
/// the header.
type BsdFault = (&'static str, usize, u8, usize, GmonRefusal);

const BSD_FAULTS: &[BsdFault] = &[
    ("empty", 0, 0, 0, GmonRefusal::Short { at: 0 }),
    ("one byte less", 0, 0, 159, GmonRefusal::Short { at: 159 }),
    ("one byte more", 0, 0, 161, GmonRefusal::Rest { at: 160 }),
    (
        "another version",
        12,
        b'x',
        160,
        GmonRefusal::Version { value: 0x0005_1878 },
    ),
    ("size 31", 8, 31, 160, GmonRefusal::Size { value: 31 }),
    ("size 161", 8, 161, 160, GmonRefusal::Size { value: 161 }),
    (
        "high at low",
        5,
        0,
        160,
        GmonRefusal::Range {
            at: 0,
            low: 0x1_0000,
            high: 0x1_0000,
        },
    ),
    ("size 162", 8, 162, 160, GmonRefusal::Short { at: 160 }),
    ("size 32", 8, 32, 160, GmonRefusal::Rest { at: 152 }),
];

fn expect_bsd_fault(rt: &impl Abort, alloc: Global, fault: &BsdFault) {
    let (name, at, byte, len, refusal) = fault;
    let mut bytes = [0; 161];
    bytes[..20].copy_from_slice(&BSD_HEADER);
    bytes[(*at).min(19)] = *byte;
    let file = bytes.split_at((*len).min(161)).0;
    expect_refused(rt, alloc, Form::Bsd, file, *name, *refusal);
}

#[test]
fn the_first_fault_of_a_bsd_file_is_answered(rt: HostRuntime) -> Result<(), Fail> {
    for fault in BSD_FAULTS {
        expect_bsd_fault(&rt, rt.alloc(), fault);
    }
    Ok(())
}

/// A GNU file, whose spare bytes are not zeros.
struct GnuFault {
    name: &'static str,
    bytes: &'static [u8],
    refusal: GmonRefusal,
}

/// No address is from 0x10000 to below 0x10000.
const EMPTY: GmonRefusal = GmonRefusal::Range {
    at: 20,
    low: 0x1_0000,
    high: 0x1_0000,
};

const GNU_FAULTS: &[GnuFault] = &[
    GnuFault {
        name: "another version",
        bytes: b"gmon\x02\0\0\0\x01\x02\x03\x04\x05\x06\x07\x08\x09\x0A\x0B\x0C",
        refusal: GmonRefusal::Version { value: 2 },
    },
    GnuFault {
        name: "version before tag",
        bytes: b"gmon\0\0\0\0\x01\x02\x03\x04\x05\x06\x07\x08\x09\x0A\x0B\x0C\
            \x03",
        refusal: GmonRefusal::Version { value: 0 },
    },
    GnuFault {
        name: "tag 3",
        bytes: b"gmon\x01\0\0\0\x01\x02\x03\x04\x05\x06\x07\x08\x09\x0A\x0B\x0C\
            \x03",
        refusal: GmonRefusal::Tag { at: 20, value: 3 },
    },
    GnuFault {
        name: "tag 255",
        bytes: b"gmon\x01\0\0\0\x01\x02\x03\x04\x05\x06\x07\x08\x09\x0A\x0B\x0C\
            \xFF\0\0",
        refusal: GmonRefusal::Tag { at: 20, value: 255 },
    },
    GnuFault {
        name: "a histogram's tag",
        bytes: b"gmon\x01\0\0\0\x01\x02\x03\x04\x05\x06\x07\x08\x09\x0A\x0B\x0C\
            \0",
        refusal: GmonRefusal::Short { at: 21 },
    },
    GnuFault {
        name: "a histogram's fields less a byte",
        bytes: b"gmon\x01\0\0\0\x01\x02\x03\x04\x05\x06\x07\x08\x09\x0A\x0B\x0C\
            \0\0\0\x01\0\0\0\x01\0\x01\0\0\0d\0\0\0\
            seconds\0\0\0\0\0\0\0\0",
        refusal: GmonRefusal::Short { at: 52 },
    },
    GnuFault {
        name: "an empty range",
        bytes: b"gmon\x01\0\0\0\x01\x02\x03\x04\x05\x06\x07\x08\x09\x0A\x0B\x0C\
            \0\0\0\x01\0\0\0\x01\0\x01\0\0\0d\0\0\0\
            seconds\0\0\0\0\0\0\0\0s\
            \x05\0",
        refusal: EMPTY,
    },
    GnuFault {
        name: "a range before its counters",
        bytes: b"gmon\x01\0\0\0\x01\x02\x03\x04\x05\x06\x07\x08\x09\x0A\x0B\x0C\
            \0\0\0\x01\0\0\0\x01\0\x01\0\0\0d\0\0\0\
            seconds\0\0\0\0\0\0\0\0s\
            \x05",
        refusal: EMPTY,
    },
    GnuFault {
        name: "a counter less a byte",
        bytes: b"gmon\x01\0\0\0\x01\x02\x03\x04\x05\x06\x07\x08\x09\x0A\x0B\x0C\
            \0\0\0\x01\0\x10\0\x01\0\x04\0\0\0d\0\0\0\
            seconds\0\0\0\0\0\0\0\0s\
            \x01\0\x02\0\0\0\0",
        refusal: GmonRefusal::Short { at: 60 },
    },
    GnuFault {
        name: "an arc's tag",
        bytes: b"gmon\x01\0\0\0\x01\x02\x03\x04\x05\x06\x07\x08\x09\x0A\x0B\x0C\
            \x01",
        refusal: GmonRefusal::Short { at: 21 },
    },
    GnuFault {
        name: "an arc less a byte",
        bytes: b"gmon\x01\0\0\0\x01\x02\x03\x04\x05\x06\x07\x08\x09\x0A\x0B\x0C\
            \x01\x04\0\x01\0\x08\0\x01\0\0\0\0",
        refusal: GmonRefusal::Short { at: 32 },
    },
    GnuFault {
        name: "a number less a byte",
        bytes: b"gmon\x01\0\0\0\x01\x02\x03\x04\x05\x06\x07\x08\x09\x0A\x0B\x0C\
            \x02\0\0\0",
        refusal: GmonRefusal::Short { at: 24 },
    },
    GnuFault {
        name: "more pairs than there are bytes",
        bytes: b"gmon\x01\0\0\0\x01\x02\x03\x04\x05\x06\x07\x08\x09\x0A\x0B\x0C\
            \x02\xFF\xFF\xFF\xFF",
        refusal: GmonRefusal::Short { at: 25 },
    },
    GnuFault {
        name: "a pair less a byte",
        bytes: b"gmon\x01\0\0\0\x01\x02\x03\x04\x05\x06\x07\x08\x09\x0A\x0B\x0C\
            \0\0\0\x01\0\x10\0\x01\0\x04\0\0\0d\0\0\0\
            seconds\0\0\0\0\0\0\0\0s\
            \x01\0\x02\0\0\0\0\0\
            \0\0\0\x01\0\x10\0\x01\0\x04\0\0\0d\0\0\0\
            seconds\0\0\0\0\0\0\0\0s\
            \x01\0\x02\0\0\0\0\0\
            \x01\x04\0\x01\0\x08\0\x01\0\0\0\0\0\
            \x02\x01\0\0\0\0\0\x01\0\x09\0\0",
        refusal: GmonRefusal::Short { at: 127 },
    },
];

#[test]
fn the_first_fault_of_a_gnu_file_is_answered(rt: HostRuntime) -> Result<(), Fail> {
    for fault in GNU_FAULTS {
        expect_refused(
            &rt,
            rt.alloc(),
            Form::Gnu,
            fault.bytes,
            fault.name,
            fault.refusal,
        );
    }
    Ok(())
}

/// How many records the first `len` bytes of the file of two of each have.
fn bsd_front(len: u32) -> Result<usize, GmonRefusal> {
    match len {
        36 => Ok(1),
        48 => Ok(2),
        60 => Ok(3),
        0..36 => Err(GmonRefusal::Short { at: len }),
        37..48 => Err(GmonRefusal::Rest { at: 36 }),
        _ => Err(GmonRefusal::Rest { at: 48 }),
    }
}

/// How many records the first `len` bytes of the GNU file of several have.
fn gnu_front(len: u32) -> Result<usize, GmonRefusal> {
    match len {
        20 => Ok(0),
        61 => Ok(1),
        102 => Ok(2),
        115 => Ok(3),
        128 => Ok(4),
        _ => Err(GmonRefusal::Short { at: len }),
    }
}

#[test]
fn every_front_is_told_byte_by_byte(rt: HostRuntime) -> Result<(), Fail> {
    for len in 0..61u32 {
        let front = TWO_OF_EACH.split_at(len as usize).0;
        expect(&rt, rt.alloc(), Form::Bsd, front, 1, bsd_front(len));
    }
    for len in 0..129u32 {
        let front = SEVERAL.split_at(len as usize).0;
        expect(&rt, rt.alloc(), Form::Gnu, front, 1, gnu_front(len));
    }
    Ok(())
}

#[test]
fn every_cut_into_two_gives_the_same(rt: HostRuntime) -> Result<(), Fail> {
    for cut in 0..61usize {
        expect_cut(&rt, rt.alloc(), Form::Bsd, &TWO_OF_EACH, cut, Ok(3));
    }
    for cut in 0..129usize {
        expect_cut(&rt, rt.alloc(), Form::Gnu, &SEVERAL, cut, Ok(4));
    }
    Ok(())
}

/// A file of 100,000 bytes in pieces of 4,096 is read as the whole, with so many records.
fn expect_large(rt: &impl Abort, alloc: Global, form: Form, bytes: &[u8], count: usize) {
    assert_eq!(rt; bytes.len(), 100_000);
    expect(rt, alloc, form, bytes, 4_096, Ok(count));
}

#[test]
fn a_file_of_100_000_bytes_is_read_in_pieces(rt: HostRuntime) -> Result<(), Fail> {
    let bsd = large_bsd_file(rt.alloc())?;
    expect_large(&rt, rt.alloc(), Form::Bsd, &bsd, 7_665);
    let gnu = large_gnu_file(rt.alloc())?;
    expect_large(&rt, rt.alloc(), Form::Gnu, &gnu, 4_008);
    Ok(())
}

/// A name, a file, and how many of its first bytes are fed; and what is due of their profile.
type Made = (
    &'static str,
    &'static [u8],
    usize,
    Result<[u64; 3], ReadRefusal>,
);

const MADE: &[Made] = &[
    ("no counter and no arc", &HEADER_ALONE, 32, Ok([0, 0, 0])),
    ("two of each", &TWO_OF_EACH, 60, Ok([259, 16, 0])),
    ("counters and an arc", &TWO_OF_EACH, 48, Ok([259, 7, 0])),
    ("a small run", &BSD_RUN, 76, Ok([304, 4, 0])),
    ("a header", &SEVERAL, 20, Ok([0, 0, 0])),
    ("two histograms", &SEVERAL, 128, Ok([6, 0, 9])),
    ("arcs behind a histogram", &GNU_RUN, 100, Ok([304, 4, 0])),
    (
        "large numbers",
        &LARGE_NUMBERS,
        275,
        Ok([265_535, 0x2_0000_0000, 0x2_0000_0005]),
    ),
    ("no record behind an arc", &UNLIKE, 74, Ok([3, 7, 0])),
    (
        "another rate behind an arc",
        &UNLIKE,
        128,
        Err(ReadRefusal::Profile(AddRefusal::Unlike(Unlike::Rate { old: 100, new: 50 }))),
    ),
    (
        "histograms out of order",
        &OUT_OF_ORDER,
        151,
        Ok([15, 16, 0]),
    ),
    (
        "the first conflict of the file is not the lowest",
        &TWO_CONFLICTS,
        160,
        Err(ReadRefusal::Profile(AddRefusal::Unlike(Unlike::Range {
            old: HistRange {
                low: 0x1_0020,
                high: 0x1_0030,
                count: 1,
            },
            new: HistRange {
                low: 0x1_0024,
                high: 0x1_0034,
                count: 1,
            },
        }))),
    ),
];

fn expect_made_in_pieces(rt: &impl Abort, alloc: Global, row: &Made) {
    let (name, file, len, answer) = row;
    assert!(rt; *len <= file.len() && file.len() <= 1_000, "{name}");
    let bytes = file.split_at(*len).0;
    let due = Due {
        name: *name,
        answer: *answer,
    };
    for size in [1usize, 7, 100, 1_000] {
        expect_made(rt, alloc, bytes, size, due);
    }
}

#[test]
fn what_was_fed_is_a_profile(rt: HostRuntime) -> Result<(), Fail> {
    for row in MADE {
        expect_made_in_pieces(&rt, rt.alloc(), row);
    }
    Ok(())
}

/// The low address, the high one and the counters of a histogram.
fn hist_of(profile: &Profile, i: usize) -> Option<(u32, u32, &[u64])> {
    if i >= profile.hist_count() {
        return None;
    }
    let hist = profile.hist(i);
    Some((hist.low, hist.high, hist.counters.as_slice()))
}

fn expect_in_order(rt: &impl Abort, profile: &Profile) {
    assert_eq!(rt;
        (
            profile.hist_count(),
            hist_of(profile, 0),
            hist_of(profile, 1)
        ),
        (
            2,
            Some((0x1_0000, 0x1_0010, &[3u64][..])),
            Some((0x1_0010, 0x1_0020, &[12u64][..]))
        )
    );
}

#[test]
fn histograms_out_of_order_are_the_same_profile(rt: HostRuntime) -> Result<(), ReadRefusal> {
    let out_of_order = made_of(rt.alloc(), &OUT_OF_ORDER, 1_000)?;
    expect_in_order(&rt, &out_of_order);
    let in_order = made_of(rt.alloc(), &IN_ORDER, 1_000)?;
    expect_in_order(&rt, &in_order);
    assert!(rt; are_same(&out_of_order, &in_order));
    Ok(())
}
