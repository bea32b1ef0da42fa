ghost use Rattle.std.specs.Prelude.{◌≡◌, ◌+◌, ◌^◌, ◌≤◌, IfOk, length, sum};
ghost use Rattle.gmon_data.specs.Content.{empty_content};
ghost use Rattle.std.specs.List.{All};
ghost use Rattle.elf32_syms.specs.Image.{IsWithinLimits};

use annotate::write;
use elf32_syms::{Image, Segment, SegmentList};
use gmon_data::{AddRefusal, Hist, Profile};
use gp_base::Span;
use host_port::{HostCall, MemHost};
use std::alloc::{AllocError, Global};
use std::process::Abort;
use std::test::Fail;
use test_profiles::{Counters, boxed, hist_of, new_profile, seconds, symbols_at};

/// Addresses and how often they were executed: the first 8 are taken, of 1,000 times at most.
type Runs<'a> = &'a [(u32, u64)];

/// Address and end of a symbol.
type Place = (u32, u32);

/// Adds executions and a histogram to a profile that holds nothing. One that has no range is none.
fn fill(profile: &mut Profile, hist: &Hist, runs: Runs<'_>) -> Result<(), AddRefusal>
    requires empty { profile.old ≡ empty_content }
    requires counters { length hist.now.counters ≤ 4080 }
    requires samples { sum hist.now.counters ≤ 4080 }
{
    let unit = seconds(100);
    for (addr, count) in &runs[..runs.len().min(8)] {
        profile.add_runs(*addr, (*count).min(1000))?;
    }
    if hist.low < hist.high {
        profile.add_wide(hist, unit)?;
    }
    Ok(())
}

/// A profile of executions and a histogram.
fn profile_of(
    alloc: Global,
    samples: Counters<'_>,
    runs: Runs<'_>,
) -> Result<Box<Profile>, AddRefusal> {
    let hist = hist_of(alloc, samples)?;
    let mut profile = new_profile(alloc)?;
    fill(&mut profile, &hist, runs)?;
    Ok(profile)
}

/// Those of the segments that lie in a file of `len` bytes.
fn segments_of(alloc: Global, rows: &[Segment], len: usize) -> Result<SegmentList, AllocError>
    ensures { IfOk result (All (λ s. s.offset + s.filesz ≤ len)) }
{
    let mut segments = SegmentList::new(alloc);
    for segment in rows {
        if segment.offset as usize + segment.filesz as usize <= len {
            segments.push(*segment)?;
        }
    }
    Ok(segments)
}

/// An image of a file of so many bytes.
fn image_of(
    alloc: Global,
    len: usize,
    segments: &[Segment],
    places: &[Place],
) -> Result<Box<Image>, AllocError>
    ensures { IfOk result (λ image. IsWithinLimits len image.value) }
{
    let symbols = symbols_at(alloc, places)?;
    let segments = segments_of(alloc, segments, len)?;
    let image = Image {
        entry: 0x1000,
        segments,
        text: Span {
            low: 0x1000,
            high: 0x2000,
        },
        symbols,
        mcount: None,
        moncontrol: None,
    };
    boxed(alloc, image)
}

/// Whether a part stands in a text.
fn has(text: &[u8], part: &[u8]) -> bool {
    for at in 0..text.len() {
        if text.split_at(at).1.starts_with(part) {
            return true;
        }
    }
    false
}

/// The lines of a text.
fn line_count(text: &[u8]) -> usize {
    let mut lines = 0usize;
    for byte in text {
        if *byte == b'\n' {
            lines = lines.saturating_add(1);
        }
    }
    lines
}

/// The image of a file.
fn image_in(alloc: Global, bytes: &[u8]) -> Result<Box<Image>, Fail>
    requires { length bytes.now ≤ 2 ^ 22 }
    ensures { IfOk result (λ image. IsWithinLimits (length bytes.now) image.value) }
{
    let image = elf32_syms::read(alloc, bytes).map_err(|_| "read")?;
    Ok(boxed(alloc, image)?)
}

/// Samples in the demo program.
const DEMO_SAMPLES: Counters<'static> = (0x1_0058, 0x1_0068, b"\x02\0\x01\0");

/// Prints the listing of the demo program, with these executions; false where a call fails.
fn print_demo(alloc: Global, runs: Runs<'_>, host: &mut MemHost) -> Result<bool, Fail> {
    let bytes = demo_elf::program(alloc, 1)?;
    let image = image_in(alloc, bytes.as_slice())?;
    let profile = profile_of(alloc, DEMO_SAMPLES, runs)?;
    Ok(write(&image, bytes.as_slice(), &profile, host).is_ok())
}

/// A listing was printed, with these lines.
fn expect_lines(rt: &impl Abort, is_printed: bool, printed: &[u8], lines: &[&str]) {
    assert!(rt; is_printed);
    for line in lines {
        assert!(rt; has(printed, line.as_bytes()), "{line}");
    }
}

const DEMO_RUNS: &[(u32, u64)] = &[(0x1_0058, 1000), (0x1_005C, 100)];

const DEMO_LINES: &[&'static str] = &[
    "\n00010058        1000           2000000  fe029ee3  bne x5, x0, 0x00010054\n",
    "\n0001005c         100                 0  00000013  addi x0, x0, 0\n",
    "\n00010060           0           1000000  ",
];

#[test]
fn lines_of_the_demo_program(rt: HostRuntime) -> Result<(), Fail> {
    let mut host = boxed(rt.alloc(), MemHost::new(rt.alloc()))?;
    let is_printed = print_demo(rt.alloc(), DEMO_RUNS, &mut host)?;
    expect_lines(&rt, is_printed, host.printed(), DEMO_LINES);
    // The text has 320 bytes and three symbols.
    assert_eq!(rt; line_count(host.printed()), 84);
    Ok(())
}

const LINES_WITHOUT_EXECUTIONS: &[&'static str] = &[
    "\n00010058           0           2000000  fe029ee3  bne x5, x0, 0x00010054\n",
    "\n0001005c           0                 0  00000013  addi x0, x0, 0\n",
];

#[test]
fn lines_without_executions(rt: HostRuntime) -> Result<(), Fail> {
    let mut host = boxed(rt.alloc(), MemHost::new(rt.alloc()))?;
    let is_printed = print_demo(rt.alloc(), &[], &mut host)?;
    expect_lines(&rt, is_printed, host.printed(), LINES_WITHOUT_EXECUTIONS);
    Ok(())
}

/// Instructions: `addi x0, x0, 0`, none, `jal x0, 0` and `ecall`; then the upper half of `ebreak`.
const FILE: [u8; 18] = *b"\x13\0\0\0\xff\xff\xff\xff\x6f\0\0\0\x73\0\0\0\x10\0";

const SEGMENTS: &[Segment] = &[
    Segment {
        addr: 0x1000,
        offset: 0,
        filesz: 8,
        memsz: 12,
    },
    Segment {
        addr: 0x1014,
        offset: 12,
        filesz: 4,
        memsz: 4,
    },
    // Over the upper half of the last one.
    Segment {
        addr: 0x1016,
        offset: 16,
        filesz: 2,
        memsz: 4,
    },
    // It has no bytes of the file, so the first one keeps its own.
    Segment {
        addr: 0x1000,
        offset: 0,
        filesz: 0,
        memsz: 4,
    },
    Segment {
        addr: 0x1030,
        offset: 8,
        filesz: 4,
        memsz: 4,
    },
];

const PLACES: &[Place] = &[
    (0x1000, 0x100E),
    (0x100E, 0x1012),
    (0x1012, 0x1019),
    (0x1020, 0x1024),
    (0x1030, 0x1034),
];

/// Buckets of 8 addresses. `b` and `c` begin within words, and nothing is loaded at `d`.
const LISTING: &[&'static str] = &[
    "annotated listing",
    "a:",
    "00001000           7           1000000  00000013  addi x0, x0, 0",
    "00001004           0           1000000  ffffffff  illegal",
    "00001008           0           2500000  00000000  illegal",
    "0000100c           0           1250000  -",
    "b:",
    "0000100e           9           1250000  -",
    "00001010           0            250000  -",
    "c:",
    "00001012           3            250000  -",
    "00001014           0            500000  00100073  ebreak",
    "00001018           0                 0  -",
    "d:",
    "00001020           0                 0  -",
    "e:",
];

const LAST_LINE: &str = "00001030           0                 0  0000006f  jal x0, 0x00001030";

fn push_line(text: &mut Vec<u8>, line: &str) -> Result<(), AllocError> {
    text.extend_from_slice(line.as_bytes())?;
    text.push(b'\n')?;
    Ok(())
}

/// The text with these lines, and a last one.
fn text(alloc: Global, lines: &[&str], last: &str) -> Result<Vec<u8>, AllocError> {
    let mut text = Vec::new(alloc);
    for line in lines {
        push_line(&mut text, line)?;
    }
    push_line(&mut text, last)?;
    Ok(text)
}

/// Prints the listing of that file, with these symbols and this profile; false where a call fails.
fn print_file(
    alloc: Global,
    places: &[Place],
    profile: &Profile,
    host: &mut MemHost,
) -> Result<bool, AllocError> {
    let image = image_of(alloc, FILE.len(), SEGMENTS, places)?;
    Ok(write(&image, &FILE, profile, host).is_ok())
}

/// This text was printed.
fn expect_text(rt: &impl Abort, is_printed: bool, printed: &[u8], want: &[u8]) {
    assert_eq!(rt; (is_printed, printed), (true, want));
}

/// The listing of that file has this text.
fn expect_listing(
    rt: &impl Abort,
    alloc: Global,
    places: &[Place],
    profile: &Profile,
    want: &[u8],
) -> Result<(), AllocError> {
    let mut host = boxed(alloc, MemHost::new(alloc))?;
    let is_printed = print_file(alloc, places, profile, &mut host)?;
    expect_text(rt, is_printed, host.printed(), want);
    Ok(())
}

const SAMPLES: Counters<'static> = (0x1000, 0x1018, b"\x02\x05\x01");

const RUNS: &[(u32, u64)] = &[(0x1000, 7), (0x1002, 5), (0x100E, 9), (0x1012, 3)];

#[test]
fn cells_of_symbols(rt: HostRuntime) -> Result<(), Fail> {
    let profile = profile_of(rt.alloc(), SAMPLES, RUNS)?;
    let want = text(rt.alloc(), LISTING, LAST_LINE)?;
    expect_listing(&rt, rt.alloc(), PLACES, &profile, want.as_slice())?;
    Ok(())
}

#[test]
fn no_symbols(rt: HostRuntime) -> Result<(), Fail> {
    let profile = new_profile(rt.alloc())?;
    expect_listing(&rt, rt.alloc(), &[], &profile, b"annotated listing\n")?;
    Ok(())
}

/// The first call failed, and nothing was printed.
fn expect_failed(rt: &impl Abort, is_printed: bool, host: &MemHost) {
    assert_eq!(rt;
        (is_printed, host.first_failed(), host.printed()),
        (false, Some(HostCall::Out), b"".as_slice())
    );
}

/// Prints a listing on a host whose first call fails.
fn print_without_output(alloc: Global, host: &mut MemHost) -> Result<bool, AllocError> {
    let profile = new_profile(alloc)?;
    host.fail_at(0)?;
    print_file(alloc, &[], &profile, host)
}

#[test]
fn no_output(rt: HostRuntime) -> Result<(), Fail> {
    let mut host = boxed(rt.alloc(), MemHost::new(rt.alloc()))?;
    let is_printed = print_without_output(rt.alloc(), &mut host)?;
    expect_failed(&rt, is_printed, &host);
    Ok(())
}

const MANY_SAMPLES: Counters<'static> = (0x1000, 0x1000 + 40_000, b"\x10\x10\x10\x10\x10");

/// The listing of 10,000 cells was printed.
fn expect_many_cells(rt: &impl Abort, is_printed: bool, printed: &[u8]) {
    assert_eq!(rt; (is_printed, line_count(printed)), (true, 10_002));
    // A bucket of 8,000 addresses has 16 samples.
    assert!(rt; printed.ends_with(b"\n0000ac3c           0              8000  -\n"));
}

const MANY_ADDRESSES: [Place; 1] = [(0x1000, 0x1000 + 40_000)];

/// Prints the listing of a symbol of 40,000 addresses.
fn print_many_cells(alloc: Global, host: &mut MemHost) -> Result<bool, AddRefusal> {
    let profile = profile_of(alloc, MANY_SAMPLES, &[(0x1000, 1)])?;
    let is_printed = print_file(alloc, &MANY_ADDRESSES, &profile, host)?;
    Ok(is_printed)
}

#[test]
fn many_cells(rt: HostRuntime) -> Result<(), Fail> {
    let mut host = boxed(rt.alloc(), MemHost::new(rt.alloc()))?;
    let is_printed = print_many_cells(rt.alloc(), &mut host)?;
    expect_many_cells(&rt, is_printed, host.printed());
    Ok(())
}
