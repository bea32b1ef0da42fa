ghost use Rattle.std.specs.Prelude.{IfOk};
ghost use Rattle.elf32_syms.specs.Owners.{IsAscending};

use elf32_syms::{Image, SegmentList, Symbol, SymbolList};
use gmon_files::FileReader;
use gp_base::{
    BlockList, Counts, Form, Name, RawArc, RawBlock, RawHist, Rec, RecList, Records, Span, Unit,
};
use host_port::MemHost;
use std::alloc::{AllocError, Global};
use std::process::Abort;
use std::test::Fail;
use text_lines::*;

/// What is shown of three counters and an arc.
const BSD_TEXT: &[u8] =
    b"bsd low fffffff0 high ffffffff counters 3 rate 0\ncount fffffff5 9\narc 00000001 00000002 4294967295\n";

/// What is shown of two counts of blocks and a histogram.
const GNU_TEXT: &[u8] =
    b"gnu\nblocks 2\nblock 00000001 0\nblock ffffffff 4294967295\nhist low 00000001 high 00000002 counters 1 rate 50 unit 000fa07365636f6e6473ff0000000073\ncount 00000001 65535\n";

/// A list of counters.
fn counters_of(alloc: Global, counters: &[u16]) -> Result<Counts, AllocError> {
    let mut list = Counts::new(alloc);
    for counter in counters {
        list.push(*counter)?;
    }
    Ok(list)
}

/// A histogram of three counters at the end of all addresses.
fn last_hist(alloc: Global) -> Result<RawHist, AllocError> {
    Ok(RawHist {
        low: 0xFFFF_FFF0,
        high: 0xFFFF_FFFF,
        unit: Unit {
            rate: 0,
            dim: *b"seconds\0\0\0\0\0\0\0\0",
            abbrev: b's',
        },
        counters: counters_of(alloc, &[0, 9, 0])?,
    })
}

/// It and an arc.
fn bsd_records(alloc: Global) -> Result<Records, AllocError> {
    let mut recs = RecList::new(alloc);
    recs.push(Rec::Hist(last_hist(alloc)?))?;
    recs.push(Rec::Arc(RawArc {
        from: 1,
        to: 2,
        count: u32::MAX,
    }))?;
    Ok(Records {
        form: Form::Bsd,
        recs,
    })
}

fn expect_shown(rt: &impl Abort, alloc: Global, records: &Records, text: &[u8]) {
    let mut host = MemHost::new(alloc);
    let is_shown = show_records(records, &mut host).is_ok();
    assert_eq!(rt; (is_shown, host.printed()), (true, text), "shown");
}

#[test]
fn counters_that_are_0_have_no_line(rt: HostRuntime) -> Result<(), Fail> {
    let records = bsd_records(rt.alloc())?;
    expect_shown(&rt, rt.alloc(), &records, BSD_TEXT);
    Ok(())
}

/// A histogram of one counter, in a dimension with bytes that are no text.
fn odd_hist(alloc: Global) -> Result<RawHist, AllocError> {
    Ok(RawHist {
        low: 1,
        high: 2,
        unit: Unit {
            rate: 50,
            dim: *b"\x00\x0f\xa0seconds\xff\0\0\0\0",
            abbrev: b's',
        },
        counters: counters_of(alloc, &[65_535])?,
    })
}

/// Two counts of blocks.
fn two_blocks(alloc: Global) -> Result<BlockList, AllocError> {
    let mut blocks = BlockList::new(alloc);
    for (addr, count) in [(1, 0), (u32::MAX, u32::MAX)] {
        blocks.push(RawBlock { addr, count })?;
    }
    Ok(blocks)
}

/// They and that histogram.
fn gnu_records(alloc: Global) -> Result<Records, AllocError> {
    let mut recs = RecList::new(alloc);
    recs.push(Rec::Blocks(two_blocks(alloc)?))?;
    recs.push(Rec::Hist(odd_hist(alloc)?))?;
    Ok(Records {
        form: Form::Gnu,
        recs,
    })
}

#[test]
fn records_of_the_gnu_form_are_shown(rt: HostRuntime) -> Result<(), Fail> {
    let records = gnu_records(rt.alloc())?;
    expect_shown(&rt, rt.alloc(), &records, GNU_TEXT);
    Ok(())
}

/// A name of 4,095 bytes.
fn long_name(alloc: Global) -> Result<Name, AllocError> {
    let mut name = Name::new(alloc);
    for _ in 0..4095 {
        name.push(b'x')?;
    }
    Ok(name)
}

/// A program of one function with that name, whose hooks lie at the first address and the last one.
fn hooked_image(alloc: Global) -> Result<Image, AllocError>
    ensures { IfOk result (λ image. IsAscending image.symbols) }
{
    let mut symbols = SymbolList::new(alloc);
    symbols.push(Symbol {
        addr: 0,
        end: 8,
        name: long_name(alloc)?,
    })?;
    Ok(Image {
        entry: 4,
        segments: SegmentList::new(alloc),
        text: Span { low: 0, high: 8 },
        symbols,
        mcount: Some(0),
        moncontrol: Some(u32::MAX),
    })
}

/// What is shown of it.
fn hooked_lines(alloc: Global) -> Result<Vec<u8>, AllocError> {
    let mut lines = Vec::new(alloc);
    lines.extend_from_slice(
        b"text 00000000 00000008 entry 00000004 mcount 00000000 moncontrol ffffffff\n00000000 8 ",
    )?;
    for _ in 0..4095 {
        lines.push(b'x')?;
    }
    lines.push(b'\n')?;
    Ok(lines)
}

fn expect_image(rt: &impl Abort, alloc: Global, image: &Image, text: &[u8])
    requires { IsAscending image.now.symbols }
{
    let mut host = MemHost::new(alloc);
    let is_shown = show_image(image, &mut host).is_ok();
    assert_eq!(rt; (is_shown, host.printed()), (true, text), "shown");
}

#[test]
fn hooks_and_long_names_are_shown_whole(rt: HostRuntime) -> Result<(), Fail> {
    let image = hooked_image(rt.alloc())?;
    let lines = hooked_lines(rt.alloc())?;
    expect_image(&rt, rt.alloc(), &image, lines.as_slice());
    Ok(())
}

/// A file of the GNU form: two block counts, a histogram of one counter in a dimension with bytes that are no text,
/// an arc, and no block counts.
const GNU_FILE: &[u8] =
    b"gmon\x01\0\0\0\0\0\0\0\0\0\0\0\0\0\0\0\x02\x02\0\0\0\x01\0\0\0\0\0\0\0\xff\xff\xff\xff\xff\xff\xff\xff\0\x01\0\0\0\x02\0\0\0\x01\0\0\0\x32\0\0\0\0\x0f\xa0seconds\xff\0\0\0\0s\xff\xff\x01\x01\0\0\0\x02\0\0\0\x03\0\0\0\x02\0\0\0\0";

/// A file of the 4.4BSD form: three counters and an arc.
const BSD_FILE: &[u8] =
    b"\xf0\xff\xff\xff\xff\xff\xff\xff\x26\0\0\0\x79\x18\x05\0\0\0\0\0\0\0\0\0\0\0\0\0\0\0\0\0\0\0\x09\0\0\0\x01\0\0\0\x02\0\0\0\xff\xff\xff\xff";

/// A file, and what is shown of it.
const FILES: [(&[u8], &[u8]); 2] = [
    (
        GNU_FILE,
        b"gnu\nblocks 2\nblock 00000001 0\nblock ffffffff 4294967295\nhist low 00000001 high 00000002 counters 1 rate 50 unit 000fa07365636f6e6473ff0000000073\ncount 00000001 65535\narc 00000001 00000002 3\nblocks 0\n",
    ),
    (BSD_FILE, BSD_TEXT),
];

#[test]
fn whole_files_are_shown(rt: HostRuntime) -> Result<(), Fail> {
    for (bytes, want) in &FILES {
        let mut host = MemHost::new(rt.alloc());
        show_bytes(rt.alloc(), bytes, &mut host)?;
        assert_eq!(rt; host.printed(), *want);
    }
    Ok(())
}

fn show_bytes(alloc: Global, bytes: &[u8], host: &mut MemHost) -> Result<(), Fail> {
    if bytes.len() > 200 {
        return Err("a long file")?;
    }
    let reader = FileReader::new().feed(alloc, bytes)?;
    match reader.records() {
        Ok(views) => Ok(show_file(views, host).map_err(|_| "shown")?),
        Err(_) => Err("refused")?,
    }
}
