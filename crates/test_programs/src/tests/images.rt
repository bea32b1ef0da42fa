ghost use Rattle.elf32_syms.specs.Owners.{IsAscending};

use crate::{Entry, FUNCTION, elf, function, len_of, push_words};
use elf32_syms::{ElfRefusal, Image, Segment, Symbol, owner, read};
use gp_base::le4;
use std::alloc::{AllocError, Global};
use std::process::Abort;
use std::test::Fail;

/// The one segment of the program of one instruction.
const ONE_SEGMENT: [Segment; 1] = [Segment {
    addr: 0x10000,
    offset: 4096,
    filesz: 4,
    memsz: 4,
}];

/// Writes bytes over those at an offset.
fn write(file: &mut Vec<u8>, at: usize, bytes: &[u8]) {
    for (i, b) in bytes.iter().enumerate() {
        if at < 1_000_000 && at + i < file.len() {
            file[at + i] = *b;
        }
    }
}

/// The program of one jump to itself.
fn one_instruction(alloc: Global) -> Result<Vec<u8>, AllocError> {
    elf(alloc, &[0x0000_006F], &[function("_start", 0)])
}

/// A symbol: name, offset in the text, `st_info` and `st_shndx`.
type Named = (&'static str, u32, u32, u32);

fn entry(symbol: &Named) -> Entry<'static> {
    Entry {
        name: symbol.0,
        offset: symbol.1,
        info: symbol.2,
        section: symbol.3,
    }
}

/// The image of a program of six instructions that do nothing, with three symbols.
fn six_nops(alloc: Global, [a, b, c]: &[Named; 3]) -> Result<Image, Fail> {
    let file = elf(alloc, &[0x0000_0013; 6], &[entry(a), entry(b), entry(c)])?;
    if file.len() > 10_000 {
        return Err("a long file")?;
    }
    Ok(read(alloc, &file)?)
}

/// What became of a file.
fn refused(alloc: Global, file: &[u8]) -> Option<ElfRefusal> {
    if file.len() > 2_000_000 {
        return None;
    }
    read(alloc, file).err()
}

#[test]
fn a_program_of_one_instruction(rt: HostRuntime) -> Result<(), Fail> {
    let file = one_instruction(rt.alloc())?;
    assert_eq!(rt; file.len(), 4376);
    expect_one_instruction(&rt, &read(rt.alloc(), &file)?);
    Ok(())
}

fn expect_one_instruction(rt: &impl Abort, image: &Image)
    requires { IsAscending image.now.symbols }
{
    assert_eq!(rt; image.entry, 0x10000);
    assert_eq!(rt; (image.text.low, image.text.high), (0x10000, 0x10004));
    assert_eq!(rt; image.segments.as_slice(), ONE_SEGMENT.as_slice());
    assert_eq!(rt; image.mcount, None);
    assert_eq!(rt; image.moncontrol, None);
    assert_eq!(rt; owner(image.symbols.as_slice(), 0xFFFF), None);
    assert_eq!(rt; owner(image.symbols.as_slice(), 0x10000), Some(0));
    assert_eq!(rt; image.lookup(0x10003), Some(0));
    assert_eq!(rt; image.lookup(0x10004), None);
}

/// A file that is cut and changed: the length that is left, an offset, the bytes that are written there, and the refusal.
type Change = (usize, usize, &'static [u8], Option<ElfRefusal>);

const CHANGES: [Change; 25] = [
    (0, 0, b"", Some(ElfRefusal::Short { len: 0 })),
    (51, 0, b"", Some(ElfRefusal::Short { len: 51 })),
    (52, 0, b"", Some(ElfRefusal::OutOfFile { at: 52 })),
    (4376, 0, b"\0", Some(ElfRefusal::Magic)),
    (4376, 4, b"\x02", Some(ElfRefusal::Class { value: 2 })),
    (4376, 5, b"\x02", Some(ElfRefusal::Order { value: 2 })),
    (4376, 16, b"\x03", Some(ElfRefusal::Kind { value: 3 })),
    (4376, 18, b"\x3e", Some(ElfRefusal::Machine { value: 62 })),
    (4376, 36, b"\x01", Some(ElfRefusal::Flags { value: 1 })),
    (4376, 36, b"\x08", Some(ElfRefusal::Flags { value: 8 })),
    (4376, 36, b"\x04", None),
    (4376, 42, b"\x1f", Some(ElfRefusal::TableSize { value: 31 })),
    (4376, 44, b"\x40", None),
    (4376, 44, b"\x41", Some(ElfRefusal::TableSize { value: 65 })),
    (4376, 46, b"\x40", Some(ElfRefusal::TableSize { value: 64 })),
    (4375, 0, b"", Some(ElfRefusal::OutOfFile { at: 4176 })),
    (
        4376,
        68,
        b"\x30\x11\0\0\x30\x11\0\0",
        Some(ElfRefusal::OutOfFile { at: 4096 }),
    ),
    (
        4376,
        4224,
        b"\x02",
        Some(ElfRefusal::TextRange { low: 0, high: 0 }),
    ),
    (
        4376,
        4236,
        b"\0\0\0\x02",
        Some(ElfRefusal::TextRange {
            low: 65536,
            high: 33619968,
        }),
    ),
    (
        4376,
        4276,
        b"\0\x10",
        Some(ElfRefusal::OutOfFile { at: 4100 }),
    ),
    (4376, 4280, b"\x09", Some(ElfRefusal::Link { index: 9 })),
    (4376, 4280, b"\x01", Some(ElfRefusal::Link { index: 1 })),
    (
        4376,
        4316,
        b"\0\x10",
        Some(ElfRefusal::OutOfFile { at: 4132 }),
    ),
    (4376, 4116, b"\x08", Some(ElfRefusal::Link { index: 1 })),
    (4376, 0, b"", None),
];

#[test]
fn twisted_files_are_refused(rt: HostRuntime) -> Result<(), Fail> {
    for change in &CHANGES {
        let found = refused_with(rt.alloc(), change)?;
        assert_eq!(rt; found, change.3, "{change:?}");
    }
    Ok(())
}

/// What becomes of the changed file.
fn refused_with(alloc: Global, change: &Change) -> Result<Option<ElfRefusal>, AllocError> {
    let mut file = one_instruction(alloc)?;
    file.truncate(change.0);
    write(&mut file, change.1, change.2);
    Ok(refused(alloc, &file))
}

/// A program with so many symbols at as many addresses of a text of 128 KiB.
fn with_symbols(alloc: Global, count: u32) -> Result<Vec<u8>, AllocError> {
    let mut file = one_instruction(alloc)?;
    let count = count.min(65_537);
    write(&mut file, 4236, &le4(0x2_0000));
    let symbols_at = len_of(&file);
    write(&mut file, 4272, &le4(symbols_at));
    write(&mut file, 4276, &le4(16 * count + 16));
    push_words(&mut file, &[0, 0, 0, 0])?;
    for number in 0..count {
        push_words(&mut file, &[1, 0x10000 + number, 0, FUNCTION + 65536])?;
    }
    Ok(file)
}

/// The address and the end of the last symbol, of so many.
fn last_of(alloc: Global, count: u32) -> Result<Option<(usize, u32, u32)>, Fail> {
    let file = with_symbols(alloc, count)?;
    if file.len() > 2_000_000 {
        return Ok(None);
    }
    let image = read(alloc, &file)?;
    let symbols = image.symbols.as_slice();
    Ok(
        symbols
            .last()
            .map(|last| (symbols.len(), last.addr, last.end)),
    )
}

#[test]
fn as_many_symbols_as_the_limit(rt: HostRuntime) -> Result<(), Fail> {
    let last = last_of(rt.alloc(), 65_536)?;
    assert_eq!(rt; last, Some((65_536, 0x1_FFFF, 0x3_0000)));
    let many = refused(rt.alloc(), &with_symbols(rt.alloc(), 65_537)?);
    assert_eq!(rt; many, Some(ElfRefusal::TooManySymbols { count: 65_537 }));
    Ok(())
}

/// Whether the symbols have these addresses, ends and names.
fn are(symbols: &[Symbol], want: &[(u32, u32, &str)]) -> bool {
    if symbols.len() != want.len() {
        return false;
    }
    for (symbol, (addr, end, name)) in symbols.iter().zip(want) {
        if symbol.addr != *addr || symbol.end != *end || symbol.name.as_slice() != name.as_bytes() {
            return false;
        }
    }
    true
}

/// What is shown, three symbols, and the addresses, ends and names of those that are kept.
type Kept = (
    &'static str,
    [Named; 3],
    &'static [(u32, u32, &'static str)],
);

const KEPT: [Kept; 10] = [
    (
        "in any order",
        [
            ("f", 12, 0x12, 1),
            ("_start", 0, 0x12, 1),
            ("g", 8, 0x12, 1),
        ],
        &[
            (0x10000, 0x10008, "_start"),
            (0x10008, 0x1000C, "g"),
            (0x1000C, 0x10018, "f"),
        ],
    ),
    (
        "global before weak and local",
        [("a", 4, 0x02, 1), ("b", 4, 0x22, 1), ("c", 4, 0x12, 1)],
        &[(0x10004, 0x10018, "c")],
    ),
    (
        "weak before local",
        [("a", 4, 0x02, 1), ("b", 4, 0x22, 1), ("c", 4, 0x22, 1)],
        &[(0x10004, 0x10018, "b")],
    ),
    (
        "function before no type",
        [("a", 4, 0x10, 1), ("c", 4, 0x12, 1), ("b", 4, 0x12, 1)],
        &[(0x10004, 0x10018, "b")],
    ),
    (
        "the lesser name, then number",
        [("ab", 4, 0x12, 1), ("a", 4, 0x12, 1), ("a", 4, 0x12, 1)],
        &[(0x10004, 0x10018, "a")],
    ),
    (
        "weak and global symbols of no type",
        [("f", 0, 0x12, 1), ("a", 4, 0x20, 1), ("b", 8, 0x10, 1)],
        &[
            (0x10000, 0x10004, "f"),
            (0x10004, 0x10008, "a"),
            (0x10008, 0x10018, "b"),
        ],
    ),
    (
        "neither local ones of no type nor objects",
        [("f", 0, 0x12, 1), ("a", 4, 0x00, 1), ("b", 4, 0x11, 1)],
        &[(0x10000, 0x10018, "f")],
    ),
    (
        "an empty name",
        [("f", 0, 0x12, 1), ("", 4, 0x12, 1), ("g", 20, 0x12, 1)],
        &[(0x10000, 0x10014, "f"), (0x10014, 0x10018, "g")],
    ),
    (
        "in no executable section",
        [("f", 0, 0x12, 1), ("a", 4, 0x12, 2), ("b", 4, 0x12, 0xFFF1)],
        &[(0x10000, 0x10018, "f")],
    ),
    (
        "behind its section",
        [("f", 0, 0x12, 1), ("a", 24, 0x12, 1), ("b", 23, 0x12, 1)],
        &[(0x10000, 0x10017, "f"), (0x10017, 0x10018, "b")],
    ),
];

#[test]
fn one_symbol_is_kept_at_each_address(rt: HostRuntime) -> Result<(), Fail> {
    for case in &KEPT {
        assert!(rt; is_kept(rt.alloc(), case)?, "{}", case.0);
    }
    Ok(())
}

fn is_kept(alloc: Global, case: &Kept) -> Result<bool, Fail> {
    let image = six_nops(alloc, &case.1)?;
    Ok(are(image.symbols.as_slice(), case.2))
}

/// What is shown, three symbols, and the addresses of `_mcount` and `moncontrol`.
type Found = (&'static str, [Named; 3], Option<u32>, Option<u32>);

const FOUND: [Found; 4] = [
    (
        "kept",
        [
            ("_start", 0, 0x12, 1),
            ("_mcount", 8, 0x12, 1),
            ("f", 12, 0x12, 1),
        ],
        Some(0x10008),
        None,
    ),
    (
        "not kept",
        [
            ("a", 4, 0x12, 1),
            ("_mcount", 4, 0x02, 1),
            ("moncontrol", 4, 0x02, 1),
        ],
        Some(0x10004),
        Some(0x10004),
    ),
    (
        "the first by number",
        [
            ("_mcount", 12, 0x12, 1),
            ("_mcount", 4, 0x12, 1),
            ("moncontrol", 8, 0x12, 1),
        ],
        Some(0x1000C),
        Some(0x10008),
    ),
    (
        "longer and shorter names",
        [
            ("_mcount2", 0, 0x12, 1),
            ("_mcoun", 4, 0x12, 1),
            ("moncontrols", 8, 0x12, 1),
        ],
        None,
        None,
    ),
];

#[test]
fn the_profiling_runtime_is_found(rt: HostRuntime) -> Result<(), Fail> {
    for case in &FOUND {
        assert_eq!(rt;
            runtime(rt.alloc(), &case.1)?,
            (case.2, case.3),
            "{}",
            case.0
        );
    }
    Ok(())
}

fn runtime(alloc: Global, symbols: &[Named; 3]) -> Result<(Option<u32>, Option<u32>), Fail> {
    let image = six_nops(alloc, symbols)?;
    Ok((image.mcount, image.moncontrol))
}

/// The image of a file once bytes are written at an offset: whether it has the one segment, and how many segments and
/// symbols.
fn read_with(
    alloc: Global,
    file: &mut Vec<u8>,
    at: usize,
    bytes: &[u8],
) -> Result<(bool, usize, usize), Fail> {
    write(file, at, bytes);
    if file.len() != 4376 {
        return Err("another length")?;
    }
    let image = read(alloc, file)?;
    let segments = image.segments.as_slice();
    let is_one = segments == ONE_SEGMENT.as_slice();
    Ok((is_one, segments.len(), image.symbols.as_slice().len()))
}

#[test]
fn odd_tables_are_read(rt: HostRuntime) -> Result<(), Fail> {
    let mut file = one_instruction(rt.alloc())?;
    let (is_one, _, _) = read_with(rt.alloc(), &mut file, 68, b"\x30\x11\0\0")?;
    let (_, segments, _) = read_with(rt.alloc(), &mut file, 72, b"\0")?;
    let (_, _, symbols) = read_with(rt.alloc(), &mut file, 4260, b"\x01")?;
    assert!(rt; is_one, "more bytes in the file than in memory");
    assert_eq!(rt; segments, 0, "no memory");
    assert_eq!(rt; symbols, 0, "no symbol table");
    Ok(())
}

#[test]
fn a_long_name_is_cut(rt: HostRuntime) -> Result<(), Fail> {
    let mut name = String::new(rt.alloc());
    for _ in 0..4100 {
        name.push('a')?;
    }
    let file = elf(rt.alloc(), &[0x0000_006F], &[function(name.as_str(), 0)])?;
    assert!(rt; file.len() < 10_000);
    let image = read(rt.alloc(), &file)?;
    let lengths = image
        .symbols
        .as_slice()
        .iter()
        .map(|symbol| symbol.name.as_slice().len());
    assert!(rt; lengths.eq([4095]));
    Ok(())
}
