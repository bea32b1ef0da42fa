use demo_elf::program;
use std::process::Abort;
use std::test::Fail;

/// What a word is, its offset, and the word.
type Word = (&'static str, usize, u32);

/// The four bytes at an offset, the lowest first.
fn word_at(bytes: &[u8], at: usize) -> u32 {
    let mut word = 0;
    for k in 0..4 {
        if let Some(byte) = bytes.get(at.saturating_add(k)) {
            word |= u32::from(*byte) << (8 * k as u32);
        }
    }
    word
}

/// Looks at words of a file, whose offsets count from `begin`.
fn expect_words(rt: &impl Abort, file: &[u8], begin: usize, words: &[Word]) {
    for (name, at, want) in words {
        assert_eq!(rt; word_at(file, begin.saturating_add(*at)), *want, "{name}");
    }
}

const SMALLEST: [Word; 23] = [
    ("magic", 0, 0x464C_457F),
    ("kind and machine", 16, 0x00F3_0002),
    ("entry", 24, 0x1_0000),
    ("section headers", 32, 4532),
    ("program header", 52, 1),
    ("the file's bytes in memory", 68, 320),
    ("_start counts from 100", 4096, 0x0640_0413),
    ("_start calls f0", 4100, 0x03C0_00EF),
    ("it does so again while it counts", 4108, 0xFE04_1CE3),
    ("_mcount returns", 4128, 0x0000_8067),
    ("f0 begins", 4160, 0xFF01_0113),
    // From 76 back to 32.
    ("f0 calls _mcount", 4172, 0xFD5F_F0EF),
    ("f0 counts from 10", 4176, 0x00A0_0293),
    ("no first callee", 4188, 0x13),
    ("no second callee", 4192, 0x13),
    ("no last callee", 4196, 0x13),
    ("f0 returns", 4208, 0x0000_8067),
    ("the last word", 4412, 0x13),
    ("the symbol f0 has its name", 4464, 16),
    ("and its address", 4468, 0x1_0040),
    ("the section of symbols", 4616, 2),
    ("begins", 4628, 4416),
    ("and has 64 bytes", 4632, 64),
];

#[test]
fn the_smallest_program(rt: HostRuntime) -> Result<(), Fail> {
    let file = program(rt.alloc(), 1)?;
    // 80 words, 4 symbols, 19 bytes of strings, 33 of names, 5 headers of 40 bytes.
    assert_eq!(rt; file.len(), 4096 + 320 + 64 + 19 + 33 + 200);
    expect_words(&rt, file.as_slice(), 0, &SMALLEST);
    let strings = b"\0_start\0_mcount\0f0\0";
    let behind = file.as_slice().split_at(4480.min(file.len())).1;
    assert!(rt; behind.starts_with(strings), "strings");
    Ok(())
}

const CALLEES: [Word; 11] = [
    // f0 begins at 64; its slots at 92, 96 and 100 call f1 at 320, f2 at 576 and f4 at 1088.
    ("f0 calls f1", 92, 0x0E40_00EF),
    ("f0 calls f2", 96, 0x1E00_00EF),
    ("f0 calls f4", 100, 0x3DC0_00EF),
    // f1 begins at 320: f3 at 832, f4 and f4 again.
    ("f1 counts from 20", 336, 0x0140_0293),
    ("f1 calls f3", 348, 0x1E40_00EF),
    ("f1 calls f4", 352, 0x2E00_00EF),
    ("f1 calls the last one", 356, 0x2DC0_00EF),
    // f3 begins at 832: the last one alone.
    ("f3 has no first callee", 860, 0x13),
    ("f3 has no second callee", 864, 0x13),
    ("f3 calls f4", 868, 0x0DC0_00EF),
    ("f4 calls none", 1124, 0x13),
];

#[test]
fn callees_of_functions(rt: HostRuntime) -> Result<(), Fail> {
    let file = program(rt.alloc(), 5)?;
    expect_words(&rt, file.as_slice(), 4096, &CALLEES);
    Ok(())
}

#[test]
fn the_largest_program(rt: HostRuntime) -> Result<(), Fail> {
    let file = program(rt.alloc(), 2000)?;
    // 10 names of 2 bytes, 90 of 3, 900 of 4 and 1,000 of 5, each with a zero behind it.
    let strings = 1 + 7 + 8 + 30 + 360 + 4500 + 6000;
    let names = 4096 + 4 * 128_016 + 16 * 2003 + strings;
    assert_eq!(rt; file.len(), (names + 33_usize).next_multiple_of(4) + 200);
    // f1999 begins at 511,808.
    assert_eq!(rt; word_at(file.as_slice(), 4096 + 511_808), 0xFF01_0113);
    Ok(())
}
