ghost use Rattle.std.specs.Prelude.{◌≡◌, [], ◌∷◌, IfOk};

use crate::boxed;
use elf32_syms::{Image, Segment};
use gp_base::{Items, Span, le4};
use rv_step::Stepped::*;
use rv_step::TrapKind::*;
use rv_step::{Ram, Regs, Stepped, step};
use std::alloc::{AllocError, Global};
use std::process::Abort;
use std::test::Fail;

/// A word, what x1 and x2 hold before it, and x3 after it.
const RESULTS: &[(u32, u32, u32, u32)] = &[
    (0x0020_81B3, 0xFFFF_FFFF, 2, 1), // add wraps
    (0x4020_81B3, 1, 2, 0xFFFF_FFFF), // sub wraps
    (0x0020_91B3, 3, 0x1F, 0x8000_0000), // sll by 31
    (0x0020_91B3, 1, 0x21, 2), // sll by 33 is by 1
    (0x0020_A1B3, 0x8000_0000, 1, 1), // slt is signed
    (0x0020_B1B3, 0x8000_0000, 1, 0), // sltu is unsigned
    (0x0020_C1B3, 0xF0F, 0xFF, 0xFF0), // xor
    (0x0020_D1B3, 0x8000_0000, 0x1F, 1), // srl by 31
    (0x0020_D1B3, 0x8000_0000, 0x21, 0x4000_0000), // srl by 33 is by 1
    (0x4020_D1B3, 0x8000_0000, 0x1F, 0xFFFF_FFFF), // sra of a negative number
    (0x4020_D1B3, 0x8000_0000, 0x21, 0xC000_0000), // sra by 33 is by 1
    (0x0020_E1B3, 0xF0F, 0xFF, 0xFFF), // or
    (0x0020_F1B3, 0xF0F, 0xFF, 0xF), // and
    (0x0220_81B3, 0xFFFF_FFFF, 0xFFFF_FFFF, 1), // mul keeps the low half
    (0x0220_91B3, 0x8000_0000, 0x8000_0000, 0x4000_0000), // mulh of the least numbers
    (0x0220_A1B3, 0xFFFF_FFFF, 0xFFFF_FFFF, 0xFFFF_FFFF), // mulhsu of a negative number
    (0x0220_B1B3, 0xFFFF_FFFF, 0xFFFF_FFFF, 0xFFFF_FFFE), // mulhu
    (0x0220_C1B3, 0x8000_0000, 0xFFFF_FFFF, 0x8000_0000), // div of the least by -1
    (0x0220_C1B3, 0xFFFF_FFF9, 2, 0xFFFF_FFFD), // div rounds toward zero
    (0x0220_C1B3, 7, 0, 0xFFFF_FFFF), // div by 0
    (0x0220_D1B3, 7, 0, 0xFFFF_FFFF), // divu by 0
    (0x0220_D1B3, 0xFFFF_FFFF, 2, 0x7FFF_FFFF), // divu is unsigned
    (0x0220_E1B3, 0x8000_0000, 0xFFFF_FFFF, 0), // rem of the least by -1
    (0x0220_E1B3, 0xFFFF_FFF9, 2, 0xFFFF_FFFF), // rem has the dividend's sign, which is negative
    (0x0220_E1B3, 7, 0xFFFF_FFFE, 1), // rem has the dividend's sign, which is positive
    (0x0220_E1B3, 0xFFFF_FFF9, 0, 0xFFFF_FFF9), // rem by 0
    (0x0220_F1B3, 7, 0, 7), // remu by 0
    (0x0220_F1B3, 0xFFFF_FFFF, 0xA, 5), // remu is unsigned
    (0xFFF0_8193, 0, 0, 0xFFFF_FFFF), // addi of -1
    (0xFFF0_A193, 0xFFFF_FFFE, 0, 1), // slti is signed
    (0x0010_B193, 0, 0, 1), // sltiu of 1 asks for 0
    (0x0010_B193, 1, 0, 0), // sltiu of 1 at 1
    (0xFFF0_B193, 5, 0, 1), // sltiu of -1 is unsigned
    (0xFFF0_C193, 0xF, 0, 0xFFFF_FFF0), // xori of -1
    (0x7F00_E193, 0xF, 0, 0x7FF), // ori
    (0x0FF0_F193, 0x1234, 0, 0x34), // andi
    (0x01F0_9193, 1, 0, 0x8000_0000), // slli by 31
    (0x01F0_D193, 0x8000_0000, 0, 1), // srli by 31
    (0x41F0_D193, 0x8000_0000, 0, 0xFFFF_FFFF), // srai by 31
    (0xFFFF_F1B7, 0, 0, 0xFFFF_F000), // lui
    (0xFFFF_F197, 0, 0, 0xF000), // auipc past 2^32
    (0x0FF0_000F, 0, 0, 0), // fence
    (0x0000_100F, 0, 0, 0), // fence.i
];

/// A word, x1 and x2 before it, the answer, and pc and x3 after it; x1 stays.
const JUMPS: &[(u32, u32, u32, Stepped, u32, u32)] = &[
    (0x0080_01EF, 0, 0, Retired, 0x10008, 0x10004), // jal forward
    (0xFFDF_F1EF, 0, 0, Retired, 0xFFFC, 0x10004), // jal back
    (0x0060_01EF, 0, 0, Trap(JumpMisaligned), 0x10000, 0), // jal to no multiple of 4
    (0x0000_81E7, 0x10005, 0, Retired, 0x10004, 0x10004), // jalr clears bit 0
    (0x0000_81E7, 0x10006, 0, Trap(JumpMisaligned), 0x10000, 0), // jalr to no multiple of 4
    (0x0080_81E7, 0xFFFF_FFFC, 0, Retired, 4, 0x10004), // jalr past 2^32
    (0x0020_8463, 5, 5, Retired, 0x10008, 0), // beq taken
    (0x0020_8363, 5, 6, Retired, 0x10004, 0), // beq not taken
    (0x0020_8363, 5, 5, Trap(JumpMisaligned), 0x10000, 0), // beq to no multiple of 4
    (0xFE20_9CE3, 5, 6, Retired, 0xFFF8, 0), // bne taken back
    (0x0020_9463, 5, 5, Retired, 0x10004, 0), // bne not taken
    (0x0020_C463, 0xFFFF_FFFF, 1, Retired, 0x10008, 0), // blt of -1 and 1
    (0x0020_C463, 1, 0xFFFF_FFFF, Retired, 0x10004, 0), // blt of 1 and -1
    (0x0020_D463, 0xFFFF_FFFF, 1, Retired, 0x10004, 0), // bge of -1 and 1
    (0x0020_D463, 0xFFFF_FFFF, 0xFFFF_FFFF, Retired, 0x10008, 0), // bge of equal numbers
    (0x0020_E463, 1, 0xFFFF_FFFF, Retired, 0x10008, 0), // bltu of 1 and the greatest
    (0x0020_E463, 0xFFFF_FFFF, 1, Retired, 0x10004, 0), // bltu of the greatest and 1
    (0x0020_F463, 0xFFFF_FFFF, 1, Retired, 0x10008, 0), // bgeu of the greatest and 1
    (0x0020_F463, 1, 0xFFFF_FFFF, Retired, 0x10004, 0), // bgeu of 1 and the greatest
    (0x0000_0073, 1, 2, Ecall, 0x10000, 0), // ecall
    (0x0010_0073, 1, 2, Trap(Breakpoint), 0x10000, 0), // ebreak
    (0x0000_0000, 1, 2, Trap(Illegal), 0x10000, 0), // no instruction
];

/// A word, x1 before it, the answer, and x3 after it.
const LOADS: &[(u32, u32, Stepped, u32)] = &[
    (0x0000_8183, 0x10FFC, Retired, 0xFFFF_FF80), // lb extends the sign
    (0x0000_C183, 0x10FFC, Retired, 0x80), // lbu does not
    (0x0000_9183, 0x10FFC, Retired, 0xFFFF_FF80), // lh extends the sign
    (0x0000_D183, 0x10FFC, Retired, 0xFF80), // lhu does not
    (0x0000_A183, 0x10FFC, Retired, 0x17F_FF80), // lw at the end
    (0xFFC0_A183, 0x10004, Retired, 0xFFC0_A183), // lw at the start
    (0x0020_9183, 0x10FFC, Retired, 0x17F), // lh of a positive number
    (0x0030_8183, 0x10FFC, Retired, 1), // lb of the last byte
    (0x0040_8183, 0x10FFC, Trap(LoadOutside), 0), // lb after the last byte
    (0xFFF0_8183, 0x10000, Trap(LoadOutside), 0), // lb before the first byte
    (0xFFE0_9183, 0x10000, Trap(LoadOutside), 0), // lh before the first byte
    (0x0040_A183, 0x10FFC, Trap(LoadOutside), 0), // lw after the last byte
    (0x0020_A183, 0x10FFC, Trap(LoadMisaligned), 0), // lw at no multiple of 4
    (0x0060_A183, 0x10FFC, Trap(LoadMisaligned), 0), // lw misaligned and outside
    (0xFFF0_D183, 0, Trap(LoadMisaligned), 0), // lhu at the greatest address
];

/// A word, x1 before it, the answer, and the last word of memory after it.
const STORES: &[(u32, u32, Stepped, u32)] = &[
    (0x0020_8023, 0x10FFC, Retired, 0x17F_FF78), // sb changes one byte
    (0x0020_81A3, 0x10FFC, Retired, 0x787F_FF80), // sb of the last byte
    (0x0020_9123, 0x10FFC, Retired, 0x5678_FF80), // sh changes two bytes
    (0x0020_A023, 0x10FFC, Retired, 0x1234_5678), // sw
    (0x0020_A023, 0x10000, Retired, 0x17F_FF80), // sw at the start
    (0x0020_8223, 0x10FFC, Trap(StoreOutside), 0x17F_FF80), // sb after the last byte
    (0xFE20_AE23, 0x10000, Trap(StoreOutside), 0x17F_FF80), // sw before the first byte
    (0x0020_90A3, 0x10FFC, Trap(StoreMisaligned), 0x17F_FF80), // sh at an odd address
    (0x0020_A323, 0x10FFC, Trap(StoreMisaligned), 0x17F_FF80), // sw misaligned and outside
];

/// A program of two segments.
fn image_of(alloc: Global, first: Segment, second: Segment) -> Result<Box<Image>, AllocError>
    ensures { IfOk result (λ image. image.value.segments ≡ first ∷ second ∷ []) }
{
    let mut segments = Items::new(alloc);
    segments.push(first)?;
    segments.push(second)?;
    let image = Image {
        entry: 0x1_0000,
        segments,
        text: Span { low: 0, high: 0 },
        symbols: Items::new(alloc),
        mcount: None,
        moncontrol: None,
    };
    boxed(alloc, image)
}

/// The first word of memory, and the last one.
const FIRST: Segment = Segment {
    addr: 0x1_0000,
    offset: 0,
    filesz: 4,
    memsz: 4,
};

const LAST: Segment = Segment {
    addr: 0x1_0FFC,
    offset: 4,
    filesz: 4,
    memsz: 4,
};

/// Memory from 0x10000 to 0x11000 with a word at its start, and 80 FF 7F 01 at its end.
fn memory(alloc: Global, word: u32) -> Result<Ram, AllocError> {
    let [a, b, c, d] = le4(word);
    let image = image_of(alloc, FIRST, LAST)?;
    let mut ram = Ram::new(alloc, 0x1_0000, 0x1000)?;
    ram.load_image(&image, &[a, b, c, d, 0x80, 0xFF, 0x7F, 0x01]);
    Ok(ram)
}

/// Registers of a hart at 0x10000.
fn registers(x1: u32, x2: u32) -> Regs {
    let mut regs = Regs::new(0x1_0000);
    regs.set(1, x1);
    regs.set(2, x2);
    regs
}

// One step of a hart with these registers x1 and x2, by a word at 0x10000.
fn stepped(ram: &mut Ram, x1: u32, x2: u32) -> (Stepped, Regs) {
    let mut regs = registers(x1, x2);
    let answer = step(&mut regs, ram);
    (answer, regs)
}

// The answer of a step, and pc, x1 and x3 after it.
fn step_of(alloc: Global, word: u32, x1: u32, x2: u32) -> Result<(Stepped, [u32; 3]), AllocError> {
    let mut ram = memory(alloc, word)?;
    let (answer, regs) = stepped(&mut ram, x1, x2);
    Ok((answer, [regs.pc(), regs.get(1), regs.get(3)]))
}

#[test]
fn results(rt: HostRuntime) -> Result<(), Fail> {
    for (word, x1, x2, x3) in RESULTS {
        let after = step_of(rt.alloc(), *word, *x1, *x2)?;
        assert_eq!(rt;
            after,
            (Retired, [0x1_0004, *x1, *x3]),
            "{word:08x} of {x1:x}"
        );
    }
    Ok(())
}

#[test]
fn jumps(rt: HostRuntime) -> Result<(), Fail> {
    for (word, x1, x2, answer, pc, x3) in JUMPS {
        let after = step_of(rt.alloc(), *word, *x1, *x2)?;
        assert_eq!(rt; after, (*answer, [*pc, *x1, *x3]), "{word:08x} of {x1:x}");
    }
    Ok(())
}

#[test]
fn loads(rt: HostRuntime) -> Result<(), Fail> {
    for (word, x1, answer, x3) in LOADS {
        let (told, [_, _, loaded]) = step_of(rt.alloc(), *word, *x1, 0)?;
        assert_eq!(rt; (told, loaded), (*answer, *x3), "{word:08x} of {x1:x}");
    }
    Ok(())
}

// The answer of a step, and the last word of memory after it.
fn store_of(alloc: Global, word: u32, x1: u32) -> Result<(Stepped, Option<[u8; 4]>), AllocError> {
    let mut ram = memory(alloc, word)?;
    let (answer, _) = stepped(&mut ram, x1, 0x1234_5678);
    Ok((answer, last_of(&ram)))
}

fn last_of(ram: &Ram) -> Option<[u8; 4]> {
    match ram.slice(0x1_0FFC, 4) {
        Some([a, b, c, d]) => Some([*a, *b, *c, *d]),
        _ => None,
    }
}

#[test]
fn stores(rt: HostRuntime) -> Result<(), Fail> {
    for (word, x1, answer, last) in STORES {
        let after = store_of(rt.alloc(), *word, *x1)?;
        assert_eq!(rt; after, (*answer, Some(le4(*last))), "{word:08x} of {x1:x}");
    }
    Ok(())
}

// The answer of `addi x0, x0, 5`, and x0 after it, and x0 when it is set.
fn zeros(alloc: Global) -> Result<(Stepped, u32, u32), AllocError> {
    let mut ram = memory(alloc, 0x0050_0013)?;
    let (answer, mut regs) = stepped(&mut ram, 0, 0);
    let after = regs.get(0);
    regs.set(0, 7);
    Ok((answer, after, regs.get(0)))
}

// The answer of a step at `pc`, and where pc stands after it.
fn fetched(alloc: Global, pc: u32) -> Result<(Stepped, u32), AllocError> {
    let mut ram = memory(alloc, 0x0080_80E7)?;
    let mut regs = registers(0x2_0000, 0);
    regs.set_pc(pc);
    let answer = step(&mut regs, &mut ram);
    Ok((answer, regs.pc()))
}

// Fetches reach to the last byte, and begin at the first one.
#[test]
fn registers_and_pc(rt: HostRuntime) -> Result<(), Fail> {
    let told = zeros(rt.alloc())?;
    assert_eq!(rt; told, (Retired, 0, 0), "x0 stays 0");
    let jump = step_of(rt.alloc(), 0x0080_80E7, 0x2_0000, 0)?;
    assert_eq!(rt;
        jump,
        (Retired, [0x2_0008, 0x1_0004, 0]),
        "`jalr x1, 8(x1)` reads before it writes"
    );
    for pc in [0x1_0FFD, 0xFFFC] {
        let told = fetched(rt.alloc(), pc)?;
        assert_eq!(rt; told, (Trap(FetchOutside), pc), "at {pc:x}");
    }
    Ok(())
}

/// Where bytes are read, how many, and which they are.
const READS: &[(&'static str, u32, u32, Option<&'static [u8]>)] = &[
    (
        "bytes behind others, and zeros where the file has none",
        0x100,
        8,
        Some(b"\0\0BCAB\0\0"),
    ),
    ("the last byte", 0x10F, 1, Some(b"\0")),
    ("past the end", 0x10F, 2, None),
    ("before the start", 0xFF, 2, None),
];

fn expect_reads(rt: &impl Abort, ram: &Ram) {
    for (name, addr, len, bytes) in READS {
        assert_eq!(rt; ram.slice(*addr, (*len).max(1)), *bytes, "{name}");
    }
}

#[test]
fn segments_in_table_order(rt: HostRuntime) -> Result<(), Fail> {
    let first = Segment {
        addr: 0x102,
        offset: 1,
        filesz: 4,
        memsz: 8,
    };
    let second = Segment {
        addr: 0x104,
        offset: 0,
        filesz: 3,
        memsz: 2,
    };
    let image = image_of(rt.alloc(), first, second)?;
    let mut ram = Ram::new(rt.alloc(), 0x100, 16)?;
    ram.load_image(&image, b"ABCDE");
    expect_reads(&rt, &ram);
    Ok(())
}
