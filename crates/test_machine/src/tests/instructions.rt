use rv_decode::{Instr, Op, decode, spell};
use text_cols::Line;

/// Words of instructions, where they stand, and their spelling.
const SPELLINGS: &[(u32, u32, &'static [u8])] = &[
    (0x0002_9463, 0x0001_004C, b"bne x5, x0, 0x00010054"),
    (0x0000_0013, 0, b"addi x0, x0, 0"),
    (0x00C1_2083, 0, b"lw x1, 12(x2)"),
    (0x0000_8067, 0, b"jalr x0, 0(x1)"),
    (0x0000_12B7, 0, b"lui x5, 0x00001"),
    (0xFFFF_F2B7, 0, b"lui x5, 0xfffff"),
    (0x8000_0F97, 0, b"auipc x31, 0x80000"),
    (0x0000_0073, 0, b"ecall"),
    (0x0010_0073, 0, b"ebreak"),
    (0x0FF0_000F, 0, b"fence"),
    (0x0000_100F, 0, b"fence.i"),
    (0x00C0_00EF, 0x0001_0000, b"jal x1, 0x0001000c"),
    (0xFF9F_F0EF, 0x0001_0010, b"jal x1, 0x00010008"),
    (0x0000_006F, 0xFFFF_FFFC, b"jal x0, 0xfffffffc"),
    (0xFFDF_F06F, 0, b"jal x0, 0xfffffffc"),
    (0xFE00_0EE3, 0x0001_0004, b"beq x0, x0, 0x00010000"),
    (0xFE11_2E23, 0, b"sw x1, -4(x2)"),
    (0x8005_0513, 0, b"addi x10, x10, -2048"),
    (0x7FF5_3513, 0, b"sltiu x10, x10, 2047"),
    (0x01F5_5513, 0, b"srli x10, x10, 31"),
    (0x41F5_5513, 0, b"srai x10, x10, 31"),
    (0x40B5_0533, 0, b"sub x10, x10, x11"),
    (0x02B5_2533, 0, b"mulhsu x10, x10, x11"),
    (0x02B5_7533, 0, b"remu x10, x10, x11"),
    (0x00B5_7533, 0, b"and x10, x10, x11"),
    (0xFFF5_4503, 0, b"lbu x10, -1(x10)"),
];

/// Words that are no instruction here.
const OTHERS: &[u32] = &[
    0x0000_0000,
    0xFFFF_FFFF,
    0x0001_4501,
    0x00B5_252F,
    0xC000_2573,
    0x4015_1513,
    0x0215_1513,
    0x0215_5513,
    0x40B5_1533,
    0x20B5_5533,
    0x0000_9067,
    0x0020_0073,
];

#[test]
fn spellings(rt: HostRuntime) {
    for (word, pc, want) in SPELLINGS {
        let mut line = Line::new();
        if let Some(instr) = decode(*word) {
            spell(&instr, *pc, &mut line);
        }
        assert_eq!(rt; line.bytes(), *want, "{word:x}");
    }
}

#[test]
fn words_that_are_no_instruction(rt: HostRuntime) {
    for word in OTHERS {
        assert_eq!(rt; decode(*word), None, "{word:x}");
    }
}

#[test]
fn fields_of_an_instruction(rt: HostRuntime) {
    let instr = Instr {
        op: Op::Bgeu,
        rd: 0,
        rs1: 30,
        rs2: 21,
        imm: -1366,
    };
    assert_eq!(rt; decode(0xAB5F_75E3), Some(instr));
}
