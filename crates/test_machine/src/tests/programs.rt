//! Small programs, and how they end.

use prof_machine::End;
use rv_step::TrapKind;

// jal x0, 0
pub const ENDLESS: u32 = 0x0000_006F;

// addi x0, x0, 0
pub const NOP: u32 = 0x0000_0013;

pub const ECALL: u32 = 0x0000_0073;

pub const EBREAK: u32 = 0x0010_0073;

pub const NO_INSTRUCTION: u32 = 0;

// addi x17, x0, 64
pub const WRITE: u32 = 0x0400_0893;

// addi x17, x0, 93
pub const EXIT: u32 = 0x05D0_0893;

// addi x17, x0, 214
pub const BREAK: u32 = 0x0D60_0893;

/// A program whose functions are counted: `_start` calls `f`, which enters the call at `_mcount`, the
/// word 8 behind.
pub const CALLS: &[u32] = &[
    0x00C0_00EF, // _start: jal x1, 12
    ENDLESS,
    0x0000_8067, // _mcount: jalr x0, 0(x1)
    0x0000_8513, // f: addi x10, x1, 0
    0xFF9F_F0EF, // jal x1, -8
    ENDLESS,
];

pub const CALLS_MCOUNT: u32 = 0x0001_0008;

/// A program that switches profiling off.
pub const SWITCHES: &[u32] = &[
    0x0000_0513, // _start: addi x10, x0, 0
    0x0080_00EF, // jal x1, 8
    ENDLESS,
    0x0000_8067, // moncontrol: jalr x0, 0(x1)
];

pub const SWITCHES_MONCONTROL: u32 = 0x0001_000C;

/// A program that prints its own first four bytes on the output, and ends with the answer.
pub const PRINTS: &[u32] = &[
    0x0010_0513, // addi x10, x0, 1
    0x0001_05B7, // lui x11, 0x10
    0x0040_0613, // addi x12, x0, 4
    WRITE,
    ECALL,
    EXIT,
    ECALL,
];

/// The same on the error output.
pub const COMPLAINS: &[u32] = &[
    0x0020_0513, // addi x10, x0, 2
    0x0001_05B7, // lui x11, 0x10
    0x0040_0613, // addi x12, x0, 4
    WRITE,
    ECALL,
    EXIT,
    ECALL,
];

/// A run of words from 0x10000 on by one hart, with no hooks and no calls.
#[derive(Clone, Copy)]
pub struct Row {
    pub name: &'static str,
    pub words: &'static [u32],
    pub every: u32,
    pub budget: u32,
    pub end: End,
    pub retired: u32,
    pub samples: u32,
}

pub const ROWS: &[Row] = &[
    Row {
        name: "a budget of one instruction",
        words: &[ENDLESS],
        every: 1,
        budget: 1,
        end: End::Budget,
        retired: 1,
        samples: 1,
    },
    Row {
        name: "the clock ticks once in 1,000 instructions",
        words: &[ENDLESS],
        every: 1_000,
        budget: 2_500,
        end: End::Budget,
        retired: 2_500,
        samples: 2,
    },
    Row {
        name: "the last instruction of the budget is sampled",
        words: &[ENDLESS],
        every: 1_000,
        budget: 2_000,
        end: End::Budget,
        retired: 2_000,
        samples: 2,
    },
    Row {
        name: "a trap retires nothing and isn't sampled",
        words: &[NO_INSTRUCTION],
        every: 1,
        budget: 10,
        end: End::Trap(TrapKind::Illegal, 0x1_0000),
        retired: 0,
        samples: 0,
    },
    Row {
        name: "a trap on the last turn of the budget",
        words: &[NOP, EBREAK],
        every: 1,
        budget: 2,
        end: End::Trap(TrapKind::Breakpoint, 0x1_0004),
        retired: 1,
        samples: 1,
    },
    Row {
        name: "another environment call retires, and answers -38",
        words: &[
            ECALL,
            0xFDA0_0293, // addi x5, x0, -38
            0x0055_0463, // beq x10, x5, 8
            EBREAK,
            NO_INSTRUCTION,
        ],
        every: 1,
        budget: 10,
        end: End::Trap(TrapKind::Illegal, 0x1_0010),
        retired: 3,
        samples: 3,
    },
    Row {
        name: "a0 is 0, a1 is 1 and sp is 16 below the end of memory",
        words: &[
            0x0005_1E63, // bne x10, x0, 28
            0x0010_0293, // addi x5, x0, 1
            0x0055_9A63, // bne x11, x5, 20
            0x0041_0337, // lui x6, 0x410
            0xFF03_0313, // addi x6, x6, -16
            0x0061_1463, // bne x2, x6, 8
            EBREAK,
            NO_INSTRUCTION,
        ],
        every: 1_000,
        budget: 10,
        end: End::Trap(TrapKind::Breakpoint, 0x1_0018),
        retired: 6,
        samples: 0,
    },
    Row {
        name: "an exit with all 32 bits retires, and isn't sampled",
        words: &[0xFFF0_0513, EXIT, ECALL], // addi x10, x0, -1
        every: 1,
        budget: 10,
        end: End::Exit(0xFFFF_FFFF),
        retired: 3,
        samples: 2,
    },
    Row {
        name: "an exit on the last turn of the budget",
        words: &[EXIT, ECALL],
        every: 1,
        budget: 2,
        end: End::Exit(0),
        retired: 2,
        samples: 1,
    },
    Row {
        name: "a print of no bytes answers 0, wherever they lie",
        words: &[0x0010_0513, WRITE, ECALL, EXIT, ECALL], // addi x10, x0, 1
        every: 1_000,
        budget: 10,
        end: End::Exit(0),
        retired: 5,
        samples: 0,
    },
    Row {
        name: "a print to descriptor 3 answers -9, also of no bytes",
        words: &[0x0030_0513, WRITE, ECALL, EXIT, ECALL], // addi x10, x0, 3
        every: 1_000,
        budget: 10,
        end: End::Exit(0xFFFF_FFF7),
        retired: 5,
        samples: 0,
    },
    Row {
        name: "a print across the end of memory answers -14",
        words: &[
            0x0020_0513, // addi x10, x0, 2
            0x0041_05B7, // lui x11, 0x410
            0xFFE5_8593, // addi x11, x11, -2
            0x0040_0613, // addi x12, x0, 4
            WRITE,
            ECALL,
            EXIT,
            ECALL,
        ],
        every: 1_000,
        budget: 10,
        end: End::Exit(0xFFFF_FFF2),
        retired: 8,
        samples: 0,
    },
    Row {
        name: "a print beyond the last address answers -14",
        words: &[
            0x0010_0513, // addi x10, x0, 1
            0x0001_05B7, // lui x11, 0x10
            0xFFF0_0613, // addi x12, x0, -1
            WRITE,
            ECALL,
            EXIT,
            ECALL,
        ],
        every: 1_000,
        budget: 10,
        end: End::Exit(0xFFFF_FFF2),
        retired: 7,
        samples: 0,
    },
    Row {
        name: "a break at 0 is refused: it stays where it began",
        words: &[0x0000_0513, BREAK, ECALL, EXIT, ECALL], // addi x10, x0, 0
        every: 1_000,
        budget: 100,
        end: End::Exit(65_568),
        retired: 5,
        samples: 0,
    },
    Row {
        name: "a break below its first value is refused",
        words: &[
            0x0001_0537, // lui x10, 0x10
            0x01F5_0513, // addi x10, x10, 31
            BREAK,
            ECALL,
            EXIT,
            ECALL,
        ],
        every: 1_000,
        budget: 100,
        end: End::Exit(0x1_0020),
        retired: 6,
        samples: 0,
    },
    Row {
        name: "a break at its last value",
        words: &[0x0021_0537, BREAK, ECALL, EXIT, ECALL], // lui x10, 0x210
        every: 1_000,
        budget: 100,
        end: End::Exit(0x21_0000),
        retired: 5,
        samples: 0,
    },
    Row {
        name: "a break behind its last value is refused",
        words: &[
            0x0021_0537, // lui x10, 0x210
            0x0015_0513, // addi x10, x10, 1
            BREAK,
            ECALL,
            EXIT,
            ECALL,
        ],
        every: 1_000,
        budget: 100,
        end: End::Exit(0x1_0020),
        retired: 6,
        samples: 0,
    },
    Row {
        name: "a break that falls to its first value again",
        words: &[
            0x0021_0537, // lui x10, 0x210
            BREAK,
            ECALL,
            0x0001_0537, // lui x10, 0x10
            0x0205_0513, // addi x10, x10, 32
            ECALL,
            EXIT,
            ECALL,
        ],
        every: 1_000,
        budget: 100,
        end: End::Exit(0x1_0020),
        retired: 8,
        samples: 0,
    },
];
