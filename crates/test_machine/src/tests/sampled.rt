//! Small programs, and the stacks that they are sampled in.

/// Words from 0x10000 on, with functions by their names and places, of which `_mcount` and `moncontrol` are
/// the hooks; how the run is sampled; and its texts, with the number of samples that are folded.
#[derive(Clone, Copy)]
pub struct Case {
    pub name: &'static str,
    pub words: &'static [u32],
    pub functions: &'static [(&'static str, u32)],
    pub every: u32,
    pub budget: u32,
    pub harts: u32,
    pub stacks: &'static str,
    pub by_function: &'static str,
    pub total: u64,
}

pub const NOP: u32 = 0x0000_0013;

const ENDLESS: u32 = 0x0000_006F;

// jalr x0, 0(x1)
const RETURN: u32 = 0x0000_8067;

// `_start` calls f, which calls g.
const CALLS: &[u32] = &[
    0x00C0_00EF, // _start: jal x1, 12
    NOP,
    ENDLESS,
    0x0000_8413, // f: addi x8, x1, 0
    0x00C0_00EF, // jal x1, 12
    0x0004_0093, // addi x1, x8, 0
    RETURN,
    RETURN, // g
];

// f returns to where no call returns.
const ELSEWHERE: &[u32] = &[
    0x00C0_00EF, // _start: jal x1, 12
    NOP,
    ENDLESS,
    0x0080_8093, // f: addi x1, x1, 8
    0x0080_8093, // addi x1, x1, 8
    RETURN,
];

// f calls itself 129 times, and all calls return.
pub const DEEP: &[u32] = &[
    0x0820_0413, // _start: addi x8, x0, 130
    0x00C0_00EF, // jal x1, 12
    NOP,
    ENDLESS,
    0xFF01_0113, // f: addi x2, x2, -16
    0x0011_2023, // sw x1, 0(x2)
    0xFFF4_0413, // addi x8, x8, -1
    0x0004_0463, // beq x8, x0, 8
    0xFF1F_F0EF, // jal x1, -16
    0x0001_2083, // lw x1, 0(x2)
    0x0101_0113, // addi x2, x2, 16
    RETURN,
];

// f goes on to g by a jump, and g returns for it.
const TAIL: &[u32] = &[
    0x00C0_00EF, // _start: jal x1, 12
    NOP,
    ENDLESS,
    0x0040_006F, // f: jal x0, 4
    NOP, // g
    RETURN,
];

// f is called through x5, and returns there.
const THROUGH_X5: &[u32] = &[
    0x00C0_02EF, // _start: jal x5, 12
    NOP,
    ENDLESS,
    0x0002_8067, // f: jalr x0, 0(x5)
];

// h returns past g and f to where f was called.
const JUMPS_BACK: &[u32] = &[
    0x00C0_00EF, // _start: jal x1, 12
    NOP,
    ENDLESS,
    0x0000_8493, // f: addi x9, x1, 0
    0x0080_00EF, // jal x1, 8
    NOP,
    0x0080_00EF, // g: jal x1, 8
    NOP,
    0x0004_8093, // h: addi x1, x9, 0
    RETURN,
];

// f enters its call at `_mcount`.
const COUNTED: &[u32] = &[
    0x00C0_00EF, // _start: jal x1, 12
    ENDLESS,
    RETURN, // _mcount
    0x0000_8513, // f: addi x10, x1, 0
    0xFF9F_F0EF, // jal x1, -8
    ENDLESS,
];

// The third function calls the last one, which returns to the fourth.
pub fn same_names(words: &mut [u32; 1_000]) {
    words[2] = 0x7950_00EF; // jal x1, 3988
    words[3] = ENDLESS;
    words[999] = RETURN;
}

const THREE: &[(&str, u32)] = &[("_start", 0), ("f", 12), ("g", 28)];

const HOOKED: &[(&str, u32)] = &[("_start", 0), ("_mcount", 8), ("f", 12)];

pub const MANY_SAMPLES: Case = Case {
    name: "more samples than a counter counts",
    words: &[ENDLESS],
    functions: &[("_start", 0)],
    every: 1,
    budget: 65_536,
    harts: 1,
    stacks: "_start 65536\n",
    by_function: "_start 65536\n",
    total: 65_536,
};

pub const CASES: &[Case] = &[
    Case {
        name: "a call in a call",
        words: CALLS,
        functions: THREE,
        every: 1,
        budget: 8,
        harts: 1,
        stacks: "_start 3\n_start;f 4\n_start;f;g 1\n",
        by_function: "_start 8\nf 5\ng 1\n",
        total: 8,
    },
    Case {
        name: "a frame and samples in no function",
        words: CALLS,
        functions: &[("f", 12), ("g", 28)],
        every: 1,
        budget: 8,
        harts: 1,
        stacks: "[unknown];f 4\n[unknown];f;g 1\n",
        by_function: "f 5\ng 1\n",
        total: 5,
    },
    Case {
        name: "no functions",
        words: &[ENDLESS],
        functions: &[],
        every: 1,
        budget: 10,
        harts: 1,
        stacks: "",
        by_function: "",
        total: 0,
    },
    Case {
        name: "130 calls and back",
        words: DEEP,
        functions: &[("_start", 0), ("f", 16)],
        every: 1_042,
        budget: 1_042,
        harts: 1,
        stacks: "_start 1\n",
        by_function: "_start 1\n",
        total: 1,
    },
    Case {
        name: "130 calls and half of the way back",
        words: DEEP,
        functions: &[("_start", 0), ("f", 16)],
        every: 1_035,
        budget: 1_035,
        harts: 1,
        stacks: "_start;f;f 1\n",
        by_function: "_start 1\nf 1\n",
        total: 1,
    },
    Case {
        name: "a return to no call takes nothing off",
        words: ELSEWHERE,
        functions: &[("_start", 0), ("f", 12)],
        every: 1,
        budget: 4,
        harts: 1,
        stacks: "_start;f 4\n",
        by_function: "_start 4\nf 4\n",
        total: 4,
    },
    Case {
        name: "a tail call",
        words: TAIL,
        functions: &[("_start", 0), ("f", 12), ("g", 16)],
        every: 1,
        budget: 6,
        harts: 1,
        stacks: "_start 3\n_start;f 1\n_start;g 2\n",
        by_function: "_start 6\nf 1\ng 2\n",
        total: 6,
    },
    Case {
        name: "a call through x5 is none",
        words: THROUGH_X5,
        functions: &[("_start", 0), ("f", 12)],
        every: 1,
        budget: 3,
        harts: 1,
        stacks: "_start 2\nf 1\n",
        by_function: "_start 2\nf 1\n",
        total: 3,
    },
    Case {
        name: "a return past two frames",
        words: JUMPS_BACK,
        functions: &[("_start", 0), ("f", 12), ("g", 24), ("h", 32)],
        every: 1,
        budget: 7,
        harts: 1,
        stacks: "_start 2\n_start;f 2\n_start;f;g 1\n_start;f;g;h 2\n",
        by_function: "_start 7\nf 5\ng 3\nh 2\n",
        total: 7,
    },
    Case {
        name: "a return from a hook",
        words: COUNTED,
        functions: HOOKED,
        every: 1,
        budget: 4,
        harts: 1,
        stacks: "_start;f 3\n_start;f;_mcount 1\n",
        by_function: "_start 4\n_mcount 1\nf 4\n",
        total: 4,
    },
    Case {
        name: "two harts, whose stacks are their own",
        words: COUNTED,
        functions: HOOKED,
        every: 1,
        budget: 8,
        harts: 2,
        stacks: "_start;f 6\n_start;f;_mcount 2\n",
        by_function: "_start 8\n_mcount 2\nf 8\n",
        total: 8,
    },
];
