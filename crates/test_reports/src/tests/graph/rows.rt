//! Reports: functions, calls, and the lines that are printed.

use crate::tests::printed::{THREE, THREE_CALLS};
use test_profiles::{Calls, Function};

/// What stands below each entry.
pub const RULE: &str = "------------------------------------------------------------------------";

/// What stands in place of callers.
pub const SPONTANEOUS: &str =
    "                                                                   <spontaneous>";

pub const THREE_LINES: [&str; 18] = [
    SPONTANEOUS,
    "[1]      100.00        0.01        0.05                        main [1]",
    "                       0.05        0.00                   1/1      a <cycle 1> [4]",
    RULE,
    "                       0.05        0.00                   1/1      main [1]",
    "[2]       83.33        0.05        0.00                   1+9  <cycle 1 as a whole> [2]",
    "                       0.02        0.00                     5      a <cycle 1> [4]",
    "                       0.03        0.00                   5+2      b <cycle 1> [3]",
    RULE,
    "                                                            5      a <cycle 1> [4]",
    "[3]       50.00        0.03        0.00                   5+2  b <cycle 1> [3]",
    "                                                            4      a <cycle 1> [4]",
    RULE,
    "                       0.05        0.00                   1/1      main [1]",
    "                                                            4      b <cycle 1> [3]",
    "[4]       33.33        0.02        0.00                     5  a <cycle 1> [4]",
    "                                                            5      b <cycle 1> [3]",
    RULE,
];

/// A message, functions, calls, a rate, and the lines that are printed.
pub type Row<'a> = (&'a str, &'a [Function<'a>], &'a [Calls], u32, &'a [&'a str]);

/// Cycles.
pub const CYCLES: &[Row<'static>] = &[
    (
        "a cycle of two, and a function of it that calls itself",
        &THREE,
        &THREE_CALLS,
        100,
        &THREE_LINES,
    ),
    (
        "the same, where the calls of the first by the last are cut",
        &THREE,
        &[(0, 1, 1), (1, 2, 5), (2, 2, 2)],
        100,
        &[
            SPONTANEOUS,
            "[1]      100.00        0.01        0.05                        main [1]",
            "                       0.02        0.03                   1/1      a [2]",
            RULE,
            "                       0.02        0.03                   1/1      main [1]",
            "[2]       83.33        0.02        0.03                     1  a [2]",
            "                       0.03        0.00                   5/5      b [3]",
            RULE,
            "                       0.03        0.00                   5/5      a [2]",
            "[3]       50.00        0.03        0.00                   5+2  b [3]",
            RULE,
        ],
    ),
    (
        "a cycle without callers",
        &[("a", 1), ("b", 2)],
        &[(0, 1, 3), (1, 0, 4)],
        100,
        &[
            SPONTANEOUS,
            "[1]      100.00        0.03        0.00                   0+7  <cycle 1 as a whole> [1]",
            "                       0.01        0.00                     4      a <cycle 1> [3]",
            "                       0.02        0.00                     3      b <cycle 1> [2]",
            RULE,
            "                                                            3      a <cycle 1> [3]",
            "[2]       66.67        0.02        0.00                     3  b <cycle 1> [2]",
            "                                                            4      a <cycle 1> [3]",
            RULE,
            "                                                            4      b <cycle 1> [2]",
            "[3]       33.33        0.01        0.00                     4  a <cycle 1> [3]",
            "                                                            3      b <cycle 1> [2]",
            RULE,
        ],
    ),
];

/// Functions in no cycle.
pub const FUNCTIONS: &[Row<'static>] = &[
    (
        "a function that is called by itself alone",
        &[("f", 1)],
        &[(0, 0, 3)],
        100,
        &[
            SPONTANEOUS,
            "[1]      100.00        0.01        0.00                   0+3  f [1]",
            RULE,
        ],
    ),
    (
        "two functions of one name",
        &[("f", 1), ("f", 1), ("main", 0)],
        &[(2, 0, 1), (2, 1, 2)],
        100,
        &[
            SPONTANEOUS,
            "[1]      100.00        0.00        0.02                        main [1]",
            "                       0.01        0.00                   1/1      f [2]",
            "                       0.01        0.00                   2/2      f [3]",
            RULE,
            "                       0.01        0.00                   1/1      main [1]",
            "[2]       50.00        0.01        0.00                     1  f [2]",
            RULE,
            "                       0.01        0.00                   2/2      main [1]",
            "[3]       50.00        0.01        0.00                     2  f [3]",
            RULE,
        ],
    ),
    (
        "equal totals are ordered by the bytes of the names",
        &[("b", 1), ("a", 1), ("B", 1)],
        &[],
        100,
        &[
            SPONTANEOUS,
            "[1]       33.33        0.01        0.00                        B [1]",
            RULE,
            SPONTANEOUS,
            "[2]       33.33        0.01        0.00                        a [2]",
            RULE,
            SPONTANEOUS,
            "[3]       33.33        0.01        0.00                        b [3]",
            RULE,
        ],
    ),
    (
        "a function that took no time and is called, and one that isn't called",
        &[("main", 1), ("idle", 0), ("gone", 0)],
        &[(0, 1, 2)],
        1,
        &[
            SPONTANEOUS,
            "[1]      100.00        1.00        0.00                        main [1]",
            "                       0.00        0.00                   2/2      idle [2]",
            RULE,
            "                       0.00        0.00                   2/2      main [1]",
            "[2]        0.00        0.00        0.00                     2  idle [2]",
            RULE,
        ],
    ),
    (
        "calls without samples",
        &[("a", 0), ("b", 0)],
        &[(0, 1, 1)],
        100,
        &[
            SPONTANEOUS,
            "[1]        0.00        0.00        0.00                        a [1]",
            "                       0.00        0.00                   1/1      b [2]",
            RULE,
            "                       0.00        0.00                   1/1      a [1]",
            "[2]        0.00        0.00        0.00                     1  b [2]",
            RULE,
        ],
    ),
    (
        "no samples and no calls",
        &[("a", 0), ("b", 0)],
        &[],
        100,
        &[],
    ),
    ("no functions", &[], &[], 100, &[]),
];

/// Orders of lines and of numbers.
pub const ORDERS: &[Row<'static>] = &[
    (
        "callers by address, and the calls of all of them",
        &[("y", 0), ("x", 0), ("d", 4)],
        &[(0, 2, 1), (1, 2, 3)],
        100,
        &[
            "                       0.01        0.00                   1/4      y [3]",
            "                       0.03        0.00                   3/4      x [2]",
            "[1]      100.00        0.04        0.00                     4  d [1]",
            RULE,
            SPONTANEOUS,
            "[2]       75.00        0.00        0.03                        x [2]",
            "                       0.03        0.00                   3/4      d [1]",
            RULE,
            SPONTANEOUS,
            "[3]       25.00        0.00        0.01                        y [3]",
            "                       0.01        0.00                   1/4      d [1]",
            RULE,
        ],
    ),
    (
        "a cycle stands before its head of the same name and total",
        &[("<cycle 1 as a whole>", 1), ("b", 0)],
        &[(0, 1, 1), (1, 0, 1)],
        100,
        &[
            SPONTANEOUS,
            "[1]      100.00        0.01        0.00                   0+2  <cycle 1 as a whole> [1]",
            "                       0.01        0.00                     1      <cycle 1 as a whole> <cycle 1> [2]",
            "                       0.00        0.00                     1      b <cycle 1> [3]",
            RULE,
            "                                                            1      b <cycle 1> [3]",
            "[2]      100.00        0.01        0.00                     1  <cycle 1 as a whole> <cycle 1> [2]",
            "                                                            1      b <cycle 1> [3]",
            RULE,
            "                                                            1      <cycle 1 as a whole> <cycle 1> [2]",
            "[3]        0.00        0.00        0.00                     1  b <cycle 1> [3]",
            "                                                            1      <cycle 1 as a whole> <cycle 1> [2]",
            RULE,
        ],
    ),
    (
        "three cycles, each calling the next, numbered by their heads",
        &[("p", 1), ("q", 0), ("r", 2), ("s", 0), ("t", 0), ("u", 1)],
        &[
            (0, 5, 1),
            (5, 0, 2),
            (1, 4, 3),
            (4, 1, 4),
            (2, 3, 5),
            (3, 2, 6),
            (0, 1, 7),
            (1, 2, 8),
        ],
        100,
        &[
            SPONTANEOUS,
            "[1]      100.00        0.02        0.02                   0+3  <cycle 1 as a whole> [1]",
            "                       0.01        0.02                     2      p <cycle 1> [2]",
            "                       0.01        0.00                     1      u <cycle 1> [7]",
            RULE,
            "                                                            2      u <cycle 1> [7]",
            "[2]       75.00        0.01        0.02                     2  p <cycle 1> [2]",
            "                       0.00        0.02                   7/7      q <cycle 2> [5]",
            "                                                            1      u <cycle 1> [7]",
            RULE,
            "                       0.00        0.02                   7/7      p <cycle 1> [2]",
            "[3]       50.00        0.00        0.02                   7+7  <cycle 2 as a whole> [3]",
            "                       0.00        0.02                    11      q <cycle 2> [5]",
            "                       0.00        0.00                     3      t <cycle 2> [9]",
            RULE,
            "                       0.02        0.00                   8/8      q <cycle 2> [5]",
            "[4]       50.00        0.02        0.00                  8+11  <cycle 3 as a whole> [4]",
            "                       0.02        0.00                    14      r <cycle 3> [6]",
            "                       0.00        0.00                     5      s <cycle 3> [8]",
            RULE,
            "                       0.00        0.02                   7/7      p <cycle 1> [2]",
            "                                                            4      t <cycle 2> [9]",
            "[5]       50.00        0.00        0.02                    11  q <cycle 2> [5]",
            "                       0.02        0.00                   8/8      r <cycle 3> [6]",
            "                                                            3      t <cycle 2> [9]",
            RULE,
            "                       0.02        0.00                   8/8      q <cycle 2> [5]",
            "                                                            6      s <cycle 3> [8]",
            "[6]       50.00        0.02        0.00                    14  r <cycle 3> [6]",
            "                                                            5      s <cycle 3> [8]",
            RULE,
            "                                                            1      p <cycle 1> [2]",
            "[7]       25.00        0.01        0.00                     1  u <cycle 1> [7]",
            "                                                            2      p <cycle 1> [2]",
            RULE,
            "                                                            5      r <cycle 3> [6]",
            "[8]        0.00        0.00        0.00                     5  s <cycle 3> [8]",
            "                                                            6      r <cycle 3> [6]",
            RULE,
            "                                                            3      q <cycle 2> [5]",
            "[9]        0.00        0.00        0.00                     3  t <cycle 2> [9]",
            "                                                            4      q <cycle 2> [5]",
            RULE,
        ],
    ),
];

/// A message, hidden names, and which of `THREE_LINES` aren't printed then.
pub type HiddenRow = (&'static str, &'static [&'static str], &'static [usize]);

pub const HIDDEN_ROWS: &[HiddenRow] = &[
    (
        "numbers and lines in other entries stay",
        &["b"],
        &[9, 10, 11, 12],
    ),
    (
        "the first and the last entry",
        &["a", "main"],
        &[0, 1, 2, 3, 13, 14, 15, 16, 17],
    ),
    (
        "all functions, and not the cycle",
        &["b", "a", "main", "<cycle 1 as a whole>", "<cycle 1>"],
        &[0, 1, 2, 3, 9, 10, 11, 12, 13, 14, 15, 16, 17],
    ),
    (
        "names that no function has",
        &["mai", "main [1]", "", "b <cycle 1>", "A"],
        &[],
    ),
    ("no names", &[], &[]),
];

/// A function with the name that the cycle has as a whole, and another function of one name with `main`.
pub const NAMED_AS_A_CYCLE: Row<'static> = (
    "the cycle as a whole stays",
    &[("b", 1), ("<cycle 1 as a whole>", 2), ("b", 3)],
    &THREE_CALLS,
    100,
    &[
        "                       0.05        0.00                   1/1      b [1]",
        "[2]       83.33        0.05        0.00                   1+9  <cycle 1 as a whole> [2]",
        "                       0.02        0.00                     5      <cycle 1 as a whole> <cycle 1> [4]",
        "                       0.03        0.00                   5+2      b <cycle 1> [3]",
        RULE,
    ],
);

/// What a row shows, functions, calls, and the text of the exact flow.
pub type ExactRow = (
    &'static str,
    &'static [Function<'static>],
    &'static [Calls],
    &'static [u8],
);

pub const EXACT_ROWS: &[ExactRow] = &[
    (
        "a caller and its callee",
        &[("a", 1), ("b", 5)],
        &[(0, 1, 3)],
        b"exact flow\ncomponent 00010010 self 5000000 child 0/1\ncomponent 00010000 self 1000000 child 5000000/1\narc 00010000 00010010 self 5000000/1 child 0/1\nattributed 6000000\n",
    ),
    (
        "three callers share a sample",
        &[("a", 0), ("b", 0), ("c", 0), ("d", 1)],
        &[(0, 3, 1), (1, 3, 1), (2, 3, 1)],
        b"exact flow\ncomponent 00010030 self 1000000 child 0/1\ncomponent 00010000 self 0 child 1000000/3\narc 00010000 00010030 self 1000000/3 child 0/1\ncomponent 00010010 self 0 child 1000000/3\narc 00010010 00010030 self 1000000/3 child 0/1\ncomponent 00010020 self 0 child 1000000/3\narc 00010020 00010030 self 1000000/3 child 0/1\nattributed 1000000\n",
    ),
    (
        "arcs inside a cycle have no line, those of all its members stand below its head",
        &[("a", 0), ("b", 0), ("c", 1), ("d", 1)],
        &[(0, 1, 1), (1, 0, 1), (0, 2, 1), (1, 2, 2), (1, 3, 1)],
        b"exact flow\ncomponent 00010020 self 1000000 child 0/1\ncomponent 00010030 self 1000000 child 0/1\ncomponent 00010000 self 0 child 2000000/1\narc 00010000 00010020 self 1000000/3 child 0/1\narc 00010010 00010020 self 2000000/3 child 0/1\narc 00010010 00010030 self 1000000/1 child 0/1\nattributed 2000000\n",
    ),
    ("no functions", &[], &[], b"exact flow\nattributed 0\n"),
];
