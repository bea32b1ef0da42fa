ghost use Rattle.std.specs.Prelude.{IfOk};
ghost use Rattle.elf32_syms.specs.Owners.{IsAscending};

use super::printed::{
    Report, THREE, THREE_CALLS, called_by, expect_each_failed, expect_long, expect_one_call,
    expect_report, long_name, with_lines,
};
use gmon_data::AddRefusal;
use std::alloc::{AllocError, Global};
use std::process::Abort;
use std::test::Fail;
use test_profiles::{Calls, Counted, Function, even_profile, large_program, strings_of};

/// The first line.
const TITLE: &[u8] = b"flat profile\n";

/// What stands between the totals and the lines of functions.
const HEADINGS: &str =
    "\n  %time   cumulative       self      calls  self ms/call  total ms/call  name\n";

/// The lines above those of functions.
fn header(alloc: Global, totals: &str) -> Result<Vec<u8>, AllocError> {
    let mut text = Vec::from_slice(alloc, TITLE)?;
    text.extend_from_slice(totals.as_bytes())?;
    text.extend_from_slice(HEADINGS.as_bytes())?;
    Ok(text)
}

/// The text with these lines.
fn text(alloc: Global, totals: &str, lines: &[&str]) -> Result<Vec<u8>, AllocError> {
    let header = header(alloc, totals)?;
    with_lines(alloc, header.as_slice(), lines)
}

/// A message, functions, calls, a rate, and the text that is printed: totals and lines.
type Row<'a> = (
    &'a str,
    &'a [Function<'a>],
    &'a [Calls],
    u32,
    &'a str,
    &'a [&'a str],
);

const THREE_TOTALS: &str = "attributed 6000000, outside 0, rate 100";

const B_LINE: &str = "  50.00         0.03       0.03          7          4.29           4.29  b";

const A_LINE: &str = "  33.33         0.05       0.02          5          4.00           4.00  a";

const MAIN_LINE: &str =
    "  16.67         0.06       0.01                                          main";

const THREE_LINES: [&str; 3] = [B_LINE, A_LINE, MAIN_LINE];

const ROWS: &[Row<'static>] = &[
    (
        "equal shares are ordered by the bytes of the names",
        &[("b", 1), ("ab", 1), ("a", 1), ("Z", 1)],
        &[],
        100,
        "attributed 4000000, outside 0, rate 100",
        &[
            "  25.00         0.01       0.01                                          Z",
            "  25.00         0.02       0.01                                          a",
            "  25.00         0.03       0.01                                          ab",
            "  25.00         0.04       0.01                                          b",
        ],
    ),
    (
        "two functions of one name",
        &[("f", 2), ("e", 1), ("f", 2)],
        &[],
        100,
        "attributed 5000000, outside 0, rate 100",
        &[
            "  40.00         0.02       0.02                                          f",
            "  40.00         0.04       0.02                                          f",
            "  20.00         0.05       0.01                                          e",
        ],
    ),
    (
        "a function without samples",
        &[("main", 1), ("idle", 0), ("b", 2)],
        &[],
        100,
        "attributed 3000000, outside 0, rate 100",
        &[
            "  66.67         0.02       0.02                                          b",
            "  33.33         0.03       0.01                                          main",
        ],
    ),
    (
        "no functions",
        &[("", 7)],
        &[],
        100,
        "attributed 0, outside 7000000, rate 100",
        &[],
    ),
    (
        "no samples",
        &[],
        &[],
        100,
        "attributed 0, outside 0, rate 100",
        &[],
    ),
    (
        "a rate of 1",
        &[("main", 200)],
        &[],
        1,
        "attributed 200000000, outside 0, rate 1",
        &[" 100.00       200.00     200.00                                          main"],
    ),
    (
        "the highest rate of a profile",
        &[("main", 200)],
        &[],
        2_147_483_647,
        "attributed 200000000, outside 0, rate 2147483647",
        &[" 100.00         0.00       0.00                                          main"],
    ),
    (
        "percentages are of what functions have",
        &[("main", 1), ("a", 3), ("", 4)],
        &[],
        100,
        "attributed 4000000, outside 4000000, rate 100",
        &[
            "  75.00         0.03       0.03                                          a",
            "  25.00         0.04       0.01                                          main",
        ],
    ),
    // 96.875 and 3.125 percent; 0.155, 0.16 and 0.005 seconds.
    (
        "a half is rounded up",
        &[("a", 1), ("b", 31)],
        &[],
        200,
        "attributed 32000000, outside 0, rate 200",
        &[
            "  96.88         0.16       0.16                                          b",
            "   3.13         0.16       0.01                                          a",
        ],
    ),
    (
        "times that are wider than their columns",
        &[("main", 1_099_511_627_776)],
        &[],
        1,
        "attributed 1099511627776000000, outside 0, rate 1",
        &[
            " 100.00 1099511627776.00 1099511627776.00                                          main",
        ],
    ),
];

/// The report of a row has its text.
fn expect_row(
    rt: &impl Abort,
    alloc: Global,
    row: Row<'_>,
    hidden: &[String],
) -> Result<(), AddRefusal> {
    let (message, functions, calls, rate, totals, lines) = row;
    let want = text(alloc, totals, lines)?;
    expect_report(
        rt,
        alloc,
        message,
        Report::Flat,
        functions,
        calls,
        rate,
        hidden,
        want.as_slice(),
    )
}

/// The reports of rows have their texts.
fn expect_rows(rt: &impl Abort, alloc: Global, rows: &[Row<'_>]) -> Result<(), AddRefusal> {
    for row in rows {
        expect_row(rt, alloc, *row, &[])?;
    }
    Ok(())
}

#[test]
fn lines_of_functions(rt: HostRuntime) -> Result<(), Fail> {
    expect_rows(&rt, rt.alloc(), ROWS)?;
    Ok(())
}

const CALLED_ROWS: &[Row<'static>] = &[
    (
        "a cycle",
        &THREE,
        &THREE_CALLS,
        100,
        THREE_TOTALS,
        &THREE_LINES,
    ),
    (
        "a chain",
        &[("main", 1), ("a", 2), ("b", 4)],
        &[(0, 1, 2), (1, 2, 4)],
        100,
        "attributed 7000000, outside 0, rate 100",
        &[
            "  57.14         0.04       0.04          4         10.00          10.00  b",
            "  28.57         0.06       0.02          2         10.00          30.00  a",
            "  14.29         0.07       0.01                                          main",
        ],
    ),
    (
        "functions without time: one is called, one isn't",
        &[("main", 1), ("idle", 0), ("leaf", 2), ("unused", 0)],
        &[(0, 1, 2), (1, 2, 1)],
        100,
        "attributed 3000000, outside 0, rate 100",
        &[
            "  66.67         0.02       0.02          1         20.00          20.00  leaf",
            "  33.33         0.03       0.01                                          main",
            "   0.00         0.03       0.00          2          0.00          10.00  idle",
        ],
    ),
    (
        "equal shares are ordered by calls, more calls first",
        &[("main", 0), ("a", 1), ("b", 1)],
        &[(0, 1, 1), (0, 2, 2)],
        100,
        "attributed 2000000, outside 0, rate 100",
        &[
            "  50.00         0.01       0.01          2          5.00           5.00  b",
            "  50.00         0.02       0.01          1         10.00          10.00  a",
        ],
    ),
    (
        "equal shares and calls are ordered by names",
        &[("main", 0), ("b", 1), ("a", 1)],
        &[(0, 1, 3), (0, 2, 3)],
        100,
        "attributed 2000000, outside 0, rate 100",
        &[
            "  50.00         0.01       0.01          3          3.33           3.33  a",
            "  50.00         0.02       0.01          3          3.33           3.33  b",
        ],
    ),
    (
        "functions that are alike but in their total are ordered by addresses",
        &[("main", 0), ("f", 1), ("f", 1), ("leaf", 3)],
        &[(0, 1, 1), (0, 2, 1), (2, 3, 1)],
        100,
        "attributed 5000000, outside 0, rate 100",
        &[
            "  60.00         0.03       0.03          1         30.00          30.00  leaf",
            "  20.00         0.04       0.01          1         10.00          10.00  f",
            "  20.00         0.05       0.01          1         10.00          40.00  f",
        ],
    ),
    (
        "calls without samples",
        &[("main", 0), ("a", 0)],
        &[(0, 1, 2), (1, 1, 1)],
        100,
        "attributed 0, outside 0, rate 100",
        &["   0.00         0.00       0.00          3          0.00           0.00  a"],
    ),
    (
        "a function that calls itself alone",
        &[("main", 3)],
        &[(0, 0, 4)],
        100,
        "attributed 3000000, outside 0, rate 100",
        &[" 100.00         0.03       0.03          4          7.50           7.50  main"],
    ),
    // 5 milliseconds in 8 calls are 0.625 each.
    (
        "a half of a hundredth of a millisecond is rounded up",
        &[("main", 0), ("a", 1)],
        &[(0, 1, 8)],
        200,
        "attributed 1000000, outside 0, rate 200",
        &[" 100.00         0.01       0.01          8          0.63           0.63  a"],
    ),
];

#[test]
fn columns_on_calls(rt: HostRuntime) -> Result<(), Fail> {
    expect_rows(&rt, rt.alloc(), CALLED_ROWS)?;
    Ok(())
}

/// A message, functions, calls, hidden names, and the lines that are printed.
type HiddenRow = (
    &'static str,
    &'static [Function<'static>],
    &'static [Calls],
    &'static [&'static str],
    &'static [&'static str],
);

const HIDDEN_ROWS: &[HiddenRow] = &[
    (
        "the time of a hidden function counts",
        &THREE,
        &THREE_CALLS,
        &["a"],
        &[B_LINE, MAIN_LINE],
    ),
    (
        "each of the names",
        &THREE,
        &THREE_CALLS,
        &["main", "b"],
        &[A_LINE],
    ),
    (
        "all functions",
        &THREE,
        &THREE_CALLS,
        &["b", "a", "main", "a"],
        &[],
    ),
    (
        "names that no function has",
        &THREE,
        &THREE_CALLS,
        &["mai", "main2", "", "A"],
        &THREE_LINES,
    ),
    (
        "all functions of a name",
        &[("f", 2), ("e", 1), ("f", 3)],
        &[],
        &["f"],
        &["  16.67         0.06       0.01                                          e"],
    ),
];

/// The report of a row without hidden functions has its lines.
fn expect_hidden(rt: &impl Abort, alloc: Global, row: HiddenRow) -> Result<(), AddRefusal> {
    let (message, functions, calls, hidden, lines) = row;
    let hidden = strings_of(alloc, hidden)?;
    let row = (message, functions, calls, 100, THREE_TOTALS, lines);
    expect_row(rt, alloc, row, &hidden)
}

#[test]
fn hidden_functions_have_no_line(rt: HostRuntime) -> Result<(), Fail> {
    for row in HIDDEN_ROWS {
        expect_hidden(&rt, rt.alloc(), *row)?;
    }
    Ok(())
}

/// The line of a function of this name, which is the only one.
fn line_of(alloc: Global, name: &str) -> Result<String, AllocError> {
    format!(in alloc;
        " 100.00         0.01       0.01                                          {name}"
    )
}

#[test]
fn a_long_name_is_printed_whole(rt: HostRuntime) -> Result<(), Fail> {
    let name = long_name(rt.alloc())?;
    let line = line_of(rt.alloc(), name.as_str())?;
    let functions = [(name.as_str(), 1)];
    let lines = [line.as_str()];
    let totals = "attributed 1000000, outside 0, rate 100";
    let row = (
        "a long name",
        functions.as_slice(),
        [].as_slice(),
        100,
        totals,
        lines.as_slice(),
    );
    expect_row(&rt, rt.alloc(), row, &[])?;
    Ok(())
}

#[test]
fn a_failed_call_leaves_a_part_that_is_not_the_whole(rt: HostRuntime) -> Result<(), Fail> {
    let want = text(rt.alloc(), THREE_TOTALS, &THREE_LINES)?;
    assert_eq!(rt; want.len(), 359);
    expect_each_failed(&rt, rt.alloc(), Report::Flat, want.as_slice(), 8)?;
    Ok(())
}

#[test]
fn a_short_report_makes_one_call(rt: HostRuntime) -> Result<(), Fail> {
    let want = text(rt.alloc(), THREE_TOTALS, &THREE_LINES)?;
    expect_one_call(&rt, rt.alloc(), Report::Flat, want.as_slice())?;
    Ok(())
}

/// 4,096 functions of a sample each, of which 2,000 call the first one.
fn many_callers(alloc: Global) -> Result<Box<Counted>, AddRefusal>
    ensures { IfOk result (λ counted. IsAscending counted.value.symbols) }
{
    let samples = even_profile(alloc, 4096, 16)?;
    let counted = called_by(alloc, 4096, 2000, samples)?;
    Ok(counted)
}

const FIRST_OF_MANY: [&str; 3] = [
    "   0.02         1.00       1.00       2000          0.50           0.50  0fff",
    "   0.02         2.00       1.00                                          0000",
    "   0.02         3.00       1.00                                          0001",
];

const LAST_OF_MANY: &[u8] =
    b"   0.02      4095.00       1.00                                          0ffd\n   0.02      4096.00       1.00                                          0ffe\n";

fn expect_many(rt: &impl Abort, alloc: Global, counted: &Counted) -> Result<(), AllocError>
    requires { IsAscending counted.now.symbols }
{
    let totals = "attributed 4096000000, outside 0, rate 1";
    let first = text(alloc, totals, &FIRST_OF_MANY)?;
    let len = 132 + 4096 * 78;
    expect_long(
        rt,
        alloc,
        Report::Flat,
        counted,
        1,
        first.as_slice(),
        LAST_OF_MANY,
        len,
    )
}

#[test]
fn many_functions(rt: HostRuntime) -> Result<(), Fail> {
    let counted = many_callers(rt.alloc())?;
    expect_many(&rt, rt.alloc(), &counted)?;
    Ok(())
}

const LAST_OF_A_LARGE_PROGRAM: &[u8] =
    b"   0.00     65536.00       1.00                                          \n";

#[test]
fn functions_of_a_large_program(rt: HostRuntime) -> Result<(), Fail> {
    let counted = large_program(rt.alloc())?;
    let len = 133 + 65_536 * 74;
    expect_long(
        &rt,
        rt.alloc(),
        Report::Flat,
        &counted,
        1,
        TITLE,
        LAST_OF_A_LARGE_PROGRAM,
        len,
    )?;
    Ok(())
}
