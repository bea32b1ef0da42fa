ghost use Rattle.std.specs.Prelude.{◌≡◌, IfOk, length};
ghost use Rattle.elf32_syms.specs.Owners.{IsAscending};

mod rows;

use super::printed::{
    Report, THREE, THREE_CALLS, called_by, expect_each_failed, expect_long, expect_one_call,
    expect_report, long_name, program_of_counted, with_lines,
};
use call_cycles::Graph;
use elf32_syms::Symbol;
use exact_flow::exact;
use gmon_data::{AddRefusal, Profile};
use graph_report::write_exact;
use host_port::MemHost;
use rows::{
    CYCLES, EXACT_ROWS, ExactRow, FUNCTIONS, HIDDEN_ROWS, HiddenRow, NAMED_AS_A_CYCLE, ORDERS,
    RULE, Row, SPONTANEOUS, THREE_LINES,
};
use std::alloc::{AllocError, Global};
use std::process::Abort;
use std::test::Fail;
use symbol_shares::Shares;
use test_profiles::{
    Counted, boxed, counted_functions, counted_of, large_program, profile_of_calls,
    profile_of_samples, strings_of, symbols_in_reverse,
};

/// Prints the text of the exact flow of these symbols; false where a fraction is too wide.
fn print_exact_program(
    alloc: Global,
    symbols: &[Symbol],
    graph: &Graph,
    shares: &Shares,
    host: &mut MemHost,
) -> bool
    requires functions { graph.now.functions ≡ length symbols.now }
    requires each { length shares.now.of ≡ length symbols.now }
{
    match exact(alloc, graph, shares) {
        Ok(times) => write_exact(symbols, graph, &times, shares.attributed(), host).is_ok(),
        Err(_) => false,
    }
}

/// Prints the text of the exact flow of what was counted; false where a fraction is too wide.
fn print_exact(alloc: Global, counted: &Counted, host: &mut MemHost) -> Result<bool, AllocError>
    requires { IsAscending counted.now.symbols }
{
    let program = program_of_counted(alloc, counted)?;
    Ok(print_exact_program(
        alloc,
        counted.symbols.as_slice(),
        &program.graph,
        &program.shares,
        host,
    ))
}

/// The two lines above all entries.
const HEADER: &str =
    "call graph\nindex     %time        self    children                called  name\n";

/// The text with these lines.
fn text(alloc: Global, lines: &[&str]) -> Result<Vec<u8>, AllocError> {
    with_lines(alloc, HEADER.as_bytes(), lines)
}

/// The report of a row has its lines.
fn expect_row(
    rt: &impl Abort,
    alloc: Global,
    row: Row<'_>,
    hidden: &[String],
) -> Result<(), AddRefusal> {
    let (message, functions, calls, rate, lines) = row;
    let want = text(alloc, lines)?;
    expect_report(
        rt,
        alloc,
        message,
        Report::Graph,
        functions,
        calls,
        rate,
        hidden,
        want.as_slice(),
    )
}

/// The reports of rows have their lines.
fn expect_rows(rt: &impl Abort, alloc: Global, rows: &[Row<'_>]) -> Result<(), AddRefusal> {
    for row in rows {
        expect_row(rt, alloc, *row, &[])?;
    }
    Ok(())
}

#[test]
fn entries_of_cycles(rt: HostRuntime) -> Result<(), Fail> {
    expect_rows(&rt, rt.alloc(), CYCLES)?;
    Ok(())
}

#[test]
fn entries_of_functions(rt: HostRuntime) -> Result<(), Fail> {
    expect_rows(&rt, rt.alloc(), FUNCTIONS)?;
    Ok(())
}

#[test]
fn entries_in_their_order(rt: HostRuntime) -> Result<(), Fail> {
    expect_rows(&rt, rt.alloc(), ORDERS)?;
    Ok(())
}

/// `THREE_LINES` without some.
fn lines_without(alloc: Global, gone: &[usize]) -> Result<Vec<&'static str>, AllocError> {
    let mut lines = Vec::new(alloc);
    for (i, line) in THREE_LINES.iter().enumerate() {
        if !gone.contains(&i) {
            lines.push(*line)?;
        }
    }
    Ok(lines)
}

/// The report of `THREE` without hidden functions has these lines.
fn expect_hidden(rt: &impl Abort, alloc: Global, row: HiddenRow) -> Result<(), AddRefusal> {
    let (message, hidden, gone) = row;
    let hidden = strings_of(alloc, hidden)?;
    let lines = lines_without(alloc, gone)?;
    let row = (
        message,
        THREE.as_slice(),
        THREE_CALLS.as_slice(),
        100,
        lines.as_slice(),
    );
    expect_row(rt, alloc, row, &hidden)
}

#[test]
fn hidden_functions_have_no_entry(rt: HostRuntime) -> Result<(), Fail> {
    for row in HIDDEN_ROWS {
        expect_hidden(&rt, rt.alloc(), *row)?;
    }
    Ok(())
}

#[test]
fn hidden_names_are_those_of_functions(rt: HostRuntime) -> Result<(), Fail> {
    let hidden = strings_of(rt.alloc(), &["<cycle 1 as a whole>", "b"])?;
    expect_row(&rt, rt.alloc(), NAMED_AS_A_CYCLE, &hidden)?;
    Ok(())
}

/// The line of a function of this name, which is the only one.
fn line_of(alloc: Global, name: &str) -> Result<String, AllocError> {
    format!(in alloc; "[1]      100.00        0.01        0.00                        {name} [1]")
}

#[test]
fn a_long_name_is_printed_whole(rt: HostRuntime) -> Result<(), Fail> {
    let name = long_name(rt.alloc())?;
    let line = line_of(rt.alloc(), name.as_str())?;
    let functions = [(name.as_str(), 1)];
    let lines = [SPONTANEOUS, line.as_str(), RULE];
    let row = (
        "a long name",
        functions.as_slice(),
        [].as_slice(),
        100,
        lines.as_slice(),
    );
    expect_row(&rt, rt.alloc(), row, &[])?;
    Ok(())
}

#[test]
fn a_failed_call_leaves_a_part_that_is_not_the_whole(rt: HostRuntime) -> Result<(), Fail> {
    let want = text(rt.alloc(), &THREE_LINES)?;
    assert_eq!(rt; want.len(), 1503);
    expect_each_failed(&rt, rt.alloc(), Report::Graph, want.as_slice(), 31)?;
    Ok(())
}

#[test]
fn a_short_report_makes_one_call(rt: HostRuntime) -> Result<(), Fail> {
    let want = text(rt.alloc(), &THREE_LINES)?;
    expect_one_call(&rt, rt.alloc(), Report::Graph, want.as_slice())?;
    Ok(())
}

/// The exact text was printed.
fn expect_exact_text(rt: &impl Abort, message: &str, exact: bool, printed: &[u8], want: &[u8]) {
    assert_eq!(rt; (exact, printed), (true, want), "{message}");
}

/// The exact flow of a row has its text.
fn expect_exact(rt: &impl Abort, alloc: Global, row: ExactRow) -> Result<(), AddRefusal> {
    let (message, functions, calls, want) = row;
    let counted = counted_functions(alloc, functions, calls)?;
    let mut host = boxed(alloc, MemHost::new(alloc))?;
    let exact = print_exact(alloc, &counted, &mut host)?;
    expect_exact_text(rt, message, exact, host.printed(), want);
    Ok(())
}

#[test]
fn exact_times(rt: HostRuntime) -> Result<(), Fail> {
    for row in EXACT_ROWS {
        expect_exact(&rt, rt.alloc(), *row)?;
    }
    Ok(())
}

/// 35 samples of the first function.
const SAMPLES_OF_THE_FIRST: &[u64] = &[35];

/// A function that 35 others call once each. Those have greater addresses and names that fall, and its
/// 35 samples are shared among them.
fn many_callers(alloc: Global) -> Result<Box<Counted>, AddRefusal>
    ensures { IfOk result (λ counted. IsAscending counted.value.symbols) }
{
    let samples = profile_of_samples(alloc, SAMPLES_OF_THE_FIRST)?;
    let counted = called_by(alloc, 36, 35, samples)?;
    Ok(counted)
}

/// The first entry of that report. Callers stand by address, and are numbered by name.
fn entry_of_many_callers(alloc: Global) -> Result<String, AllocError> {
    let mut text = String::from_str(alloc, HEADER)?;
    for name in (0..35u32).rev() {
        let number = name + 2;
        write!(
            &mut text,
            "                       0.01        0.00                  1/35      {name:04x} [{number}]\n"
        )?;
    }
    text.push_str("[1]      100.00        0.35        0.00                    35  0023 [1]\n")?;
    text.push_str(RULE)?;
    Ok(text)
}

const LAST_CALLER: &[u8] =
    b"[36]       2.86        0.00        0.01                        0022 [36]\n                       0.01        0.00                  1/35      0023 [1]\n------------------------------------------------------------------------\n";

#[test]
fn callers_of_one_function(rt: HostRuntime) -> Result<(), Fail> {
    let counted = many_callers(rt.alloc())?;
    let first = entry_of_many_callers(rt.alloc())?;
    // The two first lines, 35 callers, 36 own lines, 35 callees, 35 without callers, 36 rules.
    let len = 79 + 2_687 + 2_619 + 2_660 + 2_835 + 2_628;
    expect_long(
        &rt,
        rt.alloc(),
        Report::Graph,
        &counted,
        100,
        first.as_bytes(),
        LAST_CALLER,
        len,
    )?;
    Ok(())
}

/// The calls of functions, of which each calls the next one twice.
fn chain_calls(alloc: Global) -> Result<Box<Profile>, AllocError> {
    let mut calls = Vec::new(alloc);
    for f in 0..1_199u16 {
        calls.push((f, f + 1, 2))?;
    }
    profile_of_calls(alloc, calls.as_slice())
}

/// 3 samples of the last of 1,200 functions.
fn chain_samples(alloc: Global) -> Result<Box<Profile>, AddRefusal> {
    let mut samples = vec![in alloc; 0u64; 1_199]?;
    samples.push(3)?;
    profile_of_samples(alloc, samples.as_slice())
}

/// A chain of 1,200 functions, each of which calls the next one; the last has 3 samples.
fn chain(alloc: Global) -> Result<Box<Counted>, AddRefusal>
    ensures { IfOk result (λ counted. IsAscending counted.value.symbols) }
{
    let symbols = symbols_in_reverse(alloc, 1_200)?;
    let calls = chain_calls(alloc)?;
    let samples = chain_samples(alloc)?;
    Ok(counted_of(alloc, symbols, samples, calls)?)
}

const FIRST_OF_THE_CHAIN: [&str; 8] = [
    "                       0.03        0.00                   2/2      0001 [2]",
    "[1]      100.00        0.03        0.00                     2  0000 [1]",
    RULE,
    "                       0.00        0.03                   2/2      0002 [3]",
    "[2]      100.00        0.00        0.03                     2  0001 [2]",
    "                       0.03        0.00                   2/2      0000 [1]",
    RULE,
    "                       0.00        0.03                   2/2      0003 [4]",
];

const LAST_OF_THE_CHAIN: &[u8] =
    b"[1200]   100.00        0.00        0.03                        04af [1200]\n                       0.00        0.03                   2/2      04ae [1199]\n------------------------------------------------------------------------\n";

fn expect_chain(rt: &impl Abort, alloc: Global, counted: &Counted) -> Result<(), AllocError>
    requires { IsAscending counted.now.symbols }
{
    let first = text(alloc, &FIRST_OF_THE_CHAIN)?;
    // The two first lines, 1,200 own lines, 1,199 callers, 1,199 callees, one without callers, 1,200 rules.
    let len = 79 + 88_893 + 93_617 + 93_614 + 81 + 87_600;
    expect_long(
        rt,
        alloc,
        Report::Graph,
        counted,
        100,
        first.as_slice(),
        LAST_OF_THE_CHAIN,
        len,
    )
}

#[test]
fn many_functions(rt: HostRuntime) -> Result<(), Fail> {
    let counted = chain(rt.alloc())?;
    expect_chain(&rt, rt.alloc(), &counted)?;
    Ok(())
}

const LAST_OF_A_LARGE_PROGRAM: &[u8] =
    b"[65536]    0.00        1.00        0.00                         [65536]\n------------------------------------------------------------------------\n";

/// An exact flow was printed, with so many bytes.
fn expect_exact_len(rt: &impl Abort, exact: bool, printed: &[u8], len: usize) {
    assert_eq!(rt; (exact, printed.len()), (true, len));
}

/// The exact flow of a large program has its length.
fn expect_large_exact(rt: &impl Abort, alloc: Global, counted: &Counted) -> Result<(), AllocError>
    requires { IsAscending counted.now.symbols }
{
    let mut host = boxed(alloc, MemHost::new(alloc))?;
    let exact = print_exact(alloc, counted, &mut host)?;
    // `exact flow`, a line for each component, `attributed 65536000000`.
    expect_exact_len(rt, exact, host.printed(), 11 + 65_536 * 42 + 23);
    Ok(())
}

/// The call graph and the exact flow of a large program have their lengths.
fn expect_large(rt: &impl Abort, alloc: Global, counted: &Counted) -> Result<(), AllocError>
    requires { IsAscending counted.now.symbols }
{
    // The two first lines; lines without callers, own lines but for their numbers, rules; the numbers.
    let len = 79 + 65_536 * (81 + 67 + 73) + 316_574;
    expect_long(
        rt,
        alloc,
        Report::Graph,
        counted,
        1,
        HEADER.as_bytes(),
        LAST_OF_A_LARGE_PROGRAM,
        len,
    )?;
    expect_large_exact(rt, alloc, counted)
}

#[test]
fn functions_of_a_large_program(rt: HostRuntime) -> Result<(), Fail> {
    let counted = large_program(rt.alloc())?;
    expect_large(&rt, rt.alloc(), &counted)?;
    Ok(())
}
