//! Reports that are printed, and what is expected of them.

ghost use Rattle.std.specs.Prelude.{◌≡◌, ◌^◌, ◌<◌, ◌≤◌, IfOk, length};
ghost use Rattle.elf32_syms.specs.Owners.{IsAscending};
ghost use Rattle.call_cycles.specs.Graph.{all_calls};
ghost use Rattle.call_cycles.specs.Flow.{IsFlow};

use crate::{Program, profiled_program};
use call_cycles::Graph;
use elf32_syms::Symbol;
use flat_report::ReportRefusal;
use gmon_data::{AddRefusal, Profile};
use host_port::{HostCall, MemHost};
use propagate::{Flow, flow};
use std::alloc::{AllocError, Global};
use std::process::Abort;
use symbol_shares::Shares;
use test_profiles::{
    Calls, Counted, Function, boxed, calls_of_first, counted_functions, counted_of,
    symbols_in_reverse,
};

/// Which report is printed.
#[derive(Clone, Copy)]
pub enum Report {
    Flat,
    Graph,
}

/// Three functions, of which the last two call each other, and the last itself too.
pub const THREE: [Function<'static>; 3] = [("main", 1), ("a", 2), ("b", 3)];

pub const THREE_CALLS: [Calls; 4] = [(0, 1, 1), (1, 2, 5), (2, 1, 4), (2, 2, 2)];

/// The program of what was counted.
pub fn program_of_counted(alloc: Global, counted: &Counted) -> Result<Box<Program>, AllocError>
    requires { IsAscending counted.now.symbols }
    ensures functions { IfOk result (λ p. p.value.graph.value.functions
        ≡ length counted.now.symbols) }
    ensures each { IfOk result (λ p. length p.value.shares.value.of ≡ length counted.now.symbols) }
    ensures few { IfOk result (λ p. all_calls p.value.graph.value < 2 ^ 59) }
{
    profiled_program(
        alloc,
        counted.symbols.as_slice(),
        &counted.samples,
        &counted.calls,
    )
}

/// The times of a graph, in a box.
fn flow_of(alloc: Global, graph: &Graph, shares: &Shares) -> Result<Box<Flow>, AllocError>
    requires each { length shares.now.of ≡ graph.now.functions }
    requires few { all_calls graph.now < 2 ^ 59 }
    ensures { IfOk result (λ t. IsFlow graph.now shares.now.of t.value) }
{
    boxed(alloc, flow(alloc, graph, shares)?)
}

/// Writes a report of these symbols and their times.
fn write(
    alloc: Global,
    report: Report,
    symbols: &[Symbol],
    graph: &Graph,
    flow: &Flow,
    shares: &Shares,
    rate: u32,
    hidden: &[String],
    host: &mut MemHost,
) -> Result<(), ReportRefusal>
    requires functions { graph.now.functions ≡ length symbols.now }
    requires each { length shares.now.of ≡ length symbols.now }
    requires flow { IsFlow graph.now shares.now.of flow.now }
    requires few { all_calls graph.now < 2 ^ 59 }
{
    let rate = rate.max(1);
    match report {
        Report::Flat => flat_report::write(alloc, symbols, graph, flow, shares, rate, hidden, host),
        Report::Graph => {
            graph_report::write(alloc, symbols, graph, flow, shares, rate, hidden, host)
        }
    }
}

/// Prints a report of symbols with this graph and these shares.
fn print_program(
    alloc: Global,
    report: Report,
    symbols: &[Symbol],
    graph: &Graph,
    shares: &Shares,
    rate: u32,
    hidden: &[String],
    host: &mut MemHost,
) -> Result<Result<(), ReportRefusal>, AllocError>
    requires functions { graph.now.functions ≡ length symbols.now }
    requires each { length shares.now.of ≡ length symbols.now }
    requires few { all_calls graph.now < 2 ^ 59 }
{
    let flow = flow_of(alloc, graph, shares)?;
    Ok(write(
        alloc, report, symbols, graph, &flow, shares, rate, hidden, host,
    ))
}

/// Prints a report of what was counted.
pub fn print(
    alloc: Global,
    report: Report,
    counted: &Counted,
    rate: u32,
    hidden: &[String],
    host: &mut MemHost,
) -> Result<Result<(), ReportRefusal>, AllocError>
    requires { IsAscending counted.now.symbols }
{
    let program = program_of_counted(alloc, counted)?;
    print_program(
        alloc,
        report,
        counted.symbols.as_slice(),
        &program.graph,
        &program.shares,
        rate,
        hidden,
        host,
    )
}

/// Prints a report of these functions and calls.
fn print_functions(
    alloc: Global,
    report: Report,
    functions: &[Function<'_>],
    calls: &[Calls],
    rate: u32,
    hidden: &[String],
    host: &mut MemHost,
) -> Result<Result<(), ReportRefusal>, AddRefusal> {
    let counted = counted_functions(alloc, functions, calls)?;
    let printed = print(alloc, report, &counted, rate, hidden, host)?;
    Ok(printed)
}

/// Functions whose names fall, of which the first is called once by each of so many next ones.
pub fn called_by(
    alloc: Global,
    functions: u16,
    callers: u16,
    samples: Box<Profile>,
) -> Result<Box<Counted>, AllocError>
    ensures { IfOk result (λ counted. IsAscending counted.value.symbols) }
{
    let symbols = symbols_in_reverse(alloc, functions)?;
    let calls = calls_of_first(alloc, callers)?;
    counted_of(alloc, symbols, samples, calls)
}

/// A text, and these lines behind it.
pub fn with_lines(alloc: Global, header: &[u8], lines: &[&str]) -> Result<Vec<u8>, AllocError> {
    let mut text = Vec::from_slice(alloc, header)?;
    for line in lines {
        text.extend_from_slice(line.as_bytes())?;
        text.push(b'\n')?;
    }
    Ok(text)
}

/// A name of 4,095 letters.
pub fn long_name(alloc: Global) -> Result<String, AllocError> {
    let mut name = String::new(alloc);
    for _ in 0..4095 {
        name.push('x')?;
    }
    Ok(name)
}

/// The report was printed, with this text.
fn expect_text(
    rt: &impl Abort,
    message: &str,
    answer: Result<(), ReportRefusal>,
    printed: &[u8],
    want: &[u8],
) {
    assert_eq!(rt; (answer, printed), (Ok(()), want), "{message}");
}

/// The report of these functions and calls has this text.
pub fn expect_report(
    rt: &impl Abort,
    alloc: Global,
    message: &str,
    report: Report,
    functions: &[Function<'_>],
    calls: &[Calls],
    rate: u32,
    hidden: &[String],
    want: &[u8],
) -> Result<(), AddRefusal> {
    let mut host = boxed(alloc, MemHost::new(alloc))?;
    let answer = print_functions(alloc, report, functions, calls, rate, hidden, &mut host)?;
    expect_text(rt, message, answer, host.printed(), want);
    Ok(())
}

/// A call failed, and the first bytes of the text are printed, so many.
fn expect_part(
    rt: &impl Abort,
    message: &str,
    answer: Result<(), ReportRefusal>,
    host: &MemHost,
    want: &[u8],
    len: u64,
) {
    let printed = host.printed();
    assert_eq!(rt;
        (
            answer,
            host.first_failed(),
            printed.len() as u64,
            want.starts_with(printed)
        ),
        (
            Err(ReportRefusal::WriteFault),
            Some(HostCall::Out),
            len,
            true
        ),
        "{message}"
    );
}

/// A host that takes 50 bytes at a time, and on which this call fails.
fn failing_host(alloc: Global, call: u64) -> Result<Box<MemHost>, AllocError> {
    let mut host = boxed(alloc, MemHost::new(alloc))?;
    host.set_step(50);
    host.fail_at(call)?;
    Ok(host)
}

/// The report of three functions, whose text takes so many calls, where a call fails.
fn expect_failed(
    rt: &impl Abort,
    alloc: Global,
    report: Report,
    three: &Counted,
    want: &[u8],
    calls: u64,
    call: u64,
) -> Result<(), AllocError>
    requires call { call ≤ 32 }
    requires three { IsAscending three.now.symbols }
{
    let message = format!(in alloc; "call {call}")?;
    let mut host = failing_host(alloc, call)?;
    let answer = print(alloc, report, three, 100, &[], &mut host)?;
    if call < calls {
        expect_part(rt, message.as_str(), answer, &host, want, 50 * call);
    } else {
        expect_text(rt, message.as_str(), answer, host.printed(), want);
    }
    Ok(())
}

/// The same, where each call fails in turn, and two behind the last one.
pub fn expect_each_failed(
    rt: &impl Abort,
    alloc: Global,
    report: Report,
    want: &[u8],
    calls: u64,
) -> Result<(), AddRefusal>
    requires { calls ≤ 31 }
{
    let three = counted_functions(alloc, &THREE, &THREE_CALLS)?;
    for call in 0..calls + 2 {
        expect_failed(rt, alloc, report, &three, want, calls, call)?;
    }
    Ok(())
}

/// The report of three functions makes one call, where a call takes all.
pub fn expect_one_call(
    rt: &impl Abort,
    alloc: Global,
    report: Report,
    want: &[u8],
) -> Result<(), AddRefusal> {
    let mut host = boxed(alloc, MemHost::new(alloc))?;
    host.fail_at(1)?;
    let answer = print_functions(alloc, report, &THREE, &THREE_CALLS, 100, &[], &mut host)?;
    expect_text(rt, "one call", answer, host.printed(), want);
    Ok(())
}

/// A report was printed, with this beginning, this end and this length.
fn expect_ends(
    rt: &impl Abort,
    answer: Result<(), ReportRefusal>,
    printed: &[u8],
    first: &[u8],
    last: &[u8],
    len: usize,
) {
    let ends = (printed.starts_with(first), printed.ends_with(last));
    assert_eq!(rt; (answer, printed.len(), ends), (Ok(()), len, (true, true)));
}

/// The report of what was counted has this beginning, this end and this length.
pub fn expect_long(
    rt: &impl Abort,
    alloc: Global,
    report: Report,
    counted: &Counted,
    rate: u32,
    first: &[u8],
    last: &[u8],
    len: usize,
) -> Result<(), AllocError>
    requires { IsAscending counted.now.symbols }
{
    let mut host = boxed(alloc, MemHost::new(alloc))?;
    let answer = print(alloc, report, counted, rate, &[], &mut host)?;
    expect_ends(rt, answer, host.printed(), first, last, len);
    Ok(())
}
