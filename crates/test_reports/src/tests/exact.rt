ghost use Rattle.std.specs.Prelude.{◌≡◌, length};
ghost use Rattle.call_cycles.specs.Graph.{arc_count, component_count};
ghost use Rattle.exact_flow.specs.Times.{HasTimes};

use crate::{chain_of, program_of};
use call_cycles::Graph;
use exact_flow::{ExactFlow, ExactRefusal, exact};
use gmon_data::AddRefusal;
use std::alloc::{AllocError, Global};
use std::process::Abort;
use std::test::Fail;
use symbol_shares::Shares;
use test_profiles::Calls;

/// Head, self time and child time of each component.
fn put_components(text: &mut String, graph: &Graph, flow: &ExactFlow) -> Result<(), AllocError>
    requires selves { length flow.now.self ≡ component_count graph.now }
    requires children { length flow.now.child ≡ component_count graph.now }
{
    for c in 0..graph.component_count() {
        let head = graph.head(c);
        let own = flow.self_of(c);
        let child = flow.child_of(c);
        let (num, den) = (child.num(), child.den());
        write!(text, "{head}={own}+{num}/{den} ")?;
    }
    Ok(())
}

/// Caller, callee and the two parts of each arc.
fn put_arcs(text: &mut String, graph: &Graph, flow: &ExactFlow) -> Result<(), AllocError>
    requires selves { length flow.now.arc_self ≡ arc_count graph.now }
    requires children { length flow.now.arc_child ≡ arc_count graph.now }
{
    for i in 0..graph.arc_count() {
        let arc = graph.arc(i);
        let (caller, callee) = (arc.caller, arc.callee);
        let own = flow.arc_self(i);
        let child = flow.arc_child(i);
        let (s, t) = (own.num(), own.den());
        let (k, l) = (child.num(), child.den());
        write!(text, "{caller}>{callee}={s}/{t}+{k}/{l} ")?;
    }
    Ok(())
}

/// The exact times of a graph, or why there are none.
fn put_exact(
    text: &mut String,
    alloc: Global,
    graph: &Graph,
    shares: &Shares,
) -> Result<(), AllocError>
    requires { length shares.now.of ≡ graph.now.functions }
{
    match exact(alloc, graph, shares) {
        Ok(flow) => put_times(text, graph, &flow),
        Err(refusal) => put_refusal(text, refusal),
    }
}

fn put_times(text: &mut String, graph: &Graph, flow: &ExactFlow) -> Result<(), AllocError>
    requires { HasTimes graph.now flow.now }
{
    put_components(text, graph, flow)?;
    text.push_str("| ")?;
    put_arcs(text, graph, flow)
}

fn put_refusal(text: &mut String, refusal: ExactRefusal) -> Result<(), AllocError> {
    match refusal {
        ExactRefusal::TooWide { head, arc } => write!(text, "too wide {head} {arc}"),
        ExactRefusal::OutOfMemory => text.push_str("out of memory"),
    }
}

/// The exact times of functions with these samples and calls, or why there are none.
fn exact_text(alloc: Global, samples: &[u64], calls: &[Calls]) -> Result<String, AddRefusal> {
    let program = program_of(alloc, samples, calls)?;
    let mut text = String::new(alloc);
    put_exact(&mut text, alloc, &program.graph, &program.shares)?;
    Ok(text)
}

/// A name, samples, calls and the text.
type Row<'a> = (&'a str, &'a [u64], &'a [Calls], &'a str);

/// The greatest number of calls that a file can hold of an arc with 31 bits.
const MANY: u64 = 2_147_483_647;

const ROWS: &[Row<'static>] = &[
    (
        "one caller",
        &[1, 5],
        &[(0, 1, 3)],
        "1=5000000+0/1 0=1000000+5000000/1 | 0>1=5000000/1+0/1 ",
    ),
    (
        "three callers",
        &[0, 0, 0, 1],
        &[(0, 3, 1), (1, 3, 1), (2, 3, 1)],
        "3=1000000+0/1 0=0+1000000/3 1=0+1000000/3 2=0+1000000/3 | 0>3=1000000/3+0/1 1>3=1000000/3+0/1 2>3=1000000/3+0/1 ",
    ),
    (
        "two ways from a caller to a callee",
        &[0, 0, 0, 1],
        &[(0, 1, 1), (0, 2, 1), (1, 3, 1), (2, 3, 2)],
        "3=1000000+0/1 1=0+1000000/3 2=0+2000000/3 0=0+1000000/1 | 0>1=0/1+1000000/3 0>2=0/1+2000000/3 1>3=1000000/3+0/1 2>3=2000000/3+0/1 ",
    ),
    (
        "arcs inside a cycle carry none",
        &[0, 1, 2],
        &[(0, 1, 2), (1, 2, 1), (2, 1, 7)],
        "1=3000000+0/1 0=0+3000000/1 | 0>1=3000000/1+0/1 1>2=0/1+0/1 2>1=0/1+0/1 ",
    ),
    (
        "a wide graph",
        &[1, 0, 0, 0, 0, 0, 0, 0, 0],
        &[
            (1, 0, MANY),
            (2, 1, MANY),
            (3, 2, MANY),
            (4, 3, MANY),
            (5, 0, 1),
            (6, 1, 1),
            (7, 2, 1),
            (8, 3, 1),
        ],
        "too wide 4 3",
    ),
    // The parts of both callees fit; over the common denominator of 15625 * M^3 / 2^87 and
    // 1000000 * M^2 / (2^31 + 1)^2, M being 2^31 - 1, their sum does not.
    (
        "a sum that is too wide",
        &[1, 0, 0, 0, 1, 0, 0, 0, 0, 0, 0, 0, 0],
        &[
            (1, 0, MANY),
            (2, 1, MANY),
            (3, 2, MANY),
            (5, 4, MANY),
            (6, 5, MANY),
            (7, 3, 1),
            (7, 6, 1),
            (8, 0, 1),
            (9, 1, 1),
            (10, 2, 1),
            (11, 4, 2),
            (12, 5, 2),
        ],
        "too wide 7 6",
    ),
    ("no functions", &[], &[], "| "),
];

#[test]
fn exact_times(rt: HostRuntime) -> Result<(), Fail> {
    for (name, samples, calls, want) in ROWS {
        let text = exact_text(rt.alloc(), samples, calls)?;
        assert_eq!(rt; text.as_str(), *want, "{name}");
    }
    Ok(())
}

const NARROW_CALLS: [Calls; 7] = [
    (1, 0, MANY),
    (2, 1, MANY),
    (3, 2, MANY),
    (5, 0, 1),
    (6, 1, 1),
    (7, 2, 1),
    (8, 3, 1),
];

#[test]
fn a_graph_one_arc_less_wide(rt: HostRuntime) -> Result<(), Fail> {
    let text = exact_text(rt.alloc(), &[1, 0, 0, 0, 0, 0, 0, 0, 0], &NARROW_CALLS)?;
    assert_ne!(rt; text.as_str(), "out of memory");
    // 15625 * (2^31 - 1)^3 / 2^87
    assert!(rt;
        text.as_str().contains(
            "3=0+154742504694499752349270015984375/154742504910672534362390528 "
        ),
        "{text}"
    );
    Ok(())
}

/// How many arcs of this chain carry all time that there is: the last one as self time, each other as child time.
fn arcs_with_all(graph: &Graph, flow: &ExactFlow) -> usize
    requires selves { length flow.now.arc_self ≡ arc_count graph.now }
    requires children { length flow.now.arc_child ≡ arc_count graph.now }
{
    let mut count = 0usize;
    for i in 0..graph.arc_count() {
        let own = flow.arc_self(i);
        let child = flow.arc_child(i);
        let all = if i == 1998 { own } else { child };
        let none = if i == 1998 { child } else { own };
        if (all.num(), all.den()) == (3_000_000, 1) && (none.num(), none.den()) == (0, 1) {
            count = count.saturating_add(1);
        }
    }
    count
}

fn expect_chain(rt: &impl Abort, graph: &Graph, flow: &ExactFlow)
    requires { HasTimes graph.now flow.now }
{
    assert_eq!(rt;
        (arcs_with_all(graph, flow), flow.outside_arcs().len()),
        (1999, 1999)
    );
}

fn expect_chain_times(rt: &impl Abort, alloc: Global, graph: &Graph, shares: &Shares)
    requires { length shares.now.of ≡ graph.now.functions }
{
    match exact(alloc, graph, shares) {
        Ok(flow) => expect_chain(rt, graph, &flow),
        Err(_) => assert!(rt; false, "refused"),
    }
}

#[test]
fn a_chain_of_2000(rt: HostRuntime) -> Result<(), Fail> {
    let chain = chain_of(rt.alloc(), 1_999)?;
    expect_chain_times(&rt, rt.alloc(), &chain.graph, &chain.shares);
    Ok(())
}
