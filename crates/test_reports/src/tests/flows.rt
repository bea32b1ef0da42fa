ghost use Rattle.std.specs.Prelude.{◌≡◌, ◌^◌, ◌<◌, IfOk, length};
ghost use Rattle.call_cycles.specs.Graph.{all_calls, arc_count, component_count};

use crate::{Program, chain_of, profiled_program, program_of};
use call_cycles::Graph;
use gmon_data::AddRefusal;
use propagate::{Flow, flow};
use std::alloc::{AllocError, Global};
use std::test::Fail;
use symbol_shares::Shares;
use test_profiles::{Calls, boxed, even_profile, ring_of_calls, symbols_of};

/// The times of a graph, in a box.
fn flow_of(alloc: Global, graph: &Graph, shares: &Shares) -> Result<Box<Flow>, AllocError>
    requires each { length shares.now.of ≡ graph.now.functions }
    requires few { all_calls graph.now < 2 ^ 59 }
    ensures selves { IfOk result (λ t. length t.value.self ≡ component_count graph.now) }
    ensures children { IfOk result (λ t. length t.value.child ≡ component_count graph.now) }
    ensures arc_selves { IfOk result (λ t. length t.value.arc_self ≡ arc_count graph.now) }
    ensures arc_children { IfOk result (λ t. length t.value.arc_child ≡ arc_count graph.now) }
    ensures functions { IfOk result (λ t. length t.value.member_child ≡ graph.now.functions) }
{
    boxed(alloc, flow(alloc, graph, shares)?)
}

/// Head, self time and child time of each component.
fn put_components(text: &mut String, graph: &Graph, flow: &Flow) -> Result<(), AllocError>
    requires selves { length flow.now.self ≡ component_count graph.now }
    requires children { length flow.now.child ≡ component_count graph.now }
{
    for c in 0..graph.component_count() {
        let head = graph.head(c);
        let own = flow.self_of(c);
        let child = flow.child_of(c);
        write!(text, "{head}={own}+{child} ")?;
    }
    Ok(())
}

/// Caller, callee and the two parts of each arc.
fn put_arcs(text: &mut String, graph: &Graph, flow: &Flow) -> Result<(), AllocError>
    requires selves { length flow.now.arc_self ≡ arc_count graph.now }
    requires children { length flow.now.arc_child ≡ arc_count graph.now }
{
    for i in 0..graph.arc_count() {
        let arc = graph.arc(i);
        let caller = arc.caller;
        let callee = arc.callee;
        let own = flow.arc_self(i);
        let child = flow.arc_child(i);
        write!(text, "{caller}>{callee}={own}+{child} ")?;
    }
    Ok(())
}

/// What each function gets over its arcs.
fn put_functions(text: &mut String, graph: &Graph, flow: &Flow) -> Result<(), AllocError>
    requires { length flow.now.member_child ≡ graph.now.functions }
{
    for f in 0..graph.function_count() {
        let child = flow.member_child(f);
        write!(text, "{f}={child} ")?;
    }
    Ok(())
}

/// The times of components, arcs and functions.
fn put_times(
    text: &mut String,
    alloc: Global,
    graph: &Graph,
    shares: &Shares,
) -> Result<(), AllocError>
    requires each { length shares.now.of ≡ graph.now.functions }
    requires few { all_calls graph.now < 2 ^ 59 }
{
    let flow = flow_of(alloc, graph, shares)?;
    put_components(text, graph, &flow)?;
    text.push_str("| ")?;
    put_arcs(text, graph, &flow)?;
    text.push_str("| ")?;
    put_functions(text, graph, &flow)
}

/// The times in a program with these samples and calls.
fn flow_text(alloc: Global, samples: &[u64], calls: &[Calls]) -> Result<String, AddRefusal> {
    let program = program_of(alloc, samples, calls)?;
    let mut text = String::new(alloc);
    put_times(&mut text, alloc, &program.graph, &program.shares)?;
    Ok(text)
}

/// What a row shows, the samples of its functions, their calls, and the times.
type Row = (&'static str, &'static [u64], &'static [Calls], &'static str);

const ROWS: &[Row] = &[
    (
        "three callers share a sample, the last has what is left over",
        &[0, 0, 0, 1],
        &[(0, 3, 1), (1, 3, 1), (2, 3, 1)],
        "3=1000000+0 0=0+333333 1=0+333333 2=0+333334 | 0>3=333333+0 1>3=333333+0 2>3=333334+0 | 0=333333 1=333333 2=333334 3=0 ",
    ),
    (
        "a cycle, and a function of it that calls itself",
        &[1, 2, 3],
        &[(0, 1, 1), (1, 2, 5), (2, 1, 4), (2, 2, 2)],
        "1=5000000+0 0=1000000+5000000 | 0>1=5000000+0 1>2=0+0 2>1=0+0 | 0=5000000 1=0 2=0 ",
    ),
    (
        "a chain",
        &[1, 2, 4],
        &[(0, 1, 3), (1, 2, 7)],
        "2=4000000+0 1=2000000+4000000 0=1000000+6000000 | 0>1=2000000+4000000 1>2=4000000+0 | 0=6000000 1=4000000 2=0 ",
    ),
    (
        "a cycle without callers",
        &[1, 2, 4],
        &[(0, 1, 1), (1, 0, 1), (1, 2, 3)],
        "2=4000000+0 0=3000000+4000000 | 0>1=0+0 1>0=0+0 1>2=4000000+0 | 0=0 1=4000000 2=0 ",
    ),
    (
        "two ways, and a root that has all",
        &[1, 2, 4, 9],
        &[(0, 1, 1), (0, 2, 1), (1, 3, 1), (2, 3, 2)],
        "3=9000000+0 1=2000000+3000000 2=4000000+6000000 0=1000000+15000000 | 0>1=2000000+3000000 0>2=4000000+6000000 1>3=3000000+0 2>3=6000000+0 | 0=15000000 1=3000000 2=6000000 3=0 ",
    ),
    // A third of 1,000,000 and of 2,000,000, each rounded down, is 333,333 and 666,666.
    (
        "self time and child time are cut apart",
        &[0, 0, 1, 2],
        &[(0, 2, 1), (1, 2, 2), (2, 3, 5)],
        "3=2000000+0 2=1000000+2000000 0=0+999999 1=0+2000001 | 0>2=333333+666666 1>2=666667+1333334 2>3=2000000+0 | 0=999999 1=2000001 2=2000000 3=0 ",
    ),
    (
        "a cycle that is entered and left at both members",
        &[0, 0, 1, 1, 4],
        &[
            (0, 2, 1),
            (1, 3, 3),
            (2, 3, 9),
            (3, 2, 9),
            (2, 4, 1),
            (3, 4, 1),
        ],
        "4=4000000+0 2=2000000+4000000 0=0+1500000 1=0+4500000 | 0>2=500000+1000000 1>3=1500000+3000000 2>3=0+0 2>4=2000000+0 3>2=0+0 3>4=2000000+0 | 0=1500000 1=4500000 2=2000000 3=2000000 4=0 ",
    ),
    (
        "a function that calls itself alone",
        &[1],
        &[(0, 0, 3)],
        "0=1000000+0 | | 0=0 ",
    ),
    (
        "no calls",
        &[1, 0, 2],
        &[],
        "0=1000000+0 1=0+0 2=2000000+0 | | 0=0 1=0 2=0 ",
    ),
    ("no functions", &[], &[], "| | "),
];

#[test]
fn times_of_components_arcs_and_functions(rt: HostRuntime) -> Result<(), Fail> {
    for (name, samples, calls, want) in ROWS {
        let text = flow_text(rt.alloc(), samples, calls)?;
        assert_eq!(rt; text.as_str(), *want, "{name}");
    }
    Ok(())
}

/// How many functions, arcs and components a graph has.
fn counts(graph: &Graph) -> (u32, usize, u32) {
    (
        graph.function_count(),
        graph.arc_count(),
        graph.component_count(),
    )
}

/// The last arc of a chain has all time as self time, and each other one as child time. The number of the
/// first one that hasn't, and its times.
fn first_other_arc(graph: &Graph, flow: &Flow) -> Option<(usize, u128, u128)>
    requires selves { length flow.now.arc_self ≡ arc_count graph.now }
    requires children { length flow.now.arc_child ≡ arc_count graph.now }
{
    for i in 0..graph.arc_count() {
        let want = if i == 1498 {
            (3_000_000, 0)
        } else {
            (0, 3_000_000)
        };
        let (own, child) = (flow.arc_self(i), flow.arc_child(i));
        if (own, child) != want {
            return Some((i, own, child));
        }
    }
    None
}

/// Each function of a chain but the last has all time over its arcs. The first one that hasn't, and its time.
fn first_other_function(graph: &Graph, flow: &Flow) -> Option<(u32, u128)>
    requires { length flow.now.member_child ≡ graph.now.functions }
{
    for f in 0..graph.function_count() {
        let child = flow.member_child(f);
        if child != if f == 1499 { 0 } else { 3_000_000 } {
            return Some((f, child));
        }
    }
    None
}

/// How many functions, arcs and components a chain has, and its first arc and its first function that have
/// other times than theirs.
type Chain = (
    (u32, usize, u32),
    Option<(usize, u128, u128)>,
    Option<(u32, u128)>,
);

fn long_chain(alloc: Global) -> Result<Chain, AddRefusal> {
    let chain = chain_of(alloc, 1_499)?;
    let flow = flow_of(alloc, &chain.graph, &chain.shares)?;
    Ok((
        counts(&chain.graph),
        first_other_arc(&chain.graph, &flow),
        first_other_function(&chain.graph, &flow),
    ))
}

#[test]
fn a_chain_of_1500(rt: HostRuntime) -> Result<(), Fail> {
    assert_eq!(rt; long_chain(rt.alloc())?, ((1500, 1499, 1500), None, None));
    Ok(())
}

/// 65,536 functions of 256 addresses each with a sample in each 4 addresses, and calls in a ring, cut or not.
fn wide_ring(alloc: Global, cut: bool) -> Result<Box<Program>, AddRefusal>
    ensures each { IfOk result (λ p. length p.value.shares.value.of ≡ p.value.graph.value.functions) }
    ensures few { IfOk result (λ p. all_calls p.value.graph.value < 2 ^ 59) }
{
    let symbols = symbols_of(alloc, 65_536, 256)?;
    let samples = even_profile(alloc, 4_194_304, 4)?;
    let calls = ring_of_calls(alloc, 256, cut)?;
    Ok(profiled_program(alloc, symbols.as_slice(), &samples, &calls)?)
}

/// What all functions of such a ring have, and what is left.
const ALL_TIME: (u128, u128) = (4_194_304_000_000, 0);

/// The first function of such a ring that hasn't its 64 samples, and what it has.
fn first_other_share(shares: &Shares) -> Option<(u32, u128)> {
    for f in 0..shares.function_count() {
        let share = shares.of(f);
        if share != 64_000_000 {
            return Some((f, share));
        }
    }
    None
}

/// Head, entering calls, whether it is a cycle, self time and child time of a component.
type Component = (u32, u64, bool, u128, u128);

/// What is told of the component of this number, if there is one.
fn component_of(graph: &Graph, flow: &Flow, c: u32) -> Option<Component>
    requires selves { length flow.now.self ≡ component_count graph.now }
    requires children { length flow.now.child ≡ component_count graph.now }
{
    if c < graph.component_count() {
        Some((
            graph.head(c),
            graph.entering(c),
            graph.is_cycle(c),
            flow.self_of(c),
            flow.child_of(c),
        ))
    } else {
        None
    }
}

/// What functions of a wide ring have and what is left; the first one that has another share; how many
/// functions, arcs and components there are; and what is told of one of the components.
type Ring = (
    (u128, u128),
    Option<(u32, u128)>,
    (u32, usize, u32),
    Option<Component>,
);

fn ring_of(alloc: Global, cut: bool, c: u32) -> Result<Ring, AddRefusal> {
    let ring = wide_ring(alloc, cut)?;
    let flow = flow_of(alloc, &ring.graph, &ring.shares)?;
    Ok((
        (ring.shares.attributed(), ring.shares.outside()),
        first_other_share(&ring.shares),
        counts(&ring.graph),
        component_of(&ring.graph, &flow, c),
    ))
}

#[test]
fn a_wide_ring_has_all_time_in_its_cycle(rt: HostRuntime) -> Result<(), Fail> {
    let cycle = (0, 0, true, 4_194_304_000_000, 0);
    assert_eq!(rt;
        ring_of(rt.alloc(), false, 0)?,
        (ALL_TIME, None, (65_536, 2_097_152, 1), Some(cycle))
    );
    Ok(())
}

/// The root is the last of the components.
#[test]
fn a_cut_ring_has_all_time_at_its_root(rt: HostRuntime) -> Result<(), Fail> {
    let root = (0, 0, false, 64_000_000, 4_194_240_000_000);
    assert_eq!(rt;
        ring_of(rt.alloc(), true, 65_535)?,
        (ALL_TIME, None, (65_536, 2_096_624, 65_536), Some(root))
    );
    Ok(())
}
