ghost use Rattle.std.specs.Prelude.{◌<◌, ◌≤◌};

mod plain;

use super::looks::expect_text;
use crate::{boxed, profile_of_arcs, profile_of_calls, ring_of_calls, symbols_of};
use call_cycles::{Graph, graph};
use gmon_data::Profile;
use std::alloc::{AllocError, Global};
use std::process::Abort;
use std::test::Fail;

/// Caller, callee and count of each arc.
fn put_arcs(text: &mut String, graph: &Graph) -> Result<(), AllocError> {
    for i in 0..graph.arc_count() {
        let arc = graph.arc(i);
        write!(text, "{}>{}:{} ", arc.caller, arc.callee, arc.count)?;
    }
    text.push_str("| ")
}

/// The self calls of each function that has some.
fn put_selves(text: &mut String, graph: &Graph) -> Result<(), AllocError> {
    for f in 0..graph.function_count() {
        let calls = graph.self_calls(f);
        if calls > 0 {
            write!(text, "{f}:{calls} ")?;
        }
    }
    text.push_str("| ")
}

/// The members of a component.
fn put_members(text: &mut String, graph: &Graph, c: u32) -> Result<(), AllocError> {
    for f in 0..graph.function_count() {
        if graph.component(f) == c {
            write!(text, " {f}")?;
        }
    }
    Ok(())
}

/// Head, entering calls and members of each component; a star at a cycle.
fn put_components(text: &mut String, graph: &Graph) -> Result<(), AllocError> {
    for c in 0..graph.component_count() {
        let head = graph.head(c);
        let entering = graph.entering(c);
        let star = if graph.is_cycle(c) { "*" } else { "" };
        write!(text, "{head}+{entering}{star} =")?;
        put_members(text, graph, c)?;
        text.push_str("; ")?;
    }
    Ok(())
}

/// The graph of so many functions.
fn found_graph(alloc: Global, functions: u32, profile: &Profile) -> Result<Box<Graph>, AllocError>
    requires { functions ≤ 65536 }
{
    let symbols = symbols_of(alloc, functions, 16)?;
    boxed(alloc, graph(alloc, profile, symbols.as_slice())?)
}

/// Arcs, self calls and components of a graph.
fn text_of(alloc: Global, graph: &Graph) -> Result<String, AllocError> {
    let mut text = String::new(alloc);
    put_arcs(&mut text, graph)?;
    put_selves(&mut text, graph)?;
    put_components(&mut text, graph)?;
    Ok(text)
}

/// What a profile's graph of so many functions tells.
fn graph_text(alloc: Global, functions: u16, profile: &Profile) -> Result<String, AllocError> {
    let found = found_graph(alloc, u32::from(functions), profile)?;
    text_of(alloc, &found)
}

/// Call site, callee and count of each arc, and what the graph of three functions tells.
const ARCS: &[(&'static str, &'static [(u32, u32, u64)], &'static str)] = &[
    (
        "a cycle of two",
        &[
            (0x1_0004, 0x1_0014, 1),
            (0x1_0018, 0x1_0024, 5),
            (0x1_0028, 0x1_0014, 4),
            (0x1_0028, 0x1_0024, 2),
        ],
        "0>1:1 1>2:5 2>1:4 | 2:2 | 1+1* = 1 2; 0+0 = 0; ",
    ),
    (
        "an arc of count 0",
        &[
            (0x1_0004, 0x1_0014, 1),
            (0x1_0018, 0x1_0024, 5),
            (0x1_0028, 0x1_0014, 0),
            (0x1_0028, 0x1_0024, 2),
        ],
        "0>1:1 1>2:5 | 2:2 | 2+5 = 2; 1+1 = 1; 0+0 = 0; ",
    ),
    (
        "call sites and callees in no function",
        &[
            (0xFFFF, 0x1_0010, 7),
            (0x1_0030, 0x1_0010, 7),
            (0x1_0004, 0xFFFF, 7),
            (0x1_0004, 0x1_0030, 7),
        ],
        "| | 0+0 = 0; 1+0 = 1; 2+0 = 2; ",
    ),
    (
        "several arcs between the same functions",
        &[
            (0x1_0000, 0x1_0010, 1),
            (0x1_002F, 0x1_0020, 8),
            (0x1_000F, 0x1_001F, 2),
            (0x1_0004, 0x1_0014, 4),
        ],
        "0>1:7 | 2:8 | 1+7 = 1; 2+0 = 2; 0+0 = 0; ",
    ),
    (
        "arcs in order of caller, then callee",
        &[
            (0x1_0020, 0x1_0010, 1),
            (0x1_0000, 0x1_0020, 2),
            (0x1_0020, 0x1_0000, 3),
            (0x1_0000, 0x1_0010, 4),
        ],
        "0>1:4 0>2:2 2>0:3 2>1:1 | | 1+5 = 1; 0+0* = 0 2; ",
    ),
    (
        "arcs of one pair in mixed order",
        &[
            (0x1_0020, 0x1_0010, 1),
            (0x1_0004, 0x1_0014, 2),
            (0x1_0018, 0x1_0010, 3),
            (0x1_0024, 0x1_0014, 4),
            (0x1_0008, 0x1_0024, 5),
            (0x1_0014, 0x1_001C, 6),
            (0x1_000C, 0x1_0010, 7),
            (0x1_0028, 0x1_0010, 8),
            (0x1_0008, 0x1_0020, 9),
            (0x1_0000, 0x1_000C, 10),
        ],
        "0>1:9 0>2:14 2>1:13 | 0:10 1:9 | 1+22 = 1; 2+14 = 2; 0+0 = 0; ",
    ),
];

fn arcs_tell(
    rt: &impl Abort,
    alloc: Global,
    name: &str,
    arcs: &[(u32, u32, u64)],
    want: &str,
) -> Result<(), AllocError> {
    let profile = profile_of_arcs(alloc, arcs)?;
    let text = graph_text(alloc, 3, &profile)?;
    expect_text(rt, text.as_str(), want, name);
    Ok(())
}

#[test]
fn arcs_of_a_profile(rt: HostRuntime) -> Result<(), Fail> {
    for (name, arcs, want) in ARCS {
        arcs_tell(&rt, rt.alloc(), name, arcs, want)?;
    }
    Ok(())
}

/// How many functions there are, caller, callee and count of each call, and what the graph tells.
const COMPONENTS: &[(&'static str, u16, &'static [(u16, u16, u64)], &'static str)] = &[
    ("no functions", 0, &[], "| | "),
    ("a function without calls", 1, &[], "| | 0+0 = 0; "),
    (
        "a function that calls itself",
        1,
        &[(0, 0, 3)],
        "| 0:3 | 0+0 = 0; ",
    ),
    (
        "two cycles with an arc between them",
        4,
        &[(0, 1, 1), (1, 0, 2), (2, 3, 3), (3, 2, 4), (1, 2, 5)],
        "0>1:1 1>0:2 1>2:5 2>3:3 3>2:4 | | 2+5* = 2 3; 0+0* = 0 1; ",
    ),
    (
        "a chain of five",
        5,
        &[(0, 1, 1), (1, 2, 2), (2, 3, 3), (3, 4, 4)],
        "0>1:1 1>2:2 2>3:3 3>4:4 | | 4+4 = 4; 3+3 = 3; 2+2 = 2; 1+1 = 1; 0+0 = 0; ",
    ),
    (
        "a chain of five, from the last function on",
        5,
        &[(4, 3, 4), (3, 2, 3), (2, 1, 2), (1, 0, 1)],
        "1>0:1 2>1:2 3>2:3 4>3:4 | | 0+1 = 0; 1+2 = 1; 2+3 = 2; 3+4 = 3; 4+0 = 4; ",
    ),
    // The longer way from 0 to 4 is that over 2 and 3, so 0 comes after 2.
    (
        "two ways of other lengths",
        5,
        &[(0, 1, 1), (1, 4, 2), (0, 2, 3), (2, 3, 4), (3, 4, 5)],
        "0>1:1 0>2:3 1>4:2 2>3:4 3>4:5 | | 4+7 = 4; 1+1 = 1; 3+4 = 3; 2+3 = 2; 0+0 = 0; ",
    ),
    (
        "a cycle that is entered at its last member",
        4,
        &[(0, 3, 1), (3, 1, 2), (1, 2, 3), (2, 3, 4), (2, 2, 9)],
        "0>3:1 1>2:3 2>3:4 3>1:2 | 2:9 | 1+1* = 1 2 3; 0+0 = 0; ",
    ),
    (
        "functions that only reach a cycle, or are only reached",
        4,
        &[(0, 1, 1), (1, 2, 2), (2, 1, 3), (2, 3, 4)],
        "0>1:1 1>2:2 2>1:3 2>3:4 | | 3+4 = 3; 1+1* = 1 2; 0+0 = 0; ",
    ),
];

/// What the graph of calls between so many functions tells.
fn calls_text(
    alloc: Global,
    functions: u16,
    calls: &[(u16, u16, u64)],
) -> Result<String, AllocError> {
    let profile = profile_of_calls(alloc, calls)?;
    graph_text(alloc, functions, &profile)
}

fn calls_tell(
    rt: &impl Abort,
    alloc: Global,
    name: &str,
    functions: u16,
    calls: &[(u16, u16, u64)],
    want: &str,
) -> Result<(), AllocError> {
    let text = calls_text(alloc, functions, calls)?;
    expect_text(rt, text.as_str(), want, name);
    Ok(())
}

#[test]
fn components_and_their_order(rt: HostRuntime) -> Result<(), Fail> {
    for (name, functions, calls, want) in COMPONENTS {
        calls_tell(&rt, rt.alloc(), name, *functions, calls, want)?;
    }
    Ok(())
}

/// The calls of a ring of 500 functions, each of which calls the one before it, and of one more that calls
/// into it.
fn ring_calls(alloc: Global) -> Result<Vec<(u16, u16, u64)>, AllocError> {
    let mut calls = Vec::new(alloc);
    for f in 0..500u16 {
        calls.push((f, (f + 499) % 500, 1))?;
    }
    calls.push((500, 250, 7))?;
    Ok(calls)
}

fn ring_profile(alloc: Global) -> Result<Box<Profile>, AllocError> {
    let calls = ring_calls(alloc)?;
    profile_of_calls(alloc, calls.as_slice())
}

fn ring(alloc: Global) -> Result<Box<Graph>, AllocError> {
    let profile = ring_profile(alloc)?;
    found_graph(alloc, 501, &profile)
}

/// How many functions, arcs and components a graph has.
fn counts(graph: &Graph) -> (u32, usize, u32) {
    (
        graph.function_count(),
        graph.arc_count(),
        graph.component_count(),
    )
}

/// Head, entering calls, and whether it is a cycle, of the component of this number, if there is one.
fn component_of(graph: &Graph, c: u32) -> Option<(u32, u64, bool)> {
    if c < graph.component_count() {
        Some((graph.head(c), graph.entering(c), graph.is_cycle(c)))
    } else {
        None
    }
}

/// The first function of the ring that is in another component than its own, and that one.
fn first_other_member(found: &Graph) -> Option<(u32, u32)> {
    for f in 0..found.function_count() {
        let c = found.component(f);
        if c != f / 500 {
            return Some((f, c));
        }
    }
    None
}

fn expect_ring(rt: &impl Abort, found: &Graph) {
    let components = (component_of(found, 0), component_of(found, 1));
    assert_eq!(rt;
        (counts(found), components, first_other_member(found)),
        (
            (501, 501, 2),
            (Some((0, 7, true)), Some((500, 0, false))),
            None
        )
    );
}

#[test]
fn a_ring_of_500(rt: HostRuntime) -> Result<(), Fail> {
    let found = ring(rt.alloc())?;
    expect_ring(&rt, &found);
    Ok(())
}

/// Numbers that follow from a state other than 0.
#[derive(Drop)]
struct Random {
    state: u64,
}

impl Random {
    /// The next number, below an end.
    fn below(&mut self, end: u16) -> u16
        requires { 0 < end }
        ensures { result < end }
    {
        let x = self.state ^ (self.state << 13);
        let x = x ^ (x >> 7);
        self.state = x ^ (x << 17);
        (self.state % u64::from(end)) as u16
    }
}

/// Calls between so many functions: few or many, of counts from 0 on.
fn random_calls(
    alloc: Global,
    random: &mut Random,
    functions: u16,
) -> Result<Vec<(u16, u16, u64)>, AllocError>
    requires least { 0 < functions }
    requires most { functions ≤ 12 }
{
    let mut calls = Vec::new(alloc);
    for _ in 0..random.below(3 * functions) {
        let caller = random.below(functions);
        let callee = random.below(functions);
        calls.push((caller, callee, u64::from(random.below(4))))?;
    }
    Ok(calls)
}

/// Looks at the graph of calls between so many functions.
fn expect_plain(
    rt: &impl Abort,
    alloc: Global,
    functions: u16,
    calls: &[(u16, u16, u64)],
    k: u32,
) -> Result<(), AllocError>
    requires { functions ≤ 12 }
{
    let text = calls_text(alloc, functions, calls)?;
    let want = plain::text(alloc, usize::from(functions), calls)?;
    assert_eq!(rt; text, want, "{k}");
    Ok(())
}

fn random_graph_is_plain(
    rt: &impl Abort,
    alloc: Global,
    random: &mut Random,
    k: u32,
) -> Result<(), AllocError> {
    let functions = random.below(12) + 1;
    let calls = random_calls(alloc, random, functions)?;
    expect_plain(rt, alloc, functions, calls.as_slice(), k)
}

#[test]
fn random_graphs_are_those_of_a_plain_search(rt: HostRuntime) -> Result<(), Fail> {
    let mut random = Random { state: 1 };
    for k in 0..1000u32 {
        random_graph_is_plain(&rt, rt.alloc(), &mut random, k)?;
    }
    Ok(())
}

/// The graph of 65,536 functions, each of which calls the 32 that follow it in a ring, cut or not.
fn wide_ring(alloc: Global, cut: bool) -> Result<Box<Graph>, AllocError> {
    let profile = ring_of_calls(alloc, 16, cut)?;
    found_graph(alloc, 65_536, &profile)
}

fn expect_one_cycle(rt: &impl Abort, found: &Graph) {
    assert_eq!(rt;
        (counts(found), component_of(found, 0)),
        ((65_536, 2_097_152, 1), Some((0, 0, true)))
    );
}

#[test]
fn a_wide_ring_is_one_cycle(rt: HostRuntime) -> Result<(), Fail> {
    let found = wide_ring(rt.alloc(), false)?;
    expect_one_cycle(&rt, &found);
    Ok(())
}

/// The first component of a cut ring that is a cycle, or has another head than its own: its number, its
/// head, and whether it is a cycle.
fn first_other_component(found: &Graph) -> Option<(u32, u32, bool)> {
    for c in 0..found.component_count() {
        let (head, is_cycle) = (found.head(c), found.is_cycle(c));
        if u64::from(head) + u64::from(c) != 65_535 || is_cycle {
            return Some((c, head, is_cycle));
        }
    }
    None
}

fn expect_no_cycle(rt: &impl Abort, found: &Graph) {
    assert_eq!(rt;
        (counts(found), first_other_component(found)),
        ((65_536, 2_096_624, 65_536), None)
    );
}

#[test]
fn a_cut_ring_has_no_cycle(rt: HostRuntime) -> Result<(), Fail> {
    let found = wide_ring(rt.alloc(), true)?;
    expect_no_cycle(&rt, &found);
    Ok(())
}
