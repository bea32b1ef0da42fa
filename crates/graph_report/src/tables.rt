//! What is found out of a graph before the first line.

ghost use Rattle.std.specs.Prelude.{◌≡◌, ◌^◌, ◌<◌, IfOk};
ghost use Rattle.call_cycles.specs.Graph.{IsGraph, all_calls, arc_count};
ghost use Rattle.call_cycles.specs.Sums.{list_of};
ghost use Rattle.graph_report.specs.Tables.{AreTables};
ghost use Rattle.graph_report.specs.Groups.{AreGroups, arc_key, calls_with, places_with};

use crate::arc_key::{ArcKey, components, keys};
use crate::cycles::{cycle_names, cycle_numbers};
use crate::groups::{Groups, call_sums, grouped, starts};
use call_cycles::Graph;
use std::alloc::{AllocError, Global};

/// The arcs, functions and calls of a graph, by functions and by components.
#[derive(Drop)]
pub(crate) struct Tables {
    /// The arcs to each function.
    pub arcs_to: Groups,
    /// Where the arcs from each function begin, and where those from the last one end: they stand one function's
    /// behind the other's.
    pub arcs_from: Vec<usize>,
    /// The outside arcs into each cycle, by its component.
    pub arcs_into: Groups,
    /// The members of each component.
    pub members: Groups,
    /// The calls of each function by others.
    pub calls_to: Vec<u64>,
    /// The calls of others by each function.
    pub calls_from: Vec<u64>,
    /// The calls between different members of each component.
    pub calls_inside: Vec<u64>,
    /// The number of each cycle, by its component.
    pub cycle_numbers: Vec<u32>,
    /// The name of each cycle, by its component.
    pub cycle_names: Vec<Vec<u8>>,
}

/// The arcs with each key below `count`, and their calls.
#[tactic(auto, using(call_cycles::proofs::ListLemmas::list_long))]
fn arcs_and_calls(
    alloc: Global,
    graph: &Graph,
    count: usize,
    key: ArcKey,
) -> Result<(Groups, Vec<u64>), AllocError>
    requires { all_calls graph.now < 2 ^ 59 }
    ensures arcs { IfOk result (λ p. AreGroups count
        (places_with (list_of (arc_count graph.now) (arc_key graph.now key))) p.0) }
    ensures calls { IfOk result (λ p. p.1.items
        ≡ list_of count (calls_with graph.now
        (list_of (arc_count graph.now) (arc_key graph.now key)))) }
{
    let keys = keys(alloc, graph, key)?;
    let arcs = grouped(alloc, count, &keys)?;
    let calls = call_sums(alloc, graph, count, &keys)?;
    Ok((arcs, calls))
}

impl Tables {
    /// The tables of a graph.
    pub(crate) fn new(alloc: Global, graph: &Graph) -> Result<Self, AllocError>
        requires { all_calls graph.now < 2 ^ 59 }
        ensures tables { IfOk result (AreTables graph.now) }
        ensures graph { IsGraph graph.now }
    {
        let functions = graph.function_count() as usize;
        let count = graph.component_count() as usize;
        let numbers = cycle_numbers(alloc, graph)?;
        let names = cycle_names(alloc, graph, &numbers)?;
        let (arcs_to, calls_to) = arcs_and_calls(alloc, graph, functions, ArcKey::Callee)?;
        let callers = keys(alloc, graph, ArcKey::Caller)?;
        let arcs_from = starts(alloc, functions, &callers)?;
        let calls_from = call_sums(alloc, graph, functions, &callers)?;
        let arcs_into = grouped(alloc, count, &keys(alloc, graph, ArcKey::Entered)?)?;
        let members = grouped(alloc, count, &components(alloc, graph)?)?;
        let calls_inside = call_sums(alloc, graph, count, &keys(alloc, graph, ArcKey::Inner)?)?;
        Ok(Tables {
            arcs_to,
            arcs_from,
            arcs_into,
            members,
            calls_to,
            calls_from,
            calls_inside,
            cycle_numbers: numbers,
            cycle_names: names,
        })
    }
}
