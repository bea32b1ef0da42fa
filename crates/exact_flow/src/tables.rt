//! The tables by which exact times are found and kept.

ghost use Rattle.std.specs.Prelude.{◌≡◌, ◌<◌, ◌^◌, length, map, IfOk};
ghost use Rattle.std.specs.List.{All};
ghost use Rattle.call_cycles.specs.Sums.{list_of};
ghost use Rattle.call_cycles.specs.Graph.{arc_count, component_count, target_of, entering_of};
ghost use Rattle.symbol_shares.specs.Shares.{attributed_of};
ghost use Rattle.exact_flow.specs.Times.{outside_numbers};
ghost use Rattle.exact_flow.specs.Progress.{IsStart, outside_calls};

use crate::step::whole;
use call_cycles::Graph;
use fraction128::Frac;
use propagate::solve::{is_outside, outside_arcs, selves};
use std::alloc::{AllocError, Global};
use symbol_shares::Shares;

/// What an exact flow has, as long as not all child times are found.
#[derive(Drop)]
pub(crate) struct Tables {
    pub(crate) selves: Vec<u128>,
    pub(crate) children: Vec<Frac>,
    pub(crate) entering: Vec<u64>,
    pub(crate) calls: Vec<u64>,
    pub(crate) callees: Vec<u32>,
    pub(crate) outside: Vec<u32>,
}

/// The calls that enter each component from another one.
#[tactic(auto, using(crate::proofs::TableLemmas::listed))]
fn entering(alloc: Global, graph: &Graph) -> Result<Vec<u64>, AllocError>
    ensures { IfOk result (λ v. v.items ≡ list_of (component_count graph.now)
        (entering_of graph.now)) }
{
    let mut calls = Vec::with_capacity(alloc, graph.component_count() as usize)?;
    for c in 0..graph.component_count() {
        calls.push(graph.entering(c))?;
    }
    Ok(calls)
}

/// The calls of an arc, but none of an arc inside a cycle.
fn calls_of(graph: &Graph, i: usize) -> u64
    requires { i < arc_count graph.now }
    ensures { result ≡ outside_calls graph.now i }
{
    if is_outside(graph, i) {
        graph.arc(i).count
    } else {
        0
    }
}

/// The calls of each arc, but none of those inside a cycle.
#[tactic(auto, using(crate::proofs::TableLemmas::listed))]
fn calls(alloc: Global, graph: &Graph) -> Result<Vec<u64>, AllocError>
    ensures { IfOk result (λ v. v.items ≡ list_of (arc_count graph.now)
        (outside_calls graph.now)) }
{
    let mut calls = Vec::with_capacity(alloc, graph.arc_count())?;
    for i in 0..graph.arc_count() {
        calls.push(calls_of(graph, i))?;
    }
    Ok(calls)
}

/// The component of each arc's callee.
#[tactic(auto, using(crate::proofs::TableLemmas::listed))]
fn callees(alloc: Global, graph: &Graph) -> Result<Vec<u32>, AllocError>
    ensures { IfOk result (λ v. v.items ≡ list_of (arc_count graph.now) (target_of graph.now)) }
{
    let mut components = Vec::with_capacity(alloc, graph.arc_count())?;
    for i in 0..graph.arc_count() {
        components.push(graph.component(graph.arc(i).callee))?;
    }
    Ok(components)
}

/// The numbers of arcs that are given with the components that they leave.
fn numbers(alloc: Global, arcs: &[(u32, usize)]) -> Result<Vec<u32>, AllocError>
    requires { All (λ p. p.1 < 2 ^ 32) arcs.now }
    ensures { IfOk result (λ v. v.items ≡ map (λ p. p.1) arcs.now) }
{
    let mut numbers = Vec::with_capacity(alloc, arcs.len())?;
    for p in arcs {
        numbers.push(p.1 as u32)?;
    }
    Ok(numbers)
}

/// The numbers of the outside arcs, by the components that they leave.
fn outside(alloc: Global, graph: &Graph) -> Result<Vec<u32>, AllocError>
    requires { arc_count graph.now < 2 ^ 32 }
    ensures { IfOk result (λ v. v.items ≡ outside_numbers graph.now) }
{
    let arcs = outside_arcs(alloc, graph)?;
    numbers(alloc, arcs.as_slice())
}

/// The tables before any step is done: all child times are 0.
///
/// The outside arcs come first, since they take most memory while they are put in order.
#[tactic(auto, using(crate::proofs::TableLemmas::all_same))]
pub(crate) fn start(alloc: Global, graph: &Graph, shares: &Shares) -> Result<Tables, AllocError>
    requires each { length shares.now.of ≡ graph.now.functions }
    requires few { arc_count graph.now < 2 ^ 32 }
    ensures { IfOk result (IsStart graph.now shares.now.of) }
{
    shares.holds();
    let outside = outside(alloc, graph)?;
    Ok(Tables {
        selves: selves(alloc, graph, shares)?,
        children: vec![in alloc; whole(0); graph.component_count() as usize]?,
        entering: entering(alloc, graph)?,
        calls: calls(alloc, graph)?,
        callees: callees(alloc, graph)?,
        outside,
    })
}
