//! The graph of a profile.

ghost use Rattle.std.specs.Prelude.{◌≡◌, ◌<◌, ◌≤◌, ◌^◌, ◌+◌, ℕ, List, length, slice_index, IfOk};
ghost use Rattle.elf32_syms.specs.Owners.{IsAscending};
ghost use Rattle.call_cycles.specs.Calls.{function_arcs, own_calls};
ghost use Rattle.call_cycles.specs.Graph.{IsGraph, AreComponents, all_calls, entering_of};
ghost use Rattle.call_cycles.specs.Arcs.{AreByCaller, AreInOrder, AreWithin};
ghost use Rattle.call_cycles.specs.Parts.{headless_graph, graph_of_parts, AreCalled, arcs_calls};
ghost use Rattle.call_cycles.specs.Sums.{list_of, sum_below};
ghost use Rattle.call_cycles.specs.Values.{profile_graph};

use crate::graphs::{FunArc, Graph};
use crate::{calls, depth, level, number};
use elf32_syms::{Symbol, symbol_count};
use gmon_data::Profile;
use std::alloc::{AllocError, Global};

/// The calls of outside arcs that enter each component.
fn entering(
    alloc: Global,
    component: &[u32],
    count: usize,
    arcs: &[FunArc],
) -> Result<Vec<u64>, AllocError>
    requires within { AreWithin (length component.now) arcs.now }
    requires components { (f : ℕ) → f < length component.now → slice_index component.now f < count }
    requires few { arcs_calls arcs.now < 2 ^ 59 }
    ensures each { IfOk result (λ v. v.items ≡ list_of count
        (entering_of (headless_graph component.now arcs.now))) }
{
    let mut calls = vec![in alloc; 0u64; count]?;
    for a in arcs {
        let c = component[a.caller as usize] as usize;
        let d = component[a.callee as usize] as usize;
        if c != d {
            calls[d] += a.count;
        }
    }
    Ok(calls)
}

/// The component of each function, and the head of each component.
#[derive(Drop)]
struct Found {
    component: Vec<u32>,
    heads: Vec<u32>,
}

/// The components in their order.
fn found_components(alloc: Global, functions: u32, arcs: &[FunArc]) -> Result<Found, AllocError>
    requires within { AreWithin functions arcs.now }
    requires ordered { AreByCaller arcs.now }
    ensures components { IfOk result (λ f. (self_calls : List ℕ)
        → AreComponents (graph_of_parts functions arcs.now self_calls
        f.component.items f.heads.items)) }
    ensures few { IfOk result (λ f. length f.heads.items ≤ functions) }
{
    let first = depth::first_arcs(alloc, functions, arcs)?;
    let ranking = depth::rank_functions(alloc, functions, arcs, &first)?;
    let leaders = level::leaders(alloc, functions, &ranking.ranks)?;
    let levels = level::levels(alloc, arcs, &first, &leaders, &ranking)?;
    let order = number::heads_in_order(alloc, &leaders, &levels)?;
    let places = number::places(alloc, functions as usize, &order)?;
    let component = number::components(alloc, &leaders, &places)?;
    let heads = number::heads(alloc, &order)?;
    Ok(Found { component, heads })
}

/// The graph of functions, their arcs and the calls of each by itself.
fn graph_of(
    alloc: Global,
    functions: u32,
    arcs: Vec<FunArc>,
    self_calls: Vec<u64>,
) -> Result<Graph, AllocError>
    requires within { AreWithin functions arcs.items }
    requires ordered { AreInOrder arcs.items }
    requires called { AreCalled arcs.items }
    requires few { arcs_calls arcs.items < 2 ^ 59 }
    requires self_calls { length self_calls.items ≡ functions }
    ensures functions { IfOk result (λ g. g.functions ≡ functions) }
    ensures arcs { IfOk result (λ g. g.arcs ≡ arcs.items) }
    ensures self_calls { IfOk result (λ g. g.self_calls ≡ self_calls.items) }
    ensures components { IfOk result IsGraph }
    ensures calls { IfOk result (λ g. all_calls g ≡ arcs_calls arcs.items
        + sum_below functions (slice_index self_calls.items)) }
{
    let found = found_components(alloc, functions, &arcs)?;
    let entering = entering(alloc, &found.component, found.heads.len(), &arcs)?;
    let members = number::member_counts(alloc, &found.component, found.heads.len())?;
    Ok(Graph {
        functions,
        arcs,
        self_calls,
        component: found.component,
        heads: found.heads,
        members,
        entering,
    })
}

/// The graph of the functions that symbols name and of a profile's calls between them.
///
/// An arc of the profile whose call site or callee lies in no symbol, or whose count is 0, is left
/// out. The others are summed by function pair: that in which the call site lies, and that in which
/// the callee lies. Calls of a function to itself are its self calls and no arc. Arcs are in order of
/// caller, then callee.
///
/// The level of a component that no arc leaves is 0, that of any other one more than the highest level
/// that it calls. Components are numbered by level, those of one level by their heads.
///
/// The time grows as the functions and arcs, but for a sort of the heads, and for the profile's arcs,
/// whose addresses are looked up among the symbols, and which are sorted by function pair. The memory
/// grows as the functions and the profile's arcs.
pub fn graph(alloc: Global, profile: &Profile, symbols: &[Symbol]) -> Result<Graph, AllocError>
    requires ordered { IsAscending symbols.now }
    ensures functions { IfOk result (λ g. g.functions ≡ length symbols.now) }
    ensures arcs { IfOk result (λ g. g.arcs ≡ function_arcs profile.now.arcs symbols.now) }
    ensures self_calls { IfOk result (λ g. g.self_calls ≡ own_calls profile.now.arcs symbols.now) }
    ensures components { IfOk result IsGraph }
    ensures few { IfOk result (λ g. all_calls g < 2 ^ 59) }
    ensures value { IfOk result (λ g. g ≡ profile_graph profile.now.arcs symbols.now) }
{
    let found = calls::found_calls(alloc, profile, symbols)?;
    let functions = symbol_count(symbols);
    let arcs = calls::merged(found.between);
    graph_of(alloc, functions, arcs, found.own)
}
