//! The calls of a profile by caller and callee.

ghost use Rattle.std.specs.Prelude.{◌≡◌, ◌↔◌, ◌<◌, ◌≤◌, ◌^◌, ◌+◌, ◌++◌, ◌∷◌, [], ℕ, List, length, take, slice_index, slice_index_or, IfOk, IsTrue, OnOk};
ghost use Rattle.std.specs.List.{All};
ghost use Rattle.std.specs.List.Sorted.{IsSorted};
ghost use Rattle.elf32_syms.specs.Owners.{IsAscending};
ghost use Rattle.call_cycles.specs.declared.graphs.FunArc.{FunArc as Arc};
ghost use Rattle.call_cycles.specs.Arcs.{IsArcBelow};
ghost use Rattle.call_cycles.specs.Graph.{no_arc};
ghost use Rattle.call_cycles.specs.Merging.{AreMerged, IsUpTo};
ghost use Rattle.call_cycles.specs.Calls.{HaveCalls, by_ends, calls_of, calls_in, calls_between, count_of, arcs_among};
ghost use Rattle.gmon_data.specs.Tally.{tally_total};

use crate::graphs::FunArc;
use crate::order::in_order;
use elf32_syms::pages::OwnerPages;
use elf32_syms::{Symbol, symbol_count};
use gmon_data::Profile;
use std::alloc::{AllocError, Global};

/// The calls that were found.
#[derive(Drop)]
pub(crate) struct Calls {
    /// Those from one function to another, in the order in which they were found.
    pub(crate) between: Vec<FunArc>,
    /// The calls of each function by itself.
    pub(crate) own: Vec<u64>,
    /// The function near which the next caller is looked for first.
    last_caller: u32,
}

/// Whether a function calls itself.
fn is_direct(caller: u32, callee: u32) -> bool
    ensures { IsTrue result ↔ (caller ≡ callee) }
{
    caller == callee
}

/// Adds calls to those of their functions: none where an address lies in no symbol.
fn add_arc(
    calls: &mut Calls,
    symbols: &[Symbol],
    pages: &OwnerPages,
    from: u32,
    to: u32,
    count: u64,
) -> Result<(), AllocError>
    requires ordered { IsAscending symbols.now }
    requires own { length calls.old.own.items ≡ length symbols.now }
    requires fits { (f : ℕ) → slice_index calls.old.own.items f + count < 2 ^ 64 }
    ensures added { OnOk result ((c : ℕ → ℕ → ℕ)
        → HaveCalls (length symbols.now) c calls.old.between.items calls.old.own.items
        → HaveCalls (length symbols.now)
        (λ f g. c f g + calls_of symbols.now ((from, to), count) f g)
        calls.new.between.items calls.new.own.items) }
    ensures few { OnOk result (count_of calls.new.between.items
        ≤ count_of calls.old.between.items + count) }
{
    if count == 0 {
        return Ok(());
    }
    let Some(caller) = pages.owner_near(symbols, calls.last_caller, from) else {
        return Ok(());
    };
    calls.last_caller = caller;
    let Some(callee) = pages.owner(symbols, to) else {
        return Ok(());
    };
    if is_direct(caller, callee) {
        calls.own[caller as usize] += count;
        return Ok(());
    }
    calls.between.push(FunArc {
        caller,
        callee,
        count,
    })?;
    Ok(())
}

/// The calls of a profile's arcs by functions.
pub(crate) fn found_calls(
    alloc: Global,
    profile: &Profile,
    symbols: &[Symbol],
) -> Result<Calls, AllocError>
    requires ordered { IsAscending symbols.now }
    ensures calls { IfOk result (λ c. HaveCalls (length symbols.now)
        (calls_between profile.now.arcs symbols.now) c.between.items c.own.items) }
    ensures few { IfOk result (λ c. count_of c.between.items ≤ tally_total profile.now.arcs) }
    ensures all { tally_total profile.now.arcs < 2 ^ 59 }
{
    let mut calls = Calls {
        between: Vec::with_capacity(alloc, profile.arc_count())?,
        own: vec![in alloc; 0u64; symbol_count(symbols) as usize]?,
        last_caller: 0,
    };
    let pages = OwnerPages::new(alloc, symbols)?;
    for i in 0..profile.arc_count() {
        let (from, to, count) = profile.arc(i);
        add_arc(&mut calls, symbols, &pages, from, to, count)?;
    }
    Ok(calls)
}

/// Puts an arc behind the first `n` of others, or adds its calls to those of the last of them, where
/// this one has the same caller and callee. How many arcs they are then.
fn merge_arc(arcs: &mut [FunArc], n: usize, a: FunArc) -> usize
    requires inside { n < length arcs.old }
    requires fits { (f g : ℕ) → calls_in (take n arcs.old) f g + a.count < 2 ^ 64 }
    ensures merged { (sorted : List Arc) → All (IsUpTo a.caller a.callee) sorted
        → AreMerged sorted (take n arcs.old) → AreMerged (sorted ++ a ∷ []) (take result arcs.new) }
    ensures rest { (k : ℕ) → n < k → slice_index_or arcs.new k no_arc
        ≡ slice_index_or arcs.old k no_arc }
    ensures few { result ≤ n + 1 }
{
    if n > 0 {
        let last = arcs[n - 1];
        if last.caller == a.caller && last.callee == a.callee {
            arcs[n - 1].count += a.count;
            return n;
        }
    }
    arcs[n] = a;
    n + 1
}

/// Makes neighbours of one caller and callee one arc. How many arcs there are then: the first ones.
fn merge_neighbours(arcs: &mut [FunArc]) -> usize
    requires sorted { IsSorted by_ends arcs.old }
    requires few { count_of arcs.old < 2 ^ 64 }
    ensures merged { AreMerged arcs.old (take result arcs.new) }
{
    let mut n = 0;
    for i in 0..arcs.len() {
        let a = arcs[i];
        n = merge_arc(arcs, n, a);
    }
    n
}

/// The arcs in order of caller, then callee, those of one caller and callee made one.
#[tactic(auto)]
pub(crate) fn merged(arcs: Vec<FunArc>) -> Vec<FunArc>
    requires few { count_of arcs.items < 2 ^ 64 }
    ensures merged { (n : ℕ) → All (IsArcBelow n) arcs.items
        → result.items ≡ arcs_among n (calls_in arcs.items) }
{
    let mut sorted = in_order(arcs);
    let count = merge_neighbours(&mut sorted);
    sorted.truncate(count);
    sorted
}
