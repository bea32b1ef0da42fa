//! Components in one depth-first pass.
//!
//! A function is seen once, and each arc is followed once, or twice where its callee is seen over it.
//! The path has the functions that were seen and are in no component yet, in the order in which they
//! were seen. It is cut into parts, whose functions reach one another: a function that is seen begins a
//! part, and an arc back to the path makes one part of all those from its callee's on. Where all arcs of
//! the function that begins the last part are followed, this part is a component. So components come
//! after those that they call.

ghost use Rattle.std.specs.Prelude.{◌≡◌, ◌<◌, ◌≤◌, ◌+◌, ◌^◌, ◌++◌, ◌==◌, ◌&&◌, [], length, filter, nat_lt, nat_le, slice_index, IfOk, OnOk};
ghost use Rattle.std.specs.List.{All, AllPairs};
ghost use Rattle.call_cycles.specs.Leaders.{AreRanks, IsRankOrder};
ghost use Rattle.call_cycles.specs.Arcs.{AreWithin, AreByCaller};
ghost use Rattle.call_cycles.specs.Passes.{AreFirst, IsPass, IsNext, IsSeenOn, EndsIn, pass_of, start_of, with_seen, with_rank, with_component, CanLeave, left, caller_at};

use crate::graphs::FunArc;
use std::alloc::{AllocError, Global};

/// The first arc of each function. Where a function has no arc, it is the end of all arcs.
pub(crate) fn first_arcs(
    alloc: Global,
    functions: u32,
    arcs: &[FunArc],
) -> Result<Vec<usize>, AllocError>
    requires within { AreWithin functions arcs.now }
    requires ordered { AreByCaller arcs.now }
    ensures first { IfOk result (λ v. AreFirst functions arcs.now v.items) }
{
    let mut first = vec![in alloc; arcs.len(); functions as usize]?;
    for i in (0..arcs.len()).rev() {
        first[arcs[i].caller as usize] = i;
    }
    Ok(first)
}

/// Whether there is an arc with this number, and the function calls over it.
fn is_arc_of(arcs: &[FunArc], i: usize, f: u32) -> bool
    ensures { result ≡ (nat_lt i (length arcs.now) && caller_at arcs.now i == f) }
{
    i < arcs.len() && arcs[i].caller == f
}

/// What a pass has.
#[derive(Drop)]
struct Pass {
    /// The place of each function on the path, counted from 1; 0 for one that wasn't seen.
    places: Vec<u32>,
    /// The rank of each function that is in a component; 0 for the others.
    ranks: Vec<u32>,
    /// The arc of each function that is followed next.
    next: Vec<usize>,
    /// The functions that were seen and are in no component yet.
    path: Vec<u32>,
    /// The places at which parts of the path begin.
    parts: Vec<u32>,
    /// The functions whose arcs are being followed, each but the first called by the one before it.
    calls: Vec<u32>,
    /// The functions that are in components, in order of rank.
    order: Vec<u32>,
}

/// Puts a function that wasn't seen onto the path.
fn see(pass: &mut Pass, f: u32) -> Result<(), AllocError>
    requires within { f < length pass.old.places.items }
    requires few { length pass.old.path.items + 1 < 2 ^ 32 }
    ensures seen { OnOk result (pass_of pass.new ≡ with_seen (pass_of pass.old) f) }
{
    pass.path.push(f)?;
    let place = pass.path.len() as u32;
    pass.places[f as usize] = place;
    pass.parts.push(place)?;
    pass.calls.push(f)?;
    Ok(())
}

/// Makes one part of all parts that reach up to or beyond a place.
fn join(parts: &mut Vec<u32>, place: u32)
    requires rising { AllPairs (λ a b. a < b) parts.old.items }
    ensures joined { parts.new.items ≡ filter (λ b. nat_le b place) parts.old.items }
{
    while !parts.is_empty() && parts[parts.len() - 1] > place {
        parts.pop();
    }
}

/// Gives a rank to the functions of a component.
fn rank_all(
    functions: &[u32],
    rank: u32,
    ranks: &mut Vec<u32>,
    order: &mut Vec<u32>,
) -> Result<(), AllocError>
    requires within { All (λ f. f < length ranks.old.items) functions.now }
    ensures ranks { OnOk result (ranks.new.items ≡ with_rank ranks.old.items functions.now rank) }
    ensures order { OnOk result (order.new.items ≡ order.old.items ++ functions.now) }
{
    for f in functions {
        ranks[*f as usize] = rank;
        order.push(*f)?;
    }
    Ok(())
}

/// Makes a component of the functions that the path has from a place on, counted from 0.
fn complete(pass: &mut Pass, from: usize) -> Result<(), AllocError>
    requires inside { from ≤ length pass.old.path.items }
    requires within { All (λ f. f < length pass.old.ranks.items) pass.old.path.items }
    requires few { length pass.old.order.items + length pass.old.path.items < 2 ^ 32 }
    ensures completed { OnOk result (pass_of pass.new ≡ with_component (pass_of pass.old) from) }
{
    let component = pass.path.split_at(from).1;
    let rank = pass.order.len() + component.len();
    rank_all(component, rank as u32, &mut pass.ranks, &mut pass.order)?;
    pass.path.truncate(from);
    pass.parts.pop();
    Ok(())
}

/// Follows an arc of the function whose arcs are being followed: sees its callee, or joins parts where
/// the callee is on the path. An arc over which a function is seen is followed once more when the arcs
/// of that function are.
fn follow(pass: &mut Pass, arcs: &[FunArc], i: usize) -> Result<(), AllocError>
    requires arc { i < length arcs.now }
    requires functions { length pass.old.places.items < 2 ^ 32 }
    requires within { AreWithin (length pass.old.places.items) arcs.now }
    requires pass { IsPass (length pass.old.places.items) arcs.now (pass_of pass.old) }
    requires last { EndsIn pass.old.calls.items (caller_at arcs.now i) }
    requires next { slice_index pass.old.next.items (caller_at arcs.now i) ≡ i }
    ensures step { OnOk result (IsNext (length pass.old.places.items) arcs.now
        (pass_of pass.old) (pass_of pass.new)) }
{
    let FunArc { caller, callee, .. } = arcs[i];
    let place = pass.places[callee as usize];
    if place == 0 {
        return see(pass, callee);
    }
    if pass.ranks[callee as usize] == 0 {
        join(&mut pass.parts, place);
    }
    pass.next[caller as usize] = i + 1;
    Ok(())
}

/// Leaves a function whose arcs are all followed. If the last part of the path begins with it, this part
/// is a component.
fn leave(pass: &mut Pass, f: u32) -> Result<(), AllocError>
    requires ready { CanLeave (pass_of pass.old) f }
    ensures left { OnOk result (pass_of pass.new ≡ left (pass_of pass.old) f) }
{
    pass.calls.pop();
    let place = pass.places[f as usize];
    if pass.parts[pass.parts.len() - 1] == place {
        complete(pass, place as usize - 1)?;
    }
    Ok(())
}

/// Goes on until no function has arcs to be followed.
#[tactic(auto, using(crate::proofs::PassLemmas::last_of))]
fn run(pass: &mut Pass, arcs: &[FunArc]) -> Result<(), AllocError>
    requires functions { length pass.old.places.items < 2 ^ 32 }
    requires within { AreWithin (length pass.old.places.items) arcs.now }
    requires ordered { AreByCaller arcs.now }
    requires pass { IsPass (length pass.old.places.items) arcs.now (pass_of pass.old) }
    ensures pass { OnOk result (IsPass (length pass.old.places.items) arcs.now (pass_of pass.new)) }
    ensures seen { OnOk result (IsSeenOn (pass_of pass.old) (pass_of pass.new)) }
    ensures ended { OnOk result (pass.new.calls.items ≡ []) }
{
    while let Some(f) = pass.calls.last().copied() {
        let i = pass.next[f as usize];
        if is_arc_of(arcs, i, f) {
            follow(pass, arcs, i)?;
        } else {
            leave(pass, f)?;
        }
    }
    Ok(())
}

/// A pass that has seen no function.
fn new_pass(alloc: Global, functions: u32, first: &[usize]) -> Result<Pass, AllocError>
    requires first { length first.now ≡ functions }
    ensures unseen { IfOk result (λ p. pass_of p ≡ start_of functions first.now) }
{
    Ok(Pass {
        places: vec![in alloc; 0u32; functions as usize]?,
        ranks: vec![in alloc; 0u32; functions as usize]?,
        next: first.to_vec(alloc)?,
        path: Vec::new(alloc),
        parts: Vec::new(alloc),
        calls: Vec::new(alloc),
        order: Vec::new(alloc),
    })
}

/// The rank of each function: how many functions are in components that come no later than its own. And
/// the functions in the order of their ranks.
#[derive(Drop)]
pub(crate) struct Ranking {
    pub(crate) ranks: Vec<u32>,
    pub(crate) order: Vec<u32>,
}

/// Functions that reach one another have one rank, and those that they call have a lesser one.
///
/// The pass begins anew at each function that wasn't seen. The time grows as the functions and arcs.
pub(crate) fn rank_functions(
    alloc: Global,
    functions: u32,
    arcs: &[FunArc],
    first: &[usize],
) -> Result<Ranking, AllocError>
    requires within { AreWithin functions arcs.now }
    requires ordered { AreByCaller arcs.now }
    requires first { AreFirst functions arcs.now first.now }
    ensures ranks { IfOk result (λ r. AreRanks functions arcs.now r.ranks.items) }
    ensures order { IfOk result (λ r. IsRankOrder functions r.ranks.items r.order.items) }
{
    let mut pass = new_pass(alloc, functions, first)?;
    for f in 0..functions {
        if pass.places[f as usize] == 0 {
            see(&mut pass, f)?;
            run(&mut pass, arcs)?;
        }
    }
    Ok(Ranking {
        ranks: pass.ranks,
        order: pass.order,
    })
}
