//! The heads of components, and their levels.

ghost use Rattle.std.specs.Prelude.{◌≡◌, ◌≢◌, ◌<◌, ◌≤◌, ◌+◌, ◌^◌, max, ℕ, length, slice_index, IfOk};
ghost use Rattle.call_cycles.specs.Leaders.{AreRanks, IsRankOrder, IsLeast, AreLeast, AreLeaders, AreLevels, level_over};
ghost use Rattle.call_cycles.specs.Arcs.{AreWithin, AreByCaller};
ghost use Rattle.call_cycles.specs.Passes.{AreFirst};
ghost use Rattle.call_cycles.specs.Sums.{max_below};

use crate::depth::Ranking;
use crate::graphs::FunArc;
use std::alloc::{AllocError, Global};

/// The least function of each rank.
fn least_functions(alloc: Global, functions: u32, ranks: &[u32]) -> Result<Vec<u32>, AllocError>
    requires functions { length ranks.now ≡ functions }
    requires within { (f : ℕ) → f < functions → slice_index ranks.now f ≤ functions }
    ensures len { IfOk result (λ v. length v.items ≡ functions + 1) }
    ensures least { IfOk result (λ v. (f : ℕ) → f < functions
        → IsLeast functions ranks.now 0 f (slice_index v.items (slice_index ranks.now f))) }
{
    let mut least = vec![in alloc; 0u32; functions as usize + 1]?;
    for f in (0..functions).rev() {
        least[ranks[f as usize] as usize] = f;
    }
    Ok(least)
}

/// The least function of each function's rank.
pub(crate) fn leaders(alloc: Global, functions: u32, ranks: &[u32]) -> Result<Vec<u32>, AllocError>
    requires functions { length ranks.now ≡ functions }
    requires within { (f : ℕ) → f < functions → slice_index ranks.now f ≤ functions }
    ensures least { IfOk result (λ v. AreLeast functions ranks.now v.items) }
{
    let least = least_functions(alloc, functions, ranks)?;
    let mut leaders = Vec::new(alloc);
    for r in ranks {
        leaders.push(least[*r as usize])?;
    }
    Ok(leaders)
}

/// Raises the level of a function's component above those that the function calls.
#[tactic(auto, using(crate::proofs::LevelLemmas::none_before, crate::proofs::LevelLemmas::none_after))]
fn raise(arcs: &[FunArc], first: &[usize], leaders: &[u32], f: u32, levels: &mut [usize])
    requires function { f < length levels.old }
    requires leaders { length leaders.now ≡ length levels.old }
    requires led { (h : ℕ) → h < length levels.old → slice_index leaders.now h < length levels.old }
    requires within { AreWithin (length levels.old) arcs.now }
    requires ordered { AreByCaller arcs.now }
    requires first { AreFirst (length levels.old) arcs.now first.now }
    requires few { (h : ℕ) → slice_index levels.old h < 2 ^ 32 }
    ensures raised { slice_index levels.new (slice_index leaders.now f)
        ≡ max (slice_index levels.old (slice_index leaders.now f))
        (max_below (length arcs.now) (level_over arcs.now leaders.now f levels.old)) }
    ensures others { (h : ℕ) → h ≢ slice_index leaders.now f
        → slice_index levels.new h ≡ slice_index levels.old h }
{
    let c = leaders[f as usize] as usize;
    for i in first[f as usize]..arcs.len() {
        if arcs[i].caller != f {
            return;
        }
        let d = leaders[arcs[i].callee as usize] as usize;
        if d != c && levels[c] <= levels[d] {
            levels[c] = levels[d] + 1;
        }
    }
}

/// The level of each component, at its leader. Functions come in the order of their ranks, so the
/// levels of those that a component calls are known before its own.
pub(crate) fn levels(
    alloc: Global,
    arcs: &[FunArc],
    first: &[usize],
    leaders: &[u32],
    ranking: &Ranking,
) -> Result<Vec<usize>, AllocError>
    requires functions { length leaders.now < 2 ^ 32 }
    requires within { AreWithin (length leaders.now) arcs.now }
    requires ordered { AreByCaller arcs.now }
    requires first { AreFirst (length leaders.now) arcs.now first.now }
    requires leaders { AreLeaders (length leaders.now) arcs.now leaders.now }
    requires ranks { AreRanks (length leaders.now) arcs.now ranking.now.ranks.items }
    requires order { IsRankOrder (length leaders.now)
        ranking.now.ranks.items ranking.now.order.items }
    ensures levels { IfOk result (λ v. AreLevels (length leaders.now)
        arcs.now leaders.now v.items) }
{
    let mut levels = vec![in alloc; 0usize; leaders.len()]?;
    for f in &ranking.order {
        raise(arcs, first, leaders, *f, &mut levels);
    }
    Ok(levels)
}
