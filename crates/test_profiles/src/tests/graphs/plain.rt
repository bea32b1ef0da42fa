//! A small graph by a plain search from each function, to compare with.

ghost use Rattle.std.specs.Prelude.{◌<◌, ◌≤◌};

use std::alloc::{AllocError, Global};

/// A plain graph has so many functions at most.
pub(super) const MOST: usize = 12;

/// The calls from each function to each.
type Calls = [[u64; MOST]; MOST];

/// Which functions each one reaches.
type Reach = [[bool; MOST]; MOST];

/// The calls by caller and callee.
fn sums(calls: &[(u16, u16, u64)]) -> Calls {
    let mut sums = [[0u64; MOST]; MOST];
    for (caller, callee, count) in calls {
        let f = usize::from(*caller) % MOST;
        let g = usize::from(*callee) % MOST;
        sums[f][g] = sums[f][g].saturating_add(*count);
    }
    sums
}

/// Each function reaches itself and those that it calls.
fn reach_once(calls: &Calls) -> Reach {
    let mut reach = [[false; MOST]; MOST];
    for f in 0..MOST {
        for g in 0..MOST {
            reach[f][g] = f == g || calls[f][g] > 0;
        }
    }
    reach
}

/// What reaches a function reaches those that it reaches.
fn reach_over(reach: &mut Reach, k: usize)
    requires { k < 12 }
{
    for f in 0..MOST {
        for g in 0..MOST {
            if reach[f][k] && reach[k][g] {
                reach[f][g] = true;
            }
        }
    }
}

/// Which functions each one reaches over any arcs.
fn reach_all(calls: &Calls) -> Reach {
    let mut reach = reach_once(calls);
    for k in 0..MOST {
        reach_over(&mut reach, k);
    }
    reach
}

/// The least function that a function reaches and that reaches it.
fn leader(reach: &Reach, f: usize) -> usize
    requires { f < 12 }
    ensures { result < 12 }
{
    for g in 0..MOST {
        if reach[f][g] && reach[g][f] {
            return g;
        }
    }
    f
}

/// Raises the level of a caller's component above that of the callee's.
fn raise(reach: &Reach, levels: &mut [usize; MOST], caller: usize, callee: usize)
    requires caller { caller < 12 }
    requires callee { callee < 12 }
{
    let c = leader(reach, caller);
    let d = leader(reach, callee);
    if c != d {
        levels[c] = levels[c].max(levels[d].saturating_add(1));
    }
}

/// Raises levels over each arc once.
fn raise_all(calls: &Calls, reach: &Reach, levels: &mut [usize; MOST]) {
    for f in 0..MOST {
        for g in 0..MOST {
            if calls[f][g] > 0 {
                raise(reach, levels, f, g);
            }
        }
    }
}

/// The level of each component, at its least function.
fn levels(calls: &Calls, reach: &Reach) -> [usize; MOST] {
    let mut levels = [0usize; MOST];
    for _ in 0..MOST {
        raise_all(calls, reach, &mut levels);
    }
    levels
}

/// The calls that enter the component of a head.
fn entering(calls: &Calls, reach: &Reach, head: usize) -> u64 {
    let mut entering = 0u64;
    for f in 0..MOST {
        for g in 0..MOST {
            if leader(reach, g) == head && leader(reach, f) != head {
                entering = entering.saturating_add(calls[f][g]);
            }
        }
    }
    entering
}

/// The members of the component of a head, and how many there are.
fn members(
    alloc: Global,
    functions: usize,
    reach: &Reach,
    head: usize,
) -> Result<(String, usize), AllocError>
    requires { functions ≤ 12 }
{
    let mut text = String::new(alloc);
    let mut count = 0usize;
    for f in 0..functions {
        if leader(reach, f) == head {
            write!(&mut text, " {f}")?;
            count = count.saturating_add(1);
        }
    }
    Ok((text, count))
}

/// The components of one level, in the order of their heads.
fn components_text(
    alloc: Global,
    functions: usize,
    calls: &Calls,
    level: usize,
) -> Result<String, AllocError>
    requires { functions ≤ 12 }
{
    let reach = reach_all(calls);
    let levels = levels(calls, &reach);
    let mut text = String::new(alloc);
    for h in 0..functions {
        if leader(&reach, h) == h && levels[h] == level {
            let entering = entering(calls, &reach, h);
            let (members, count) = members(alloc, functions, &reach, h)?;
            let star = if count > 1 { "*" } else { "" };
            write!(&mut text, "{h}+{entering}{star} ={members}; ")?;
        }
    }
    Ok(text)
}

/// The calls of one function by each.
fn row_text(alloc: Global, functions: usize, calls: &Calls, f: usize) -> Result<String, AllocError>
    requires functions { functions ≤ 12 }
    requires row { f < 12 }
{
    let mut text = String::new(alloc);
    for g in 0..functions {
        let count = calls[f][g];
        if f != g && count > 0 {
            write!(&mut text, "{f}>{g}:{count} ")?;
        }
    }
    Ok(text)
}

/// All that a graph of so many functions tells.
pub(super) fn text(
    alloc: Global,
    functions: usize,
    calls: &[(u16, u16, u64)],
) -> Result<String, AllocError>
    requires { functions ≤ 12 }
{
    let calls = sums(calls);
    let mut arcs = String::new(alloc);
    let mut selves = String::new(alloc);
    for f in 0..functions {
        arcs.push_str(row_text(alloc, functions, &calls, f)?.as_str())?;
        let own = calls[f][f];
        if own > 0 {
            write!(&mut selves, "{f}:{own} ")?;
        }
    }
    let mut components = String::new(alloc);
    for level in 0..MOST {
        components.push_str(components_text(alloc, functions, &calls, level)?.as_str())?;
    }
    format!(in alloc; "{arcs}| {selves}| {components}")
}
