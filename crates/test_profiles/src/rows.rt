//! Profiles of rows: of calls, and of all that a profile holds.

ghost use Rattle.std.specs.Prelude.{◌≡◌, IfOk, OnOk};
ghost use Rattle.gmon_data.specs.Content.{empty_content};
ghost use Rattle.test_profiles.specs.Rows.{HasRows, IsOneCounter};

use crate::boxes::boxed;
use gmon_data::{AddRefusal, Hist, Profile};
use gp_base::{Totals, Unit};
use std::alloc::{AllocError, Global};

/// Calls of one function by another: caller, callee and count, by the functions' numbers.
pub type Calls = (u16, u16, u64);

/// A profile, written down: histograms of one counter each and their unit, calls, executions.
#[derive(Clone, Copy)]
pub struct Rows<'a> {
    /// Low and high address, and samples.
    pub hists: &'a [(u32, u32, u64)],
    pub unit: Unit,
    /// Call site, callee and count.
    pub arcs: &'a [(u32, u32, u64)],
    /// Address and executions.
    pub blocks: &'a [(u32, u64)],
}

/// A profile that holds nothing.
pub fn new_profile(alloc: Global) -> Result<Box<Profile>, AllocError>
    ensures { IfOk result (λ profile. profile.value ≡ empty_content) }
{
    boxed(alloc, Profile::new(alloc))
}

/// A histogram of one counter.
fn one_counter(alloc: Global, row: (u32, u32, u64)) -> Result<Hist, AllocError>
    ensures { IfOk result (λ hist. IsOneCounter hist) }
{
    let mut counters = Totals::new(alloc);
    counters.push(row.2.min(2_147_483_647))?;
    Ok(Hist {
        low: row.0,
        high: row.1,
        counters,
    })
}

/// Adds histograms of one counter each. One that has no addresses is left out.
fn add_hists(
    alloc: Global,
    profile: &mut Profile,
    rows: &[(u32, u32, u64)],
    unit: Unit,
) -> Result<(), AddRefusal>
    requires { HasRows 0 0 0 profile.old }
    ensures { OnOk result (HasRows 2000 0 0 profile.new) }
{
    for row in &rows[..rows.len().min(2000)] {
        let hist = one_counter(alloc, *row)?;
        if hist.low < hist.high {
            profile.add_wide(&hist, unit)?;
        }
    }
    Ok(())
}

/// Adds arcs.
fn add_arcs(profile: &mut Profile, rows: &[(u32, u32, u64)]) -> Result<(), AllocError>
    requires { HasRows 2000 0 0 profile.old }
    ensures { OnOk result (HasRows 2000 2000 0 profile.new) }
{
    for (from, to, count) in &rows[..rows.len().min(2000)] {
        profile.add_calls(*from, *to, (*count).min(2_147_483_647))?;
    }
    Ok(())
}

/// Adds executions.
fn add_blocks(profile: &mut Profile, rows: &[(u32, u64)]) -> Result<(), AllocError>
    requires { HasRows 2000 2000 0 profile.old }
    ensures { OnOk result (HasRows 2000 2000 2000 profile.new) }
{
    for (addr, count) in &rows[..rows.len().min(2000)] {
        profile.add_runs(*addr, (*count).min(2_147_483_647))?;
    }
    Ok(())
}

/// Arcs: call site, callee and count. The first 2,000 rows are taken, of 2^31 - 1 calls each at most.
pub fn profile_of_arcs(
    alloc: Global,
    arcs: &[(u32, u32, u64)],
) -> Result<Box<Profile>, AllocError> {
    let mut profile = new_profile(alloc)?;
    add_arcs(&mut profile, arcs)?;
    Ok(profile)
}

/// The calls of functions of 16 addresses each. The first 2,000 rows are taken, of 2^31 - 1 calls each
/// at most.
pub fn profile_of_calls(alloc: Global, calls: &[Calls]) -> Result<Box<Profile>, AllocError> {
    let mut arcs = Vec::new(alloc);
    for (caller, callee, count) in calls {
        let from = 0x1_0004 + 16 * u32::from(*caller);
        let to = 0x1_0000 + 16 * u32::from(*callee);
        arcs.push((from, to, *count))?;
    }
    profile_of_arcs(alloc, arcs.as_slice())
}

/// One call of the first function by each of so many next ones.
pub fn calls_of_first(alloc: Global, callers: u16) -> Result<Box<Profile>, AllocError> {
    let mut calls = Vec::new(alloc);
    for caller in 1..=callers {
        calls.push((caller, 0, 1))?;
    }
    profile_of_calls(alloc, calls.as_slice())
}

/// Adds histograms, arcs and executions.
fn add_rows(alloc: Global, profile: &mut Profile, rows: Rows<'_>) -> Result<(), AddRefusal>
    requires { profile.old ≡ empty_content }
    ensures { OnOk result (HasRows 2000 2000 2000 profile.new) }
{
    add_hists(alloc, profile, rows.hists, rows.unit)?;
    add_arcs(profile, rows.arcs)?;
    add_blocks(profile, rows.blocks)?;
    Ok(())
}

/// The profile of rows: of the first 2,000 of each kind, of 2^31 - 1 samples, calls or executions each
/// at most. A histogram that has no addresses is left out.
pub fn profile_of_rows(alloc: Global, rows: Rows<'_>) -> Result<Box<Profile>, AddRefusal>
    ensures { IfOk result (λ profile. HasRows 2000 2000 2000 profile.value) }
{
    let mut profile = new_profile(alloc)?;
    add_rows(alloc, &mut profile, rows)?;
    Ok(profile)
}
