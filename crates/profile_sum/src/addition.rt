//! A profile, added to another.

ghost use Rattle.std.specs.Prelude.{◌≡◌, map, Some, None, IfOk, IfErr, OnOk, OnErr};
ghost use Rattle.gmon_data.specs.Content.{IsProfile, IsStopped, IsWithin, conflict_of, with_records};
ghost use Rattle.gmon_data.specs.Hists.{IsUnlike};
ghost use Rattle.gmon_data.specs.declared.refusal.AddRefusal.TheVariants.{OutOfMemory};
ghost use Rattle.profile_sum.specs.Sum.{arc_record, block_record, clash_of, hist_record, hist_records, sum_of, IsClash};

use crate::refusal::SumRefusal;
use gmon_data::{AddRefusal, Profile, Unlike};
use gp_base::Unit;
use std::alloc::AllocError;

/// Adds a profile to a total: the pointwise sum. Histograms stand in ascending order of their low
/// addresses; new arcs and new block addresses follow the old ones in the order of `more`; the unit is
/// that of `total`, or that of `more` where `total` has none.
///
/// Refusals: `Unlike` for the first histogram of `more` that `Profile::add_wide` refuses, each tried on
/// `total` alone; memory runs out only where there is none. After a refusal `total` is unchanged. Where
/// there is no `Unlike`, the sum must be within the limits of a profile.
pub fn add_all(total: &mut Profile, more: &Profile) -> Result<(), SumRefusal>
    requires within { clash_of total.old more.now ≡ None → IsWithin (sum_of total.old more.now) }
    ensures refusal { IfErr result (λ refusal. IsClash refusal (clash_of total.old more.now)) }
    ensures accepted { OnOk result (clash_of total.old more.now ≡ None) }
    ensures added { OnOk result (total.new ≡ sum_of total.old more.now) }
    ensures unchanged { OnErr result (total.new ≡ total.old) }
{
    refuse_clash(total, more)?;
    let mut sum = total.try_clone()?;
    add_parts(&mut sum, more)?;
    *total = sum;
    Ok(())
}

/// Adds a profile to a total, as `add_all` does. The total goes into the sum, of which no copy is made; after
/// a refusal it is gone.
pub fn add_into(total: Profile, more: &Profile) -> Result<Profile, SumRefusal>
    requires within { clash_of total more.now ≡ None → IsWithin (sum_of total more.now) }
    ensures refusal { IfErr result (λ refusal. IsClash refusal (clash_of total more.now)) }
    ensures accepted { OnOk result (clash_of total more.now ≡ None) }
    ensures added { IfOk result (λ sum. sum ≡ sum_of total more.now) }
{
    let mut sum = total;
    match add_checked(&mut sum, more) {
        Ok(()) => Ok(sum),
        Err(refusal) => Err(refusal),
    }
}

/// Adds a profile to a total that is let go after a refusal.
fn add_checked(total: &mut Profile, more: &Profile) -> Result<(), SumRefusal>
    requires within { clash_of total.old more.now ≡ None → IsWithin (sum_of total.old more.now) }
    ensures refusal { IfErr result (λ refusal. IsClash refusal (clash_of total.old more.now)) }
    ensures accepted { OnOk result (clash_of total.old more.now ≡ None) }
    ensures added { OnOk result (total.new ≡ sum_of total.old more.now) }
{
    refuse_clash(total, more)?;
    add_parts(total, more)
}

/// Refuses a profile with a histogram that can't be added to the total alone.
fn refuse_clash(total: &Profile, more: &Profile) -> Result<(), SumRefusal>
    ensures refusal { IfErr result (λ refusal. IsClash refusal (clash_of total.now more.now)) }
    ensures accepted { OnOk result (clash_of total.now more.now ≡ None) }
{
    more.holds();
    if let Some(unlike) = find_clash(total, more) {
        return Err(SumRefusal::Unlike(unlike));
    }
    Ok(())
}

/// Adds the histograms, the calls and the executions of a profile without clash. After want of memory some
/// first ones are added.
fn add_parts(total: &mut Profile, more: &Profile) -> Result<(), SumRefusal>
    requires accepted { clash_of total.old more.now ≡ None }
    requires within { IsWithin (sum_of total.old more.now) }
    ensures refusal { IfErr result (λ refusal. IsClash refusal (clash_of total.old more.now)) }
    ensures added { OnOk result (total.new ≡ sum_of total.old more.now) }
{
    total.holds();
    more.holds();
    total.expect_profile(more);
    add_hists(total, more)?;
    add_arcs(total, more)?;
    add_blocks(total, more)?;
    Ok(())
}

/// Why the first histogram that can't be added to the total alone can't be, if there is one.
fn find_clash(total: &Profile, more: &Profile) -> Option<Unlike>
    requires { IsProfile more.now }
    ensures { result ≡ clash_of total.now more.now }
{
    let unit = more.unit()?;
    for i in 0..more.hist_count() {
        let clash = total.conflict(more.hist(i).range(), unit);
        if clash.is_some() {
            return clash;
        }
    }
    None
}

/// Adds the histograms. After a refusal some first ones are added.
pub fn add_hists(total: &mut Profile, more: &Profile) -> Result<(), AddRefusal>
    requires total { IsProfile total.old }
    requires more { IsProfile more.now }
    requires within { IsWithin (with_records (hist_records more.now) total.old) }
    ensures refusal { IfErr result (λ refusal. IsUnlike refusal (clash_of total.old more.now)) }
    ensures accepted { OnOk result (clash_of total.old more.now ≡ None) }
    ensures added { OnOk result (total.new ≡ with_records (hist_records more.now) total.old) }
    ensures stopped { IfErr result (λ refusal. IsStopped refusal (hist_records more.now) total.old
        total.new) }
{
    match more.unit() {
        Some(unit) => add_hists_of(total, more, unit),
        None => Ok(()),
    }
}

/// Adds the histograms, which are of one unit. After a refusal those before the refused one are added.
fn add_hists_of(total: &mut Profile, more: &Profile, unit: Unit) -> Result<(), AddRefusal>
    requires more { IsProfile more.now }
    requires within { IsWithin (with_records (map (hist_record «unit») more.now.hists) total.old) }
    ensures refusal { IfErr result (λ refusal. IsUnlike refusal
        (conflict_of total.old (map (hist_record «unit») more.now.hists))) }
    ensures accepted { OnOk result (conflict_of total.old (map (hist_record «unit») more.now.hists)
        ≡ None) }
    ensures added { OnOk result (total.new
        ≡ with_records (map (hist_record «unit») more.now.hists) total.old) }
    ensures stopped { IfErr result (λ refusal. IsStopped refusal
        (map (hist_record «unit») more.now.hists) total.old total.new) }
{
    for i in 0..more.hist_count() {
        total.add_wide(more.hist(i), unit)?;
    }
    Ok(())
}

/// Adds the calls of each pair. After want of memory those of some first pairs are added.
fn add_arcs(total: &mut Profile, more: &Profile) -> Result<(), AllocError>
    requires { IsWithin (with_records (map arc_record more.now.arcs) total.old) }
    ensures added { OnOk result (total.new
        ≡ with_records (map arc_record more.now.arcs) total.old) }
    ensures stopped { OnErr result (IsStopped OutOfMemory (map arc_record more.now.arcs) total.old
        total.new) }
{
    for i in 0..more.arc_count() {
        let (from, to, count) = more.arc(i);
        total.add_calls(from, to, count)?;
    }
    Ok(())
}

/// Adds the executions of each block address. After want of memory those of some first ones are added.
pub fn add_blocks(total: &mut Profile, more: &Profile) -> Result<(), AllocError>
    requires { IsWithin (with_records (map block_record more.now.blocks) total.old) }
    ensures added { OnOk result (total.new
        ≡ with_records (map block_record more.now.blocks) total.old) }
    ensures stopped { OnErr result (IsStopped OutOfMemory (map block_record more.now.blocks)
        total.old total.new) }
{
    for i in 0..more.block_count() {
        let (addr, count) = more.block(i);
        total.add_runs(addr, count)?;
    }
    Ok(())
}
