//! Kept histograms, in ascending order of their low addresses.

ghost use Rattle.std.specs.Prelude.{◌≡◌, ◌+◌, ◌^◌, ◌<◌, ◌≤◌, ℕ, true, false, nat_le, Some, length, slice_get, sum, OnOk, OnErr};
ghost use Rattle.std.specs.List.{AllByRecursion};
ghost use Rattle.std.specs.List.Sorted.{IsPartitionPoint};
ghost use Rattle.gmon_data.specs.declared.hist.Hist.{Hist as AnyHist};
ghost use Rattle.gmon_data.specs.Hists.{range_conflict, put_hist, place_of, samples_of, kept_unit, unit_conflict, unlike_of, conflict_with, IsKept, IsApart};

use crate::chunks::ChunkedList;
use crate::hist::{Hist, HistRange, with_counters_of};
use crate::refusal::Unlike;
use gp_base::Unit;
use std::alloc::AllocError;

/// How many kept histograms end at or below an address: they are the first ones.
pub(crate) fn count_ended(hists: &ChunkedList<Hist>, address: u32) -> usize
    requires kept { AllByRecursion IsKept hists.now }
    requires apart { IsApart hists.now }
    ensures inside { result ≤ length hists.now }
    ensures point { IsPartitionPoint (λ h. nat_le h.high address ≡ true)
        (λ h. nat_le h.high address ≡ false) hists.now result }
{
    hists.partition_point(|hist| hist.high <= address)
}

/// The lowest kept histogram that overlaps the new range and differs from it, beside that range. Only the
/// first one that ends above the new low address can be: of those behind it none overlaps where it is the
/// new range itself, and none where it lies above.
#[tactic(auto, using(crate::proofs::SearchLemmas::none_is_late))]
fn find_range_conflict(hists: &ChunkedList<Hist>, new: HistRange) -> Option<Unlike>
    requires counters { (i : ℕ) (k : AnyHist) → slice_get hists.now i ≡ Some k
        → length k.counters < 2 ^ 32 }
    requires kept { AllByRecursion IsKept hists.now }
    requires apart { IsApart hists.now }
    ensures { result ≡ range_conflict hists.now new }
{
    let i = count_ended(hists, new.low);
    if i >= hists.len() {
        return None;
    }
    let old = hists.get(i).range();
    if old.low < new.high && old != new {
        return Some(Unlike::Range { old, new });
    }
    None
}

/// The unit as it is kept: a rate of 0 stands for 100.
pub(crate) fn normal_unit(unit: Unit) -> Unit
    ensures { result ≡ kept_unit «unit» }
{
    if unit.rate == 0 {
        Unit { rate: 100, ..unit }
    } else {
        unit
    }
}

/// The kept unit, where it differs from the new one.
fn find_unit_conflict(kept: Option<Unit>, new: Unit) -> Option<Unlike>
    ensures { result ≡ unit_conflict kept new }
{
    let old = kept?;
    if old.rate != new.rate {
        return Some(Unlike::Rate {
            old: old.rate,
            new: new.rate,
        });
    }
    if old.dim != new.dim || old.abbrev != new.abbrev {
        return Some(Unlike::Dimension { old, new });
    }
    None
}

/// Why a histogram with counters can't be added to one other. Takes no memory.
pub fn unlike(old: HistRange, old_unit: Unit, new: HistRange, new_unit: Unit) -> Option<Unlike>
    ensures { result ≡ unlike_of old old_unit new new_unit }
{
    if old.low < new.high && new.low < old.high && old != new {
        return Some(Unlike::Range { old, new });
    }
    find_unit_conflict(Some(normal_unit(old_unit)), normal_unit(new_unit))
}

/// Why a histogram with counters can't be added to those that are kept.
pub(crate) fn conflict(
    hists: &ChunkedList<Hist>,
    kept: Option<Unit>,
    range: HistRange,
    unit: Unit,
) -> Option<Unlike>
    requires counters { (i : ℕ) (k : AnyHist) → slice_get hists.now i ≡ Some k
        → length k.counters < 2 ^ 32 }
    requires kept { AllByRecursion IsKept hists.now }
    requires apart { IsApart hists.now }
    ensures { result ≡ conflict_with hists.now kept range «unit» }
{
    match find_range_conflict(hists, range) {
        Some(unlike) => Some(unlike),
        None => find_unit_conflict(kept, unit),
    }
}

/// How many kept histograms lie lower.
fn place(hists: &ChunkedList<Hist>, low: u32) -> usize
    requires kept { AllByRecursion IsKept hists.now }
    requires apart { IsApart hists.now }
    ensures { result ≡ place_of low hists.now }
{
    hists.partition_point(|hist| hist.low < low)
}

/// Adds a histogram to the one with its low address, which has as many counters; else it takes its place.
pub(crate) fn put(hists: &mut ChunkedList<Hist>, new: Hist) -> Result<(), AllocError>
    requires kept { AllByRecursion IsKept hists.old }
    requires apart { IsApart hists.old }
    requires few { length hists.old + 1 < 2 ^ 64 }
    requires same { (i : ℕ) (k : AnyHist) → slice_get hists.old i ≡ Some k → k.low ≡ new.low
        → length k.counters ≡ length new.counters }
    requires fits { samples_of hists.old + sum new.counters < 2 ^ 64 }
    ensures added { OnOk result (hists.new ≡ put_hist new hists.old) }
    ensures unchanged { OnErr result (hists.new ≡ hists.old) }
{
    let i = place(hists, new.low);
    if i < hists.len() && hists.get(i).low == new.low {
        let sum = with_counters_of(hists.get(i), new);
        hists.set(i, sum);
    } else {
        hists.insert(i, new)?;
    }
    Ok(())
}
