//! A histogram whose counters can hold the sum of many.

ghost use Rattle.std.specs.Prelude.{◌≡◌, ◌+◌, ◌^◌, ◌<◌, length, sum, IfOk};
ghost use Rattle.gmon_data.specs.Content.{hist_over};
ghost use Rattle.gmon_data.specs.Hists.{hist_sum, range_of, pointwise_sum, samples_of};

use crate::chunks::ChunkedList;
use gp_base::Totals;
use std::alloc::{AllocError, Global};

/// A histogram: `counters` share the addresses from `low` to below `high` evenly.
#[derive(Drop)]
pub struct Hist {
    pub low: u32,
    pub high: u32,
    pub counters: Totals,
}

/// The addresses that so many counters share.
#[derive(Clone, Copy, Debug, PartialEq, Eq)]
pub struct HistRange {
    pub low: u32,
    pub high: u32,
    pub count: u32,
}

impl Hist {
    /// What the counters share.
    pub fn range(&self) -> HistRange
        requires { length self.now.counters < 2 ^ 32 }
        ensures { result ≡ range_of self.now }
    {
        HistRange {
            low: self.low,
            high: self.high,
            count: self.counters.as_slice().len() as u32,
        }
    }

    /// A histogram of the same numbers.
    pub(crate) fn try_clone(&self) -> Result<Hist, AllocError>
        ensures { IfOk result (λ h. h ≡ self.now) }
    {
        Ok(Hist {
            low: self.low,
            high: self.high,
            counters: self.counters.clone()?,
        })
    }
}

/// Adds counters to as many others.
pub(crate) fn add_counters(counters: &mut Totals, more: &[u64])
    requires same { length counters.old ≡ length more.now }
    requires fits { sum counters.old + sum more.now < 2 ^ 64 }
    ensures { counters.new ≡ pointwise_sum counters.old more.now }
{
    for i in 0..more.len() {
        let total = counters.as_slice()[i] + more[i];
        counters.set(i, total);
    }
}

/// A histogram with the counters of another one of as many added.
pub(crate) fn with_counters_of(old: &Hist, new: Hist) -> Hist
    requires same { length old.now.counters ≡ length new.counters }
    requires fits { sum old.now.counters + sum new.counters < 2 ^ 64 }
    ensures { result ≡ hist_sum old.now new }
{
    let mut counters = new.counters;
    add_counters(&mut counters, old.counters.as_slice());
    Hist {
        low: old.low,
        high: old.high,
        counters,
    }
}

/// Histograms of the same numbers.
pub(crate) fn clone_hists(
    alloc: Global,
    hists: &ChunkedList<Hist>,
) -> Result<ChunkedList<Hist>, AllocError>
    ensures { IfOk result (λ copies. copies ≡ hists.now) }
{
    let mut copies = ChunkedList::new(alloc);
    for i in 0..hists.len() {
        copies.insert(i, hists.get(i).try_clone()?)?;
    }
    Ok(copies)
}

/// The histogram of a file's counters, with counters that can hold the sum of many.
pub(crate) fn widened(
    alloc: Global,
    low: u32,
    high: u32,
    counters: &[u16],
) -> Result<Hist, AllocError>
    ensures { IfOk result (λ hist. hist ≡ hist_over low high counters.now) }
{
    let counters: Vec<u64> = counters.iter().map(|n| u64::from(*n)).collect(alloc)?;
    Ok(Hist {
        low,
        high,
        counters: Totals::from(counters),
    })
}

/// The sum of counters.
fn total(counters: &[u64]) -> u64
    requires { sum counters.now < 2 ^ 64 }
    ensures { result ≡ sum counters.now }
{
    counters.iter().sum()
}

/// The samples of histograms.
pub(crate) fn samples(hists: &ChunkedList<Hist>) -> u64
    requires { samples_of hists.now < 2 ^ 64 }
    ensures { result ≡ samples_of hists.now }
{
    let mut samples = 0;
    for i in 0..hists.len() {
        samples += total(hists.get(i).counters.as_slice());
    }
    samples
}
