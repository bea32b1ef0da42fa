//! The grains of a bucket.

ghost use Rattle.std.specs.Prelude.{◌≡◌, ℕ, ◌+◌, ◌-◌, ◌*◌, ◌/◌, ◌^◌, ◌<◌, ◌≤◌, ◌↔◌, IsTrue, length, slice_index};
ghost use Rattle.symbol_shares.specs.Parts.{IsInside};
ghost use Rattle.symbol_shares.specs.Shares.{bucket_begin as begin_of, place_in_bucket as place_in, share_of_bucket as share_of};
ghost use Rattle.symbol_shares.specs.Ranges.{grains_of_bucket as grains_of};

use elf32_syms::Symbol;
use gmon_data::Hist;
use gp_base::quotient;

/// Grains of a sample.
pub(crate) const GRAINS: u128 = 1_000_000;

/// The addresses of all buckets.
pub(crate) fn width(hist: &Hist) -> u32
    requires { hist.now.low < hist.now.high }
    ensures { result ≡ hist.now.high - hist.now.low }
{
    hist.high - hist.low
}

/// Where bucket `i` begins, in units of an address over the number of counters.
fn bucket_begin(hist: &Hist, i: usize) -> u64
    requires range { hist.now.low < hist.now.high }
    requires few { length hist.now.counters < 2 ^ 26 }
    requires inside { i < length hist.now.counters }
    ensures begin { result ≡ begin_of hist.now i }
    ensures within { result + (hist.now.high - hist.now.low) < 2 ^ 59 }
{
    let count = hist.counters.as_slice().len() as u64;
    u64::from(hist.low) * count + i as u64 * u64::from(width(hist))
}

/// How far an address lies in bucket `i`, in the same units.
fn place_in_bucket(hist: &Hist, i: usize, address: u32) -> u64
    requires range { hist.now.low < hist.now.high }
    requires few { length hist.now.counters < 2 ^ 26 }
    requires inside { i < length hist.now.counters }
    ensures place { result ≡ place_in hist.now i address }
    ensures within { result ≤ hist.now.high - hist.now.low }
{
    let place = u64::from(address) * hist.counters.as_slice().len() as u64;
    let above = place.saturating_sub(bucket_begin(hist, i));
    above.min(u64::from(width(hist)))
}

/// The grains of bucket `i` up to a place in it.
fn grains_up_to(hist: &Hist, i: usize, place: u64) -> u128
    requires range { hist.now.low < hist.now.high }
    requires inside { i < length hist.now.counters }
    requires place { place ≤ hist.now.high - hist.now.low }
    ensures { result ≡ slice_index hist.now.counters i * 1000000 * place
        / (hist.now.high - hist.now.low) }
{
    let grains = u128::from(hist.counters.as_slice()[i]) * GRAINS;
    let width = u64::from(width(hist));
    if place == width {
        return grains;
    }
    if place == 0 {
        return 0;
    }
    quotient(grains * u128::from(place), u128::from(width))
}

/// The grains of bucket `i` between two places in it.
#[tactic(auto, using(crate::proofs::BucketLemmas::quotients_rise))]
fn grains_between(hist: &Hist, i: usize, from: u64, to: u64) -> u128
    requires range { hist.now.low < hist.now.high }
    requires inside { i < length hist.now.counters }
    requires from { from ≤ to }
    requires to { to ≤ hist.now.high - hist.now.low }
    ensures { let grains = slice_index hist.now.counters i * 1000000 in
        result ≡ grains * to / (hist.now.high - hist.now.low)
        - grains * from / (hist.now.high - hist.now.low) }
{
    grains_up_to(hist, i, to) - grains_up_to(hist, i, from)
}

/// What the addresses from `low` to below `high` get of bucket `i`.
#[tactic(auto, unfolding(crate::specs::Shares::grains_up_to))]
pub(crate) fn grains_of_bucket(hist: &Hist, i: usize, low: u32, high: u32) -> u128
    requires range { hist.now.low < hist.now.high }
    requires few { length hist.now.counters < 2 ^ 26 }
    requires inside { i < length hist.now.counters }
    requires order { low ≤ high }
    ensures { result ≡ grains_of hist.now low high i }
{
    let from = place_in_bucket(hist, i, low);
    let to = place_in_bucket(hist, i, high);
    grains_between(hist, i, from, to)
}

/// What a symbol gets of bucket `i`.
pub(crate) fn share_of_bucket(hist: &Hist, i: usize, symbol: &Symbol) -> u128
    requires range { hist.now.low < hist.now.high }
    requires few { length hist.now.counters < 2 ^ 26 }
    requires inside { i < length hist.now.counters }
    requires symbol { symbol.now.addr < symbol.now.end }
    ensures { result ≡ share_of hist.now i symbol.now }
{
    grains_of_bucket(hist, i, symbol.addr, symbol.end)
}

/// Up to which bucket those from bucket `i` on lie in a symbol as a whole: `i` where that one doesn't.
pub(crate) fn end_of_whole(hist: &Hist, i: usize, symbol: &Symbol) -> usize
    requires range { hist.now.low < hist.now.high }
    requires few { length hist.now.counters < 2 ^ 26 }
    requires inside { i < length hist.now.counters }
    ensures rising { i ≤ result }
    ensures inside { result ≤ length hist.now.counters }
    ensures whole { (m : ℕ) → i ≤ m → m < result → IsInside hist.now m symbol.now }
{
    let count = hist.counters.as_slice().len() as u64;
    if bucket_begin(hist, i) < u64::from(symbol.addr) * count {
        return i;
    }
    let above = (u64::from(symbol.end) * count).saturating_sub(u64::from(hist.low) * count);
    let end = (above / u64::from(width(hist))).min(count) as usize;
    end.max(i)
}

/// Whether an address lies above the end of bucket `i`.
pub(crate) fn is_above(hist: &Hist, i: usize, address: u32) -> bool
    requires range { hist.now.low < hist.now.high }
    requires few { length hist.now.counters < 2 ^ 26 }
    requires inside { i < length hist.now.counters }
    ensures { IsTrue result ↔ begin_of hist.now (i + 1) < address * length hist.now.counters }
{
    let end = bucket_begin(hist, i) + u64::from(width(hist));
    end < u64::from(address) * hist.counters.as_slice().len() as u64
}
