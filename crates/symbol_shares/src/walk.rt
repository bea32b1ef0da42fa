//! One walk over the buckets of all histograms, and over the symbols beside them.

ghost use Rattle.std.specs.Prelude.{◌≡◌, ◌+◌, ◌*◌, ◌^◌, ◌<◌, ◌≤◌, length, drop, map, sum, slice_get, slice_index, take, Some, IfOk};
ghost use Rattle.std.specs.List.{All};
ghost use Rattle.elf32_syms.specs.declared.image.Symbol.{Symbol as AnySymbol};
ghost use Rattle.elf32_syms.specs.Owners.{IsAscending};
ghost use Rattle.gmon_data.specs.Content.{IsProfile};
ghost use Rattle.gmon_data.specs.Hists.{IsKept, pointwise_sum, samples_of};
ghost use Rattle.symbol_shares.specs.Shares.{attributed_of, bucket_begin, share_between, share_in_hist, share_of_bucket as bucket_share_of, shares_of};

use crate::bucket::{GRAINS, end_of_whole, is_above, share_of_bucket};
use crate::table::Shares;
use elf32_syms::{Symbol, symbol_count};
use gmon_data::{Hist, Profile};
use std::alloc::{AllocError, Global};

/// Adds what each symbol gets of bucket `i`, where the first `from` symbols end at or below its
/// begin. Answers how many symbols have ended at its end: the next one, if there is one, goes on.
fn add_bucket(of: &mut [u128], symbols: &[Symbol], from: usize, hist: &Hist, i: usize) -> usize
    requires same { length of.old ≡ length symbols.now }
    requires ascending { IsAscending symbols.now }
    requires kept { IsKept hist.now }
    requires few { length hist.now.counters < 2 ^ 26 }
    requires inside { i < length hist.now.counters }
    requires from { from ≤ length symbols.now }
    requires ended { All (λ s. s.end * length hist.now.counters ≤ bucket_begin hist.now i)
        (take from symbols.now) }
    requires fits { sum of.old + 1000000 * slice_index hist.now.counters i < 2 ^ 128 }
    ensures added { of.new ≡ pointwise_sum of.old (map (bucket_share_of hist.now i) symbols.now) }
    ensures inside { result ≤ length symbols.now }
    ensures ended { All (λ s. s.end * length hist.now.counters ≤ bucket_begin hist.now (i + 1))
        (take result symbols.now) }
    ensures goes_on { (s : AnySymbol) → slice_get symbols.now result ≡ Some s
        → bucket_begin hist.now (i + 1) < s.end * length hist.now.counters }
{
    for k in from..symbols.len() {
        let symbol = &symbols[k];
        of[k] += share_of_bucket(hist, i, symbol);
        if is_above(hist, i, symbol.end) {
            return k;
        }
    }
    symbols.len()
}

/// The sum of counters.
fn samples(counters: &[u64]) -> u64
    requires { sum counters.now < 2 ^ 64 }
    ensures { result ≡ sum counters.now }
{
    counters.iter().sum()
}

/// Adds those buckets from bucket `i` on that lie in the symbol of number `from` as a whole, where the first
/// `from` symbols end at or below its begin: a division finds them all. Answers which bucket comes next.
fn add_whole(of: &mut [u128], symbols: &[Symbol], from: usize, hist: &Hist, i: usize) -> usize
    requires same { length of.old ≡ length symbols.now }
    requires ascending { IsAscending symbols.now }
    requires kept { IsKept hist.now }
    requires few { length hist.now.counters < 2 ^ 26 }
    requires ended { All (λ s. s.end * length hist.now.counters ≤ bucket_begin hist.now i)
        (take from symbols.now) }
    requires fits { sum of.old + 1000000 * sum (drop i hist.now.counters) < 2 ^ 65 }
    ensures added { of.new ≡ pointwise_sum of.old
        (map (share_between hist.now i result) symbols.now) }
    ensures rising { i ≤ result }
    ensures inside { i ≤ length hist.now.counters → result ≤ length hist.now.counters }
{
    let counters = hist.counters.as_slice();
    if from >= symbols.len() {
        return i;
    }
    if i >= counters.len() {
        return i;
    }
    let end = end_of_whole(hist, i, &symbols[from]);
    of[from] += u128::from(samples(&counters[i..end])) * GRAINS;
    end
}

/// Adds what each symbol gets of a histogram, where the first `from` symbols end at or below its
/// low address. Answers how many symbols have ended at its high address, at least.
fn add_hist(of: &mut [u128], symbols: &[Symbol], from: usize, hist: &Hist) -> usize
    requires same { length of.old ≡ length symbols.now }
    requires ascending { IsAscending symbols.now }
    requires kept { IsKept hist.now }
    requires few { length hist.now.counters < 2 ^ 26 }
    requires from { from ≤ length symbols.now }
    requires ended { All (λ s. s.end ≤ hist.now.low) (take from symbols.now) }
    requires fits { sum of.old + 1000000 * sum hist.now.counters < 2 ^ 65 }
    ensures added { of.new ≡ pointwise_sum of.old (map (share_in_hist hist.now) symbols.now) }
    ensures inside { result ≤ length symbols.now }
    ensures ended { All (λ s. s.end ≤ hist.now.high) (take result symbols.now) }
{
    let count = hist.counters.as_slice().len();
    let mut from = from;
    let mut i = add_whole(of, symbols, from, hist, 0);
    while i < count {
        from = add_bucket(of, symbols, from, hist, i);
        i = add_whole(of, symbols, from, hist, i + 1);
    }
    from
}

/// What each symbol gets of all histograms.
fn shares_of_symbols(
    alloc: Global,
    profile: &Profile,
    symbols: &[Symbol],
) -> Result<Vec<u128>, AllocError>
    requires profile { IsProfile profile.now }
    requires ascending { IsAscending symbols.now }
    ensures { IfOk result (λ of. of.items ≡ (shares_of profile.now.hists symbols.now).of) }
{
    let mut of = vec![in alloc; 0; symbols.len()]?;
    let mut from = 0;
    for k in 0..profile.hist_count() {
        from = add_hist(of.as_mut_slice(), symbols, from, profile.hist(k));
    }
    Ok(of)
}

/// The sum of numbers.
fn total(numbers: &[u128]) -> u128
    requires { sum numbers.now < 2 ^ 128 }
    ensures { result ≡ sum numbers.now }
{
    numbers.iter().sum()
}

/// What each symbol gets of a profile's histograms, and what is left. The symbols are in order, as
/// those of an image are.
///
/// A bucket reaches from `low + i * width / n` to `low + (i + 1) * width / n`, where `width` is
/// `high - low` and `n` the number of counters; these bounds are fractions. Up to an address `x`
/// within it, it has `floor(count * 1,000,000 * (x * n - low * n - i * width) / width)` grains.
pub fn shares(alloc: Global, profile: &Profile, symbols: &[Symbol]) -> Result<Shares, AllocError>
    requires { IsAscending symbols.now }
    ensures shares { IfOk result (λ s. s ≡ shares_of profile.now.hists symbols.now) }
    ensures whole { IfOk result (λ s. attributed_of s + s.outside
        ≡ 1000000 * samples_of profile.now.hists) }
    ensures within { IfOk result (λ s. attributed_of s < 2 ^ 65) }
{
    let grains = u128::from(profile.samples()) * GRAINS;
    let of = shares_of_symbols(alloc, profile, symbols)?;
    let attributed = total(of.as_slice());
    let outside = grains - attributed;
    Ok(Shares::new(symbol_count(symbols), of, attributed, outside))
}
