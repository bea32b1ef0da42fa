//! The grains of a range of addresses.

ghost use Rattle.std.specs.Prelude.{◌≡◌, ◌-◌, ◌*◌, ◌^◌, ◌<◌, ◌≤◌, length, sum};
ghost use Rattle.gmon_data.specs.Hists.{IsKept};
ghost use Rattle.symbol_shares.specs.Ranges.{grains_in_hist as grains_in, grains_of_range};

use crate::bucket::{grains_of_bucket, is_above, width};
use gmon_data::{Hist, Profile};

/// The bucket in which an address of a histogram lies; of a lower address the first one.
fn bucket_of(hist: &Hist, address: u32) -> usize
    requires range { hist.now.low < hist.now.high }
    requires few { length hist.now.counters < 2 ^ 26 }
    requires below { address < hist.now.high }
    ensures inside { result ≤ length hist.now.counters }
    ensures begin { result * (hist.now.high - hist.now.low)
        ≤ (address - hist.now.low) * length hist.now.counters }
{
    let count = hist.counters.as_slice().len() as u64;
    let above = u64::from(address.saturating_sub(hist.low));
    (above * count / u64::from(width(hist))) as usize
}

/// What the addresses from `low` to below `high` get of a histogram. Only the buckets that they touch
/// are looked at.
fn grains_in_hist(hist: &Hist, low: u32, high: u32) -> u128
    requires kept { IsKept hist.now }
    requires few { length hist.now.counters < 2 ^ 26 }
    requires fits { 1000000 * sum hist.now.counters < 2 ^ 128 }
    requires below { low < hist.now.high }
    requires order { low ≤ high }
    ensures { result ≡ grains_in low high hist.now }
{
    let mut grains = 0;
    for i in bucket_of(hist, low)..hist.counters.as_slice().len() {
        grains += grains_of_bucket(hist, i, low, high);
        if !is_above(hist, i, high) {
            return grains;
        }
    }
    grains
}

/// What the addresses from `low` to below `high` get of all histograms, as a symbol of these
/// addresses would. Takes no memory, and time in the buckets that the addresses touch and in the
/// logarithm of the number of histograms.
pub fn range_grains(profile: &Profile, low: u32, high: u32) -> u128
    requires { low ≤ high }
    ensures grains { result ≡ grains_of_range profile.now.hists low high }
    ensures within { result < 2 ^ 65 }
{
    let mut grains = 0;
    for k in profile.ended_hists(low)..profile.hist_count() {
        let hist = profile.hist(k);
        if high <= hist.low {
            return grains;
        }
        grains += grains_in_hist(hist, low, high);
    }
    grains
}
