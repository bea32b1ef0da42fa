//! Profiles of samples.

ghost use Rattle.std.specs.Prelude.{◌≡◌, ◌+◌, ◌*◌, ◌^◌, ◌<◌, ◌≤◌, IfOk, length, sum};
ghost use Rattle.gmon_data.specs.Content.{empty_content};

use crate::rows::new_profile;
use gmon_data::{AddRefusal, Hist, Profile};
use gp_base::{Totals, Unit};
use std::alloc::{AllocError, Global};

/// A histogram: low and high address, and counters, of which the first 16 are taken.
pub type Counters<'a> = (u32, u32, &'a [u8]);

/// A hundred samples a second.
pub const PER_100: Unit = Unit {
    rate: 100,
    dim: *b"seconds\0\0\0\0\0\0\0\0",
    abbrev: b's',
};

/// A unit of the given rate, with the dimension `seconds` and its abbreviation `s`.
pub fn seconds(rate: u32) -> Unit {
    Unit { rate, ..PER_100 }
}

/// These counters: the first 65,536 of them, and of their samples the first 2^45 - 1.
fn counters_of(alloc: Global, samples: &[u64]) -> Result<Totals, AllocError>
    ensures samples { IfOk result (λ counters. sum counters < 2 ^ 45) }
    ensures few { IfOk result (λ counters. length counters ≤ 65536) }
{
    let mut counters = Totals::new(alloc);
    let mut room: u64 = (1 << 45) - 1;
    for count in &samples[..samples.len().min(65_536)] {
        let counter = (*count).min(room);
        counters.push(counter)?;
        room -= counter;
    }
    Ok(counters)
}

/// The histogram of a row.
pub fn hist_of(alloc: Global, row: Counters<'_>) -> Result<Hist, AllocError>
    ensures counters { IfOk result (λ hist. length hist.counters ≤ 16) }
    ensures samples { IfOk result (λ hist. sum hist.counters ≤ 4080) }
{
    let mut counters = Totals::new(alloc);
    for count in &row.2[..row.2.len().min(16)] {
        counters.push(u64::from(*count))?;
    }
    Ok(Hist {
        low: row.0,
        high: row.1,
        counters,
    })
}

/// Adds a histogram to a profile that holds nothing, with 100 samples a second. One that has no addresses
/// is left out.
fn add_hist(profile: &mut Profile, hist: &Hist) -> Result<(), AddRefusal>
    requires empty { profile.old ≡ empty_content }
    requires samples { sum hist.now.counters < 2 ^ 45 }
    requires few { length hist.now.counters ≤ 4194304 }
{
    if hist.low < hist.high {
        profile.add_wide(hist, seconds(100))?;
    }
    Ok(())
}

/// One histogram of these counters, of `width` addresses each, with 100 samples a second.
fn profile_of_counters(
    alloc: Global,
    counters: Totals,
    width: u32,
) -> Result<Box<Profile>, AddRefusal>
    requires samples { sum counters < 2 ^ 45 }
    requires few { length counters ≤ 4194304 }
    requires narrow { width ≤ 256 }
{
    let count = counters.as_slice().len() as u32;
    let hist = Hist {
        low: 0x1_0000,
        high: 0x1_0000 + width * count,
        counters,
    };
    let mut profile = new_profile(alloc)?;
    add_hist(&mut profile, &hist)?;
    Ok(profile)
}

/// The samples of functions of 16 addresses each, at 100 a second: those of the first 65,536 functions,
/// and of all samples the first 2^45 - 1.
pub fn profile_of_samples(alloc: Global, samples: &[u64]) -> Result<Box<Profile>, AddRefusal> {
    profile_of_counters(alloc, counters_of(alloc, samples)?, 16)
}

/// One histogram of so many counters of 1, of `width` addresses each, with 100 samples a second.
pub fn even_profile(alloc: Global, count: u32, width: u32) -> Result<Box<Profile>, AddRefusal>
    requires few { count ≤ 4194304 }
    requires narrow { width ≤ 256 }
{
    let counters = vec![in alloc; 1u64; count as usize]?;
    profile_of_counters(alloc, Totals::from(counters), width)
}
