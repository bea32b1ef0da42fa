//! The profile of a run, without a file.

ghost use Rattle.std.specs.Prelude.{◌≡◌, ◌^◌, ◌<◌, ◌≤◌, List, length, ◌∷◌, [], IfOk};
ghost use Rattle.std.specs.List.{All};
ghost use Rattle.gmon_data.specs.Content.{WideHist, content_of};
ghost use Rattle.mcount_arcs.specs.Arcs.{CallFits};
ghost use Rattle.mcount_arcs.specs.Log.{LogEntry};
ghost use Rattle.mcount_arcs.specs.Sizes.{AreSizes};
ghost use Rattle.mcount_arcs.specs.Value.{StandsFor};
ghost use Rattle.gp_base.specs.Fields.{seconds};
ghost use Rattle.gmon_bsd.specs.Profile.{run_profile as run_content, runtime_hist, runtime_records, IsOfRun};

use gmon_data::{AddRefusal, Hist, Profile};
use gp_base::{RawArc, Totals, Unit};
use mcount_arcs::Gmon;
use std::alloc::{AllocError, Global};

/// The profile that reading the file of a run gives, at `rate` samples per second, where 0 stands for
/// 100. No file is written or read.
pub fn run_profile(alloc: Global, gmon: &Gmon, rate: u32) -> Result<Profile, AllocError>
    ensures records { IfOk result (λ p. p ≡ content_of (runtime_records gmon.now rate)) }
    ensures log { (log : List LogEntry) → StandsFor log gmon.now
        → IfOk result (λ p. p ≡ run_content gmon.now.sizes log rate) }
    ensures fits { IfOk result (λ _. AreSizes gmon.now.sizes × All CallFits gmon.now.arcs) }
{
    let mut profile = hist_profile(alloc, gmon, rate)?;
    let arcs = arcs_in(alloc, gmon)?;
    profile.expect_records(&arcs, &[]);
    profile.add_arcs(&arcs)?;
    Ok(profile)
}

/// The arcs of a run.
fn arcs_in(alloc: Global, gmon: &Gmon) -> Result<Vec<RawArc>, AllocError>
    ensures those { IfOk result (λ arcs. arcs.items ≡ gmon.now.arcs) }
    ensures fits { All CallFits gmon.now.arcs }
    ensures few { length gmon.now.arcs < gmon.now.sizes.tolimit }
{
    let mut arcs = Vec::new(alloc);
    for arc in gmon.arcs() {
        arcs.push(arc)?;
    }
    Ok(arcs)
}

/// The counters of a run.
fn counters_of(alloc: Global, gmon: &Gmon) -> Result<Totals, AllocError>
    ensures those { IfOk result (λ counters. counters ≡ gmon.now.counters) }
    ensures small { IfOk result (λ counters. All (λ n. n < 2 ^ 16) counters) }
    ensures few { IfOk result (λ counters. length counters ≤ 2 ^ 23) }
{
    let mut counters = Totals::new(alloc);
    for i in 0..gmon.sizes().counters {
        counters.push(u64::from(gmon.counter(i)))?;
    }
    Ok(counters)
}

/// A profile of the counters of a run alone.
fn hist_profile(alloc: Global, gmon: &Gmon, rate: u32) -> Result<Profile, AllocError>
    ensures hist { IfOk result (λ p. p ≡ content_of
        (WideHist (runtime_hist gmon.now) (seconds rate) ∷ [])) }
    ensures bounds { IfOk result (λ p. IsOfRun 0 p) }
    ensures sizes { AreSizes gmon.now.sizes }
{
    let sizes = gmon.sizes();
    let hist = Hist {
        low: sizes.low,
        high: sizes.high,
        counters: counters_of(alloc, gmon)?,
    };
    let unit = Unit {
        rate,
        dim: *b"seconds\0\0\0\0\0\0\0\0",
        abbrev: b's',
    };
    let mut profile = Profile::new(alloc);
    match profile.add_wide(&hist, unit) {
        Ok(()) => Ok(profile),
        Err(AddRefusal::OutOfMemory) => Err(AllocError),
        // Nothing is kept yet that a histogram could differ from.
        Err(AddRefusal::Unlike(_)) => unreachable!(),
    }
}
