ghost use Rattle.std.specs.Prelude.{◌≤◌};

use crate::{
    Calls, Function, PER_100, Rows, are_same, even_profile, named_symbols, profile_of_calls,
    profile_of_rows, profile_of_samples, ring_of_calls, symbols_at, symbols_in_reverse, symbols_of,
};
use elf32_syms::SymbolList;
use gmon_data::{AddRefusal, Profile};
use gp_base::Unit;
use std::alloc::{AllocError, Global};
use std::process::Abort;
use std::test::Fail;

/// Low and high address, and samples, of the first histogram.
fn first_hist(profile: &Profile) -> (u32, u32, u64) {
    if profile.hist_count() == 0 {
        return (0, 0, 0);
    }
    let hist = profile.hist(0);
    (hist.low, hist.high, profile.samples())
}

/// The first arc.
fn first_arc(profile: &Profile) -> (u32, u32, u64) {
    if profile.arc_count() == 0 {
        return (0, 0, 0);
    }
    profile.arc(0)
}

const PER_50: Unit = Unit {
    rate: 50,
    ..PER_100
};

/// Histograms of which one has no addresses, more calls than are taken, and executions of one address.
const SOME: Rows<'static> = Rows {
    hists: &[(8, 16, 3), (16, 16, 9), (16, 20, 4)],
    unit: PER_50,
    arcs: &[(4, 8, 1 << 40), (12, 8, 0)],
    blocks: &[(8, 5), (8, 6)],
};

fn expect_some(rt: &impl Abort, profile: &Profile) {
    let firsts = (first_hist(profile), first_arc(profile));
    let counts = (profile.hist_count(), profile.arc_count(), profile.blocks());
    assert_eq!(rt;
        (firsts, counts),
        (((8, 16, 7), (4, 8, 2_147_483_647)), (2, 2, 11))
    );
}

#[test]
fn profiles_of_rows(rt: HostRuntime) -> Result<(), Fail> {
    let profile = profile_of_rows(rt.alloc(), SOME)?;
    expect_some(&rt, &profile);
    Ok(())
}

/// One of each.
const ONE: Rows<'static> = Rows {
    hists: &[(8, 16, 3)],
    unit: PER_50,
    arcs: &[(4, 8, 1), (12, 8, 0)],
    blocks: &[(8, 5)],
};

/// The same, and what differs from one of each.
const OTHERS: &[(&'static str, Rows<'static>, bool)] = &[
    ("one of each", ONE, true),
    (
        "a histogram",
        Rows {
            hists: &[(8, 16, 4)],
            ..ONE
        },
        false,
    ),
    (
        "its unit",
        Rows {
            unit: PER_100,
            ..ONE
        },
        false,
    ),
    (
        "the order of arcs",
        Rows {
            arcs: &[(12, 8, 0), (4, 8, 1)],
            ..ONE
        },
        false,
    ),
    (
        "executions",
        Rows {
            blocks: &[(8, 6)],
            ..ONE
        },
        false,
    ),
];

/// Whether the profiles of two rows hold the same.
fn have_same(alloc: Global, one: Rows<'_>, other: Rows<'_>) -> Result<bool, AddRefusal> {
    let first = profile_of_rows(alloc, one)?;
    let second = profile_of_rows(alloc, other)?;
    Ok(are_same(&first, &second))
}

#[test]
fn profiles_that_hold_the_same(rt: HostRuntime) -> Result<(), Fail> {
    for (name, other, same) in OTHERS {
        assert_eq!(rt; have_same(rt.alloc(), ONE, *other)?, *same, "{name}");
    }
    Ok(())
}

/// The first arc of calls of functions.
fn arc_of_calls(alloc: Global, calls: &[Calls]) -> Result<(u32, u32, u64), AllocError> {
    let profile = profile_of_calls(alloc, calls)?;
    Ok(first_arc(&profile))
}

/// The histogram of samples of functions.
fn hist_of_samples(alloc: Global, samples: &[u64]) -> Result<(u32, u32, u64), AddRefusal> {
    let profile = profile_of_samples(alloc, samples)?;
    Ok(first_hist(&profile))
}

#[test]
fn samples_and_calls_of_functions(rt: HostRuntime) -> Result<(), Fail> {
    assert_eq!(rt;
        arc_of_calls(rt.alloc(), &[(1, 2, 9)])?,
        (0x1_0014, 0x1_0020, 9)
    );
    assert_eq!(rt;
        hist_of_samples(rt.alloc(), &[2, 0, 1])?,
        (0x1_0000, 0x1_0030, 3)
    );
    Ok(())
}

#[test]
fn even_samples(rt: HostRuntime) -> Result<(), Fail> {
    let even = even_profile(rt.alloc(), 10, 4)?;
    assert_eq!(rt; first_hist(&even), (0x1_0000, 0x1_0028, 10));
    Ok(())
}

const NAMED: &[Function<'static>] = &[("a", 0), ("", 0), ("c", 0)];

/// How many symbols there are.
fn count_of(symbols: Result<SymbolList, AllocError>) -> Result<usize, AllocError> {
    Ok(symbols?.as_slice().len())
}

#[test]
fn functions_in_a_row(rt: HostRuntime) -> Result<(), Fail> {
    let named = count_of(named_symbols(rt.alloc(), NAMED))?;
    let places = count_of(symbols_of(rt.alloc(), 3, 256))?;
    let reverse = count_of(symbols_in_reverse(rt.alloc(), 4096))?;
    assert_eq!(rt; (named, places, reverse), (2, 3, 4096));
    Ok(())
}

const PLACES: &[(u32, u32)] = &[(8, 12), (12, 12), (10, 16), (12, 20)];

#[test]
fn places_that_are_apart(rt: HostRuntime) -> Result<(), Fail> {
    assert_eq!(rt; count_of(symbols_at(rt.alloc(), PLACES))?, 2);
    Ok(())
}

/// How many arcs a ring of calls has.
fn arcs_of_ring(alloc: Global, size: u32, cut: bool) -> Result<usize, AllocError>
    requires { size ≤ 256 }
{
    let ring = ring_of_calls(alloc, size, cut)?;
    Ok(ring.arc_count())
}

#[test]
fn a_ring_and_a_cut_one(rt: HostRuntime) -> Result<(), Fail> {
    assert_eq!(rt; arcs_of_ring(rt.alloc(), 16, false)?, 2_097_152);
    assert_eq!(rt; arcs_of_ring(rt.alloc(), 256, true)?, 2_096_624);
    Ok(())
}
