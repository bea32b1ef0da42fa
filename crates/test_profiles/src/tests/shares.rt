ghost use Rattle.std.specs.Prelude.{◌≡◌};
ghost use Rattle.gmon_data.specs.Content.{empty_content};

use crate::{Counters, even_profile, hist_of, new_profile, seconds, symbols_at, symbols_of};
use gmon_data::{AddRefusal, Profile};
use std::alloc::Global;
use std::process::Abort;
use std::test::Fail;
use symbol_shares::{Shares, range_grains, shares};

/// Address and end of a symbol.
type Place = (u32, u32);

/// Adds the first five of these histograms. One without counters is none.
fn add_hists(profile: &mut Profile, alloc: Global, rows: &[Counters<'_>]) -> Result<(), AddRefusal>
    requires { profile.old ≡ empty_content }
{
    for i in 0..rows.len().min(5) {
        let hist = hist_of(alloc, rows[i])?;
        if hist.low < hist.high {
            profile.add_wide(&hist, seconds(100))?;
        }
    }
    Ok(())
}

/// A profile of these histograms.
fn profile_of(alloc: Global, rows: &[Counters<'_>]) -> Result<Box<Profile>, AddRefusal> {
    let mut profile = new_profile(alloc)?;
    add_hists(&mut profile, alloc, rows)?;
    Ok(profile)
}

/// The grains of a symbol, and 0 where there is none of this number.
fn share(shares: &Shares, f: u32) -> u128 {
    if f >= shares.function_count() {
        return 0;
    }
    shares.of(f)
}

/// The shares of symbols, of samples in these histograms.
fn shares_at(alloc: Global, rows: &[Counters<'_>], places: &[Place]) -> Result<Shares, AddRefusal> {
    let profile = profile_of(alloc, rows)?;
    let symbols = symbols_at(alloc, places)?;
    let shares = shares(alloc, &profile, symbols.as_slice())?;
    Ok(shares)
}

/// The shares of three symbols, what they have together, and what is left.
type Outcome = ([u128; 3], u128, u128);

/// These are the shares.
fn expect_outcome(rt: &impl Abort, name: &str, shares: &Shares, want: Outcome) {
    let of = [share(shares, 0), share(shares, 1), share(shares, 2)];
    assert_eq!(rt; (of, shares.attributed(), shares.outside()), want, "{name}");
}

const NOTHING: Counters<'static> = (0, 1, b"");

const SEVEN: Counters<'static> = (0x1000, 0x1010, b"\x07");

const NONE: Place = (0, 0);

const PARTS: [Place; 3] = [(0x1000, 0x1006), (0x1006, 0x100A), (0x100A, 0x1020)];

/// A name, two histograms, symbols and their shares.
type Row = (
    &'static str,
    Counters<'static>,
    Counters<'static>,
    [Place; 3],
    Outcome,
);

const ROWS: &[Row] = &[
    (
        "a bucket over three symbols",
        SEVEN,
        NOTHING,
        PARTS,
        ([2_625_000, 1_750_000, 2_625_000], 7_000_000, 0),
    ),
    // Up to bytes 1, 3 and 6 of 6: 1/6, 1/2 and 1 of 1,000,000.
    (
        "grains that are rounded down",
        (0x1000, 0x1006, b"\x01"),
        NOTHING,
        [(0x1000, 0x1001), (0x1001, 0x1003), (0x1003, 0x1010)],
        ([166_666, 333_334, 500_000], 1_000_000, 0),
    ),
    // The second bucket reaches from byte 16/3 to byte 32/3. Byte 6 is at 1/8 of it.
    (
        "buckets that begin within bytes",
        (0x1000, 0x1010, b"\0\x01\0"),
        NOTHING,
        [(0x1000, 0x1006), (0x1006, 0x1020), NONE],
        ([125_000, 875_000, 0], 1_000_000, 0),
    ),
    // In thirds of a byte, the buckets are 0 to 7, 7 to 14 and 14 to 21, with 2, 5 and 1
    // samples, and the symbols 3 to 9, 9 to 12 and 15 to 27. Floors of the first bucket:
    // 2,000,000 * 3/7 = 857,142 up to 3. Of the second: 5,000,000 * 2/7 = 1,428,571 up to 9, and
    // 5,000,000 * 5/7 = 3,571,428 up to 12. Of the third: 1,000,000 * 1/7 = 142,857 up to 15.
    // So the symbols have 1,142,858 + 1,428,571, and 2,142,857, and 857,143; the rest is
    // 857,142 + 1,428,572 + 142,857.
    (
        "symbols that begin within buckets",
        (0x1000, 0x1007, b"\x02\x05\x01"),
        NOTHING,
        [(0x1001, 0x1003), (0x1003, 0x1004), (0x1005, 0x1009)],
        ([2_571_429, 2_142_857, 857_143], 5_571_429, 2_428_571),
    ),
    ("no histogram", NOTHING, NOTHING, PARTS, ([0, 0, 0], 0, 0)),
    (
        "no symbols",
        SEVEN,
        NOTHING,
        [NONE, NONE, NONE],
        ([0, 0, 0], 0, 7_000_000),
    ),
    (
        "a range below all symbols",
        SEVEN,
        NOTHING,
        [(0x1010, 0x1020), (0x2000, 0x2010), NONE],
        ([0, 0, 0], 0, 7_000_000),
    ),
    (
        "a range above all symbols",
        SEVEN,
        NOTHING,
        [(0x800, 0x900), (0x900, 0x1000), NONE],
        ([0, 0, 0], 0, 7_000_000),
    ),
    (
        "a range between symbols",
        SEVEN,
        NOTHING,
        [(0x800, 0x1000), (0x1010, 0x2000), NONE],
        ([0, 0, 0], 0, 7_000_000),
    ),
    (
        "samples between symbols",
        (0x1000, 0x1010, b"\x04"),
        NOTHING,
        [(0x1000, 0x1004), (0x1008, 0x1010), NONE],
        ([1_000_000, 2_000_000, 0], 3_000_000, 1_000_000),
    ),
    // The first symbol has the lower histogram, which is added last, and two of the other one's
    // three buckets.
    (
        "two histograms",
        (0x1100, 0x1118, b"\x03\x02\x01"),
        SEVEN,
        [(0xF00, 0x1110), (0x1110, 0x1114), (0x1118, 0x1200)],
        ([12_000_000, 500_000, 0], 12_500_000, 500_000),
    ),
    (
        "two histograms without a gap",
        SEVEN,
        (0x1010, 0x1020, b"\x02\x04"),
        [(0x1000, 0x1014), (0x1014, 0x1018), (0x101E, 0x1020)],
        ([8_000_000, 1_000_000, 1_000_000], 10_000_000, 3_000_000),
    ),
    (
        "the highest addresses",
        (0xFFFF_FFEF, 0xFFFF_FFFF, b"\x01\x01\x01\x01"),
        NOTHING,
        [(0, 0xFFFF_FFF1), (0xFFFF_FFF1, 0xFFFF_FFFF), NONE],
        ([500_000, 3_500_000, 0], 4_000_000, 0),
    ),
];

/// The symbols of a row have its shares.
fn expect_row(rt: &impl Abort, alloc: Global, row: &Row) -> Result<(), AddRefusal> {
    let (name, one, other, places, want) = row;
    let shares = shares_at(alloc, &[*one, *other], places)?;
    expect_outcome(rt, name, &shares, *want);
    Ok(())
}

#[test]
fn shares_of_symbols(rt: HostRuntime) -> Result<(), Fail> {
    for row in ROWS {
        expect_row(&rt, rt.alloc(), row)?;
    }
    Ok(())
}

/// The second and the last one touch others.
const FIVE: &[Counters<'static>] = &[
    (0x1100, 0x1104, b"\x04"),
    (0x1000, 0x1010, b"\x01\x01\x01\x01"),
    (0x1010, 0x1020, b"\x08"),
    (0x1200, 0x1210, b"\x10\x20"),
    (0x1104, 0x1108, b"\x02"),
];

/// The second symbol begins in the first histogram and ends in the fourth.
const OVER_FIVE: &[Place] = &[(0x0, 0x1008), (0x1008, 0x1204), (0x1204, 0x2000)];

#[test]
fn five_histograms(rt: HostRuntime) -> Result<(), Fail> {
    let shares = shares_at(rt.alloc(), FIVE, OVER_FIVE)?;
    let want = ([2_000_000, 24_000_000, 40_000_000], 66_000_000, 0);
    expect_outcome(&rt, "five histograms", &shares, want);
    Ok(())
}

/// The shares of 65,536 symbols, each of which has 64 samples.
fn even_shares(alloc: Global) -> Result<Shares, AddRefusal> {
    let profile = even_profile(alloc, 4_194_304, 4)?;
    let symbols = symbols_of(alloc, 65_536, 256)?;
    let shares = shares(alloc, &profile, symbols.as_slice())?;
    Ok(shares)
}

/// The totals of those shares.
fn expect_totals(rt: &impl Abort, shares: &Shares) {
    assert_eq!(rt;
        (
            shares.function_count(),
            shares.attributed(),
            shares.outside()
        ),
        (65_536, 4_194_304_000_000, 0)
    );
}

/// Each of those shares.
fn expect_even(rt: &impl Abort, shares: &Shares) {
    for f in 0..65_536 {
        assert_eq!(rt; share(shares, f), 64_000_000, "{f}");
    }
}

#[test]
fn many_symbols(rt: HostRuntime) -> Result<(), Fail> {
    let shares = even_shares(rt.alloc())?;
    expect_totals(&rt, &shares);
    expect_even(&rt, &shares);
    Ok(())
}

/// The grains of a range, where its low address is not above its high one.
fn grains(profile: &Profile, low: u32, high: u32) -> Option<u128> {
    if low <= high {
        Some(range_grains(profile, low, high))
    } else {
        None
    }
}

const TWO: [Counters<'static>; 2] = [(0x1010, 0x1020, b"\x02\x04"), SEVEN];

const ODD: [Counters<'static>; 1] = [(0x1000, 0x1007, b"\x02\x05\x01")];

/// A name, histograms, low and high address of a range, and its grains.
type RangeRow = (&'static str, &'static [Counters<'static>], u32, u32, u128);

const RANGE_ROWS: &[RangeRow] = &[
    ("part of a bucket", &TWO, 0x1000, 0x1004, 1_750_000),
    ("within a bucket", &TWO, 0x1003, 0x100B, 3_500_000),
    ("the end of a bucket", &TWO, 0x100C, 0x1010, 1_750_000),
    ("over two histograms", &TWO, 0x100C, 0x1014, 2_750_000),
    ("over three buckets", &TWO, 0x1008, 0x101C, 7_500_000),
    ("all", &TWO, 0, 0xFFFF_FFFF, 13_000_000),
    ("no address", &TWO, 0x1004, 0x1004, 0),
    ("below", &TWO, 0, 0x1000, 0),
    ("above", &TWO, 0x1020, 0xFFFF_FFFF, 0),
    // The floors are those of symbols that begin within buckets.
    ("the first of three", &ODD, 0x1001, 0x1003, 2_571_429),
    ("the second of three", &ODD, 0x1003, 0x1004, 2_142_857),
    ("the third of three", &ODD, 0x1005, 0x1009, 857_143),
    ("no histogram", &[], 0, 0xFFFF_FFFF, 0),
];

/// The range of a row has its grains.
fn expect_range(rt: &impl Abort, alloc: Global, row: &RangeRow) -> Result<(), AddRefusal> {
    let (name, rows, low, high, want) = row;
    let profile = profile_of(alloc, rows)?;
    assert_eq!(rt; grains(&profile, *low, *high), Some(*want), "{name}");
    Ok(())
}

#[test]
fn grains_of_ranges(rt: HostRuntime) -> Result<(), Fail> {
    for row in RANGE_ROWS {
        expect_range(&rt, rt.alloc(), row)?;
    }
    Ok(())
}

/// Ranges of 16 addresses have 4 samples each.
fn expect_even_ranges(rt: &impl Abort, profile: &Profile) {
    for f in 0..65_536 {
        let low = 0x1_0000 + 256 * f;
        assert_eq!(rt; grains(profile, low, low + 16), Some(4_000_000), "{f}");
    }
}

#[test]
fn many_ranges(rt: HostRuntime) -> Result<(), Fail> {
    let profile = even_profile(rt.alloc(), 4_194_304, 4)?;
    expect_even_ranges(&rt, &profile);
    Ok(())
}
