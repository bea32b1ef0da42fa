ghost use Rattle.std.specs.Prelude.{◌≡◌, IfOk, OnOk};
ghost use Rattle.gmon_data.specs.Content.{empty_content};
ghost use Rattle.test_profiles.specs.AtMost.{IsAtMost};
ghost use Rattle.test_profiles.specs.Rows.{HasRows};

use super::looks::{counts_of, has_arcs, totals_of};
use crate::{PER_100, Rows, boxed, new_profile, profile_of_rows};
use gmon_data::{AddRefusal, HistRange, Profile, Unlike};
use gp_base::Unit;
use profile_sum::{SumRefusal, add_all, add_into};
use std::alloc::{AllocError, Global};
use std::process::Abort;
use std::test::Fail;

/// Whether the profile has these histograms, and their unit where there are any.
fn has_hists(profile: &Profile, hists: &[(u32, u32, u64)], unit: Unit) -> bool {
    let kept = if hists.is_empty() { None } else { Some(unit) };
    if profile.hist_count() != hists.len() || profile.unit() != kept {
        return false;
    }
    for i in 0..hists.len() {
        let hist = profile.hist(i);
        let (low, high, counter) = hists[i];
        if (hist.low, hist.high) != (low, high)
            || hist.counters.as_slice() != [counter].as_slice()
        {
            return false;
        }
    }
    true
}

/// Whether the profile has these block addresses, in this order.
fn has_blocks(profile: &Profile, blocks: &[(u32, u64)]) -> bool {
    if profile.block_count() != blocks.len() {
        return false;
    }
    for i in 0..blocks.len() {
        if profile.block(i) != blocks[i] {
            return false;
        }
    }
    true
}

/// Whether histograms, arcs and block addresses are those of rows.
type Has = (bool, bool, bool);

const HAS_ALL: Has = (true, true, true);

/// Whether the profile has the histograms, the arcs and the block addresses of these rows.
fn has_rows(profile: &Profile, rows: &Rows<'_>) -> Has {
    (
        has_hists(profile, rows.hists, rows.unit),
        has_arcs(profile, rows.arcs),
        has_blocks(profile, rows.blocks),
    )
}

/// Adds a profile of rows to another one.
fn add_rows(total: &mut Profile, more: &Profile) -> Result<(), SumRefusal>
    requires total { HasRows 2000 2000 2000 total.old }
    requires more { HasRows 2000 2000 2000 more.now }
{
    add_all(total, more)
}

/// What adding the second to the first answers; whether the first one has these rows then; and its
/// samples, calls and executions.
fn added(
    alloc: Global,
    first: Rows<'_>,
    second: Rows<'_>,
    rows: &Rows<'_>,
) -> Result<(Result<(), SumRefusal>, Has, (u64, u64, u64)), AddRefusal> {
    let mut total = profile_of_rows(alloc, first)?;
    let more = profile_of_rows(alloc, second)?;
    let answer = add_rows(&mut total, &more);
    Ok((answer, has_rows(&total, rows), totals_of(&total)))
}

/// The sum of profiles of rows, into which the first one goes.
fn rows_into(alloc: Global, total: Box<Profile>, more: &Profile) -> Result<Box<Profile>, SumRefusal>
    requires total { HasRows 2000 2000 2000 total.value }
    requires more { HasRows 2000 2000 2000 more.now }
{
    let sum = add_into(Box::into_inner(total), more)?;
    Ok(boxed(alloc, sum)?)
}

/// Whether a sum has these rows, or why there is none.
fn has_sum(sum: Result<Box<Profile>, SumRefusal>, rows: &Rows<'_>) -> Result<Has, SumRefusal> {
    let sum = sum?;
    Ok(has_rows(&sum, rows))
}

/// The same of the sum into which the first one goes, if there is one.
fn added_into(
    alloc: Global,
    first: Rows<'_>,
    second: Rows<'_>,
    rows: &Rows<'_>,
) -> Result<Result<Has, SumRefusal>, AddRefusal> {
    let total = profile_of_rows(alloc, first)?;
    let more = profile_of_rows(alloc, second)?;
    Ok(has_sum(rows_into(alloc, total, &more), rows))
}

const PER_50: Unit = Unit {
    rate: 50,
    ..PER_100
};

/// A rate that counts as 100.
const PER_0: Unit = Unit { rate: 0, ..PER_100 };

const MINUTES: Unit = Unit {
    abbrev: b'm',
    ..PER_100
};

const NOTHING: Rows<'static> = Rows {
    hists: &[],
    unit: PER_100,
    arcs: &[],
    blocks: &[],
};

/// Some of each.
const SOME: Rows<'static> = Rows {
    hists: &[(0x1_0000, 0x1_0004, 1), (0x1_0010, 0x1_0020, 0)],
    unit: PER_100,
    arcs: &[(0x1_0000, 0x1_0004, 3), (0, 0x1_0000, 1)],
    blocks: &[(0x1_0008, 5), (0x1_0000, 5)],
};

/// A histogram of a counter that a file could have.
const COUNTER: Rows<'static> = Rows {
    hists: &[(0x1_0000, 0x1_0004, 40_000)],
    ..NOTHING
};

/// Twice that counter.
const TWICE: Rows<'static> = Rows {
    hists: &[(0x1_0000, 0x1_0004, 80_000)],
    ..NOTHING
};

/// A first and a second profile, and their sum.
type Sum = (Rows<'static>, Rows<'static>, Rows<'static>);

const SUMS: &[(&'static str, Sum)] = &[
    ("nothing and nothing", (NOTHING, NOTHING, NOTHING)),
    ("nothing after some", (SOME, NOTHING, SOME)),
    ("some after nothing", (NOTHING, SOME, SOME)),
    ("a counter beyond 16 bits", (COUNTER, COUNTER, TWICE)),
    (
        "a rate of 0 counts as 100",
        (
            COUNTER,
            Rows {
                unit: PER_0,
                ..COUNTER
            },
            TWICE,
        ),
    ),
    (
        "the unit of the second, as the first has none",
        (
            Rows {
                arcs: &[(0, 8, 1)],
                ..NOTHING
            },
            Rows {
                unit: PER_50,
                ..COUNTER
            },
            Rows {
                unit: PER_50,
                arcs: &[(0, 8, 1)],
                ..COUNTER
            },
        ),
    ),
    (
        "the unit of the first, as the second has none",
        (
            Rows {
                unit: PER_50,
                ..COUNTER
            },
            Rows {
                blocks: &[(8, 1)],
                ..NOTHING
            },
            Rows {
                unit: PER_50,
                blocks: &[(8, 1)],
                ..COUNTER
            },
        ),
    ),
    (
        "ranges that touch",
        (
            Rows {
                hists: &[(0x1_0000, 0x1_0004, 1)],
                ..NOTHING
            },
            Rows {
                hists: &[(0xFFFC, 0x1_0000, 3), (0x1_0004, 0x1_0008, 2)],
                ..NOTHING
            },
            Rows {
                hists: &[
                    (0xFFFC, 0x1_0000, 3),
                    (0x1_0000, 0x1_0004, 1),
                    (0x1_0004, 0x1_0008, 2),
                ],
                ..NOTHING
            },
        ),
    ),
    (
        "new arcs behind the old ones, equal pairs added",
        (
            Rows {
                arcs: &[(0x40, 8, 1), (0x10, 8, 2)],
                ..NOTHING
            },
            Rows {
                arcs: &[
                    (0x20, 8, 3),
                    (0x10, 8, 4),
                    (0x14, 8, 5),
                    (0x40, 8, 6),
                    (0x10, 4, 0),
                ],
                ..NOTHING
            },
            Rows {
                arcs: &[
                    (0x40, 8, 7),
                    (0x10, 8, 6),
                    (0x20, 8, 3),
                    (0x14, 8, 5),
                    (0x10, 4, 0),
                ],
                ..NOTHING
            },
        ),
    ),
    (
        "new blocks behind the old ones, equal addresses added",
        (
            Rows {
                blocks: &[(0x40, 1), (0x10, 2)],
                ..NOTHING
            },
            Rows {
                blocks: &[(0x20, 3), (0x10, 4), (0x14, 0), (0x40, 6)],
                ..NOTHING
            },
            Rows {
                blocks: &[(0x40, 7), (0x10, 6), (0x20, 3), (0x14, 0)],
                ..NOTHING
            },
        ),
    ),
];

fn is_added(rt: &impl Abort, alloc: Global, name: &str, rows: &Sum) -> Result<(), AddRefusal> {
    let (first, second, sum) = rows;
    let (answer, has, _) = added(alloc, *first, *second, sum)?;
    let into = added_into(alloc, *first, *second, sum)?;
    assert_eq!(rt;
        (answer, has, into),
        (Ok(()), HAS_ALL, Ok(HAS_ALL)),
        "{name}"
    );
    Ok(())
}

#[test]
fn sums_of_profiles(rt: HostRuntime) -> Result<(), Fail> {
    for (name, rows) in SUMS {
        is_added(&rt, rt.alloc(), name, rows)?;
    }
    Ok(())
}

/// An arc and a block address, beside which histograms are refused.
const BESIDE: Rows<'static> = Rows {
    arcs: &[(0x20, 8, 3)],
    blocks: &[(0x20, 3)],
    ..NOTHING
};

const LOW: HistRange = HistRange {
    low: 0x1_0000,
    high: 0x1_0004,
    count: 1,
};

const HIGH: HistRange = HistRange {
    low: 0x1_0010,
    high: 0x1_0020,
    count: 1,
};

/// What is not added to some of each, and why.
const REFUSED: &[(&'static str, Rows<'static>, Unlike)] = &[
    (
        "another range",
        Rows {
            hists: &[(0x1_0002, 0x1_0006, 1)],
            ..BESIDE
        },
        Unlike::Range {
            old: LOW,
            new: HistRange {
                low: 0x1_0002,
                high: 0x1_0006,
                count: 1,
            },
        },
    ),
    (
        "the second histogram alone is refused",
        Rows {
            hists: &[(0x8000, 0x8004, 1), (0x1_0018, 0x1_0020, 1)],
            ..BESIDE
        },
        Unlike::Range {
            old: HIGH,
            new: HistRange {
                low: 0x1_0018,
                high: 0x1_0020,
                count: 1,
            },
        },
    ),
    (
        "both are refused, the lower one by its rate",
        Rows {
            hists: &[(0x8000, 0x8004, 1), (0x1_0002, 0x1_0006, 1)],
            unit: PER_50,
            ..BESIDE
        },
        Unlike::Rate { old: 100, new: 50 },
    ),
    (
        "both are refused, the lower one by its range",
        Rows {
            hists: &[(0xFFFF, 0x1_0001, 1), (0x1_0004, 0x1_0008, 1)],
            unit: PER_50,
            ..BESIDE
        },
        Unlike::Range {
            old: LOW,
            new: HistRange {
                low: 0xFFFF,
                high: 0x1_0001,
                count: 1,
            },
        },
    ),
    (
        "another rate in the same range",
        Rows {
            hists: &[(0x1_0000, 0x1_0004, 1)],
            unit: PER_50,
            ..BESIDE
        },
        Unlike::Rate { old: 100, new: 50 },
    ),
    (
        "another dimension",
        Rows {
            hists: &[(0x1_0000, 0x1_0004, 1)],
            unit: MINUTES,
            ..BESIDE
        },
        Unlike::Dimension {
            old: PER_100,
            new: MINUTES,
        },
    ),
];

/// It is refused, and nothing is added to some of each.
fn is_refused(
    rt: &impl Abort,
    alloc: Global,
    name: &str,
    second: Rows<'_>,
    unlike: Unlike,
) -> Result<(), AddRefusal> {
    let refusal = SumRefusal::Unlike(unlike);
    let to = added(alloc, SOME, second, &SOME)?;
    let into = added_into(alloc, SOME, second, &SOME)?;
    assert_eq!(rt;
        (to, into),
        ((Err(refusal), HAS_ALL, (1, 4, 10)), Err(refusal)),
        "{name}"
    );
    Ok(())
}

#[test]
fn profiles_without_a_sum(rt: HostRuntime) -> Result<(), Fail> {
    for (name, second, unlike) in REFUSED {
        is_refused(&rt, rt.alloc(), name, *second, *unlike)?;
    }
    Ok(())
}

/// Adds 100,000 arcs and 100,000 block addresses, of one call and one execution each, from an address on.
fn add_called(profile: &mut Profile, first: u32) -> Result<(), AllocError>
    requires { profile.old ≡ empty_content }
    ensures { OnOk result (IsAtMost profile.new 200000) }
{
    for i in 0..100_000 {
        profile.add_calls(first.wrapping_add(i), 0x1_0000, 1)?;
        profile.add_runs(first.wrapping_add(i), 1)?;
    }
    Ok(())
}

/// A profile of these.
fn called(alloc: Global, first: u32) -> Result<Box<Profile>, AllocError>
    ensures { IfOk result (λ profile. IsAtMost profile.value 200000) }
{
    let mut profile = new_profile(alloc)?;
    add_called(&mut profile, first)?;
    Ok(profile)
}

/// Adds a profile of these to another one.
fn add_more(total: &mut Profile, more: &Profile) -> Result<(), SumRefusal>
    requires total { IsAtMost total.old 200000 }
    requires more { IsAtMost more.now 200000 }
{
    add_all(total, more)
}

/// The first arc of the sum of two of these that isn't the one of its place, and its number.
fn first_other_call(total: &Profile) -> Option<(usize, (u32, u32, u64))> {
    for i in 0..total.arc_count() {
        let arc = total.arc(i);
        let count = if i >= 50_000 && i < 100_000 { 2 } else { 1 };
        if (arc.0 as usize, arc.1, arc.2) != (i, 0x1_0000, count) {
            return Some((i, arc));
        }
    }
    None
}

/// What adding two of these answers, half of whose addresses are in both, and what the sum has.
type Called = (
    Result<(), SumRefusal>,
    (usize, usize, usize),
    (u64, u64, u64),
    Option<(usize, (u32, u32, u64))>,
);

fn called_twice(alloc: Global) -> Result<Called, AllocError> {
    let mut total = called(alloc, 0)?;
    let more = called(alloc, 50_000)?;
    let answer = add_more(&mut total, &more);
    Ok((
        answer,
        counts_of(&total),
        totals_of(&total),
        first_other_call(&total),
    ))
}

#[test]
fn a_hundred_thousand_of_each(rt: HostRuntime) -> Result<(), Fail> {
    let told = called_twice(rt.alloc())?;
    assert_eq!(rt;
        told,
        (Ok(()), (0, 150_000, 150_000), (0, 200_000, 200_000), None)
    );
    Ok(())
}

/// Adds a call of the first of these pairs, which came by ascending call site.
fn call_again(profile: &mut Profile) -> Result<(), AllocError>
    requires { IsAtMost profile.old 200000 }
{
    profile.add_calls(0, 0x1_0000, 1)
}

/// The arcs and the calls of a profile of these, where that pair comes again.
fn called_again(alloc: Global) -> Result<(usize, u64), AllocError> {
    let mut profile = called(alloc, 0)?;
    call_again(&mut profile)?;
    Ok((profile.arc_count(), profile.calls()))
}

#[test]
fn a_pair_comes_again_behind_many(rt: HostRuntime) -> Result<(), Fail> {
    assert_eq!(rt; called_again(rt.alloc())?, (100_000, 100_001));
    Ok(())
}

/// The rows of 2,000 histograms of 8 addresses, 16 apart.
fn striped(alloc: Global, first: u32) -> Result<Vec<(u32, u32, u64)>, AllocError> {
    let mut rows = Vec::new(alloc);
    for i in 0..2_000u32 {
        let low = first.wrapping_add(16 * i);
        rows.push((low, low.wrapping_add(8), 1))?;
    }
    Ok(rows)
}

/// The first histogram of their sum that isn't the one of its place: its number, and where it begins.
fn first_other_stripe(total: &Profile) -> Option<(usize, u32)> {
    for i in 0..total.hist_count() {
        let low = total.hist(i).low;
        if low % 8 != 0 || low as usize / 8 != i {
            return Some((i, low));
        }
    }
    None
}

/// What adding profiles of such rows answers, and what the sum has.
type Stripes = (Result<(), SumRefusal>, usize, u64, Option<(usize, u32)>);

fn stripes_added(
    alloc: Global,
    even: &[(u32, u32, u64)],
    odd: &[(u32, u32, u64)],
) -> Result<Stripes, AddRefusal> {
    let first = Rows {
        hists: even,
        ..NOTHING
    };
    let second = Rows {
        hists: odd,
        ..NOTHING
    };
    let mut total = profile_of_rows(alloc, first)?;
    let more = profile_of_rows(alloc, second)?;
    let answer = add_rows(&mut total, &more);
    Ok((
        answer,
        total.hist_count(),
        total.samples(),
        first_other_stripe(&total),
    ))
}

fn two_stripes(alloc: Global) -> Result<Stripes, AddRefusal> {
    let even = striped(alloc, 0)?;
    let odd = striped(alloc, 8)?;
    stripes_added(alloc, even.as_slice(), odd.as_slice())
}

#[test]
fn two_thousand_histograms_each(rt: HostRuntime) -> Result<(), Fail> {
    let told = two_stripes(rt.alloc())?;
    assert_eq!(rt; told, (Ok(()), 4_000, 4_000, None));
    Ok(())
}
