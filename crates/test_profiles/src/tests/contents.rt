ghost use Rattle.std.specs.Prelude.{◌≡◌, ◌+◌, ◌*◌, ◌<◌, ◌≤◌, [], ◌∷◌, length, sum, IfOk, OnOk};
ghost use Rattle.std.specs.List.{All};
ghost use Rattle.gp_base.specs.Spans.{HasRange};
ghost use Rattle.gmon_data.specs.Content.{empty_content, wide_records, with_records, IsWithin};
ghost use Rattle.gmon_data.specs.Sizes.{IsOfBytes};

use super::looks::{counts_of, has_arcs, totals_of};
use crate::{PER_100, boxed, new_profile, seconds};
use gmon_data::{AddRefusal, Hist, HistRange, Profile, Unlike};
use gp_base::{
    BlockList, Counts, Form, RawArc, RawBlock, RawHist, Rec, RecList, Records, Totals, Unit,
};
use std::alloc::{AllocError, Global};
use std::process::Abort;
use std::test::Fail;

/// A histogram of the counters 1, 2, 0 and 0.
fn histogram(alloc: Global, rate: u32) -> Result<RawHist, AllocError>
    ensures low { IfOk result (λ hist. hist.low ≡ 65536) }
    ensures high { IfOk result (λ hist. hist.high ≡ 65552) }
    ensures counters { IfOk result (λ hist. hist.counters ≡ 1 ∷ 2 ∷ 0 ∷ 0 ∷ []) }
{
    let counters = Counts::from(Vec::from_slice(alloc, &[1, 2, 0, 0])?);
    Ok(RawHist {
        low: 0x1_0000,
        high: 0x1_0010,
        unit: seconds(rate),
        counters,
    })
}

/// Two histograms of one range, the second of the given rate, an arc and a blocks record.
fn file(alloc: Global, rate: u32) -> Result<Records, AllocError>
    ensures ranges { IfOk result (λ records. All HasRange records.recs) }
    ensures within { IfOk result (λ records.
        IsWithin (with_records (wide_records records.recs) empty_content)) }
{
    let mut blocks = BlockList::new(alloc);
    blocks.push(RawBlock {
        addr: 0x1_0000,
        count: 9,
    })?;
    let mut recs = RecList::new(alloc);
    recs.push(Rec::Hist(histogram(alloc, 100)?))?;
    recs.push(Rec::Hist(histogram(alloc, rate)?))?;
    recs.push(Rec::Arc(RawArc {
        from: 0x1_0004,
        to: 0x1_0008,
        count: 0,
    }))?;
    recs.push(Rec::Blocks(blocks))?;
    Ok(Records {
        form: Form::Gnu,
        recs,
    })
}

/// A histogram of so many samples, one in each counter.
fn even(alloc: Global, low: u32, high: u32, count: u8) -> Result<Hist, AllocError>
    ensures low { IfOk result (λ hist. hist.low ≡ low) }
    ensures high { IfOk result (λ hist. hist.high ≡ high) }
    ensures counters { IfOk result (λ hist. length hist.counters ≤ 255) }
    ensures samples { IfOk result (λ hist. sum hist.counters ≡ length hist.counters) }
{
    let counters = Totals::from(vec![in alloc; 1u64; usize::from(count)]?);
    Ok(Hist {
        low,
        high,
        counters,
    })
}

/// The counters of the first histogram, if there is one.
fn first_counters(profile: &Profile) -> &[u64] {
    if profile.hist_count() == 0 {
        return &[];
    }
    profile.hist(0).counters.as_slice()
}

/// The counters of a file's one histogram, whether or not the second one was added to it; how many
/// histograms, arcs and block addresses there are; and samples, calls and executions.
type Added = ([u64; 4], (usize, usize, usize), (u64, u64, u64));

const WHOLE_FILE: Added = ([2, 4, 0, 0], (1, 1, 1), (6, 0, 9));

/// Nothing stands behind the refused histogram.
const FIRST_ALONE: Added = ([1, 2, 0, 0], (1, 0, 0), (3, 0, 0));

/// The rate of a file's second histogram, what adding the file answers, and what is added then.
const SECOND_RATES: &[(&'static str, u32, Result<(), AddRefusal>, Added)] = &[
    ("the same rate", 100, Ok(()), WHOLE_FILE),
    ("a rate of 0", 0, Ok(()), WHOLE_FILE),
    (
        "another rate",
        50,
        Err(AddRefusal::Unlike(Unlike::Rate { old: 100, new: 50 })),
        FIRST_ALONE,
    ),
];

/// This was added of a file.
fn expect_added(rt: &impl Abort, profile: &Profile, want: Added, name: &str) {
    let (counters, counts, totals) = want;
    let told = (counts_of(profile), totals_of(profile));
    assert_eq!(rt;
        (profile.unit(), first_counters(profile), told),
        (Some(PER_100), counters.as_slice(), (counts, totals)),
        "{name}"
    );
}

/// Adds a file whose second histogram is of the given rate.
fn add_file(alloc: Global, profile: &mut Profile, rate: u32) -> Result<(), AddRefusal>
    requires { profile.old ≡ empty_content }
{
    let records = file(alloc, rate)?;
    profile.add_records(&records)
}

/// A file whose second histogram is of the given rate has this answer, and this is added.
fn file_is_added(
    rt: &impl Abort,
    alloc: Global,
    name: &str,
    rate: u32,
    answer: Result<(), AddRefusal>,
    want: Added,
) -> Result<(), AllocError> {
    let mut profile = new_profile(alloc)?;
    assert_eq!(rt; add_file(alloc, &mut profile, rate), answer, "{name}");
    expect_added(rt, &profile, want, name);
    Ok(())
}

#[test]
fn the_profile_of_a_file(rt: HostRuntime) -> Result<(), Fail> {
    for (name, rate, answer, want) in SECOND_RATES {
        file_is_added(&rt, rt.alloc(), name, *rate, *answer, *want)?;
    }
    Ok(())
}

/// Adds a histogram, arcs and executions, each as a file's parts.
fn add_parts(profile: &mut Profile) -> Result<(), AddRefusal>
    requires { profile.old ≡ empty_content }
{
    let arc = RawArc {
        from: 0x1_0004,
        to: 0x1_0008,
        count: 3,
    };
    let block = RawBlock {
        addr: 0x1_0000,
        count: 9,
    };
    profile.add_counts(0x1_0000, 0x1_0010, seconds(0), &[1, 2, 0, 0])?;
    profile.add_arcs(&[arc, RawArc { from: 0, ..arc }, arc])?;
    profile.add_blocks(&[block, RawBlock { addr: 8, ..block }, block])?;
    Ok(())
}

/// A profile to which these were added.
fn added_in_parts(alloc: Global) -> Result<Box<Profile>, AddRefusal> {
    let mut profile = new_profile(alloc)?;
    add_parts(&mut profile)?;
    Ok(profile)
}

const ARCS_IN_PARTS: [(u32, u32, u64); 2] = [(0x1_0004, 0x1_0008, 6), (0, 0x1_0008, 3)];

fn expect_parts(rt: &impl Abort, profile: &Profile) {
    assert_eq!(rt;
        (profile.unit(), first_counters(profile)),
        (Some(PER_100), [1, 2, 0, 0].as_slice())
    );
    assert_eq!(rt;
        (
            has_arcs(profile, &ARCS_IN_PARTS),
            profile.block_count(),
            profile.block_of(0x1_0000),
            profile.block_of(8)
        ),
        (true, 2, 18, 9)
    );
}

#[test]
fn the_parts_of_a_file(rt: HostRuntime) -> Result<(), Fail> {
    let profile = added_in_parts(rt.alloc())?;
    expect_parts(&rt, &profile);
    Ok(())
}

/// The range of the one histogram that a profile has.
const KEPT: HistRange = HistRange {
    low: 0x1_0000,
    high: 0x1_0010,
    count: 4,
};

/// Adds that histogram, of a hundred samples a second.
fn add_kept(alloc: Global, profile: &mut Profile) -> Result<(), AddRefusal>
    requires { profile.old ≡ empty_content }
    ensures { OnOk result (IsOfBytes 510 profile.new) }
{
    let hist = even(alloc, 0x1_0000, 0x1_0010, 4)?;
    profile.add_wide(&hist, seconds(100))?;
    Ok(())
}

/// A profile of that histogram.
fn one_histogram(alloc: Global) -> Result<Box<Profile>, AddRefusal>
    ensures { IfOk result (λ profile. IsOfBytes 510 profile.value) }
{
    let mut profile = new_profile(alloc)?;
    add_kept(alloc, &mut profile)?;
    Ok(profile)
}

/// The unit of no samples a second, which counts as a hundred.
const PER_0: Unit = Unit { rate: 0, ..PER_100 };

const PER_50: Unit = Unit {
    rate: 50,
    ..PER_100
};

const MINUTES: Unit = Unit {
    abbrev: b'm',
    ..PER_100
};

const BEATS: Unit = Unit {
    dim: *b"beats\0\0\0\0\0\0\0\0\0\0",
    ..PER_100
};

const TOO_LOW: HistRange = HistRange {
    low: 0xFFF0,
    high: 0x1_0001,
    ..KEPT
};

const TOO_HIGH: HistRange = HistRange {
    low: 0x1_000F,
    high: 0x1_0020,
    ..KEPT
};

const ONE_MORE: HistRange = HistRange { count: 5, ..KEPT };

/// The range of a second histogram, how many counters it has, its unit, and what it is unlike in.
type Second = (u32, u32, u8, Unit, Option<Unlike>);

const SECONDS: &[(&'static str, Second)] = &[
    ("the same", (0x1_0000, 0x1_0010, 4, PER_0, None)),
    ("above", (0x1_0010, 0x1_0020, 4, PER_100, None)),
    ("below", (0xFFF0, 0x1_0000, 4, PER_100, None)),
    ("no counters", (0x1_0008, 0x1_0018, 0, MINUTES, None)),
    (
        "one address too low",
        (
            0xFFF0,
            0x1_0001,
            4,
            PER_100,
            Some(Unlike::Range {
                old: KEPT,
                new: TOO_LOW,
            }),
        ),
    ),
    (
        "one address too high",
        (
            0x1_000F,
            0x1_0020,
            4,
            MINUTES,
            Some(Unlike::Range {
                old: KEPT,
                new: TOO_HIGH,
            }),
        ),
    ),
    (
        "one counter more",
        (
            0x1_0000,
            0x1_0010,
            5,
            PER_50,
            Some(Unlike::Range {
                old: KEPT,
                new: ONE_MORE,
            }),
        ),
    ),
    (
        "another rate",
        (
            0x1_0010,
            0x1_0020,
            4,
            PER_50,
            Some(Unlike::Rate { old: 100, new: 50 }),
        ),
    ),
    (
        "another abbreviation",
        (
            0x1_0000,
            0x1_0010,
            4,
            MINUTES,
            Some(Unlike::Dimension {
                old: PER_100,
                new: MINUTES,
            }),
        ),
    ),
    (
        "another dimension",
        (
            0x1_0010,
            0x1_0020,
            1,
            BEATS,
            Some(Unlike::Dimension {
                old: PER_100,
                new: BEATS,
            }),
        ),
    ),
];

/// Adds a second histogram.
fn add_second(
    alloc: Global,
    profile: &mut Profile,
    low: u32,
    high: u32,
    count: u8,
    unit: Unit,
) -> Result<(), AddRefusal>
    requires range { low < high }
    requires first { IsOfBytes 510 profile.old }
{
    let hist = even(alloc, low, high, count)?;
    profile.add_wide(&hist, unit)
}

/// What adding a second histogram answers.
fn second_added(alloc: Global, low: u32, high: u32, count: u8, unit: Unit) -> Result<(), AddRefusal>
    requires { low < high }
{
    let mut profile = one_histogram(alloc)?;
    add_second(alloc, &mut profile, low, high, count, unit)
}

fn second_is_answered(rt: &impl Abort, alloc: Global, name: &str, second: Second) {
    let (low, high, count, unit, unlike) = second;
    assert!(rt; low < high, "{name}");
    let answer = match unlike {
        None => Ok(()),
        Some(unlike) => Err(AddRefusal::Unlike(unlike)),
    };
    assert_eq!(rt;
        second_added(alloc, low, high, count, unit),
        answer,
        "{name}"
    );
}

#[test]
fn histograms_that_are_unlike(rt: HostRuntime) {
    for (name, second) in SECONDS {
        second_is_answered(&rt, rt.alloc(), name, *second);
    }
}

/// The first arc and the first block address, if there are any.
type Firsts = (Option<(u32, u32, u64)>, Option<(u32, u64)>);

fn firsts(profile: &Profile) -> Firsts {
    let arc = if profile.arc_count() > 0 {
        Some(profile.arc(0))
    } else {
        None
    };
    let block = if profile.block_count() > 0 {
        Some(profile.block(0))
    } else {
        None
    };
    (arc, block)
}

/// Adds one pair, with more calls than 32 bits can say.
fn add_large_pair(profile: &mut Profile) -> Result<(), AllocError>
    requires { profile.old ≡ empty_content }
{
    let arc = RawArc {
        from: 0x1_0004,
        to: 0x1_0008,
        count: 5,
    };
    profile.expect_records(&[arc], &[]);
    profile.add_calls(arc.from, arc.to, 1 << 58)?;
    profile.add_arc(arc)
}

/// Adds one block address, with more executions than 32 bits can say.
fn add_large_block(profile: &mut Profile) -> Result<(), AllocError>
    requires { profile.old ≡ empty_content }
{
    let block = RawBlock {
        addr: 0x1_0000,
        count: 9,
    };
    profile.expect_records(&[], &[block]);
    profile.add_runs(block.addr, 1 << 57)?;
    profile.add_block(block)
}

/// The first arc and the first block address of a profile of that pair.
fn large_pair(alloc: Global) -> Result<Firsts, AllocError> {
    let mut profile = new_profile(alloc)?;
    add_large_pair(&mut profile)?;
    Ok(firsts(&profile))
}

/// The first arc and the first block address of a profile of that address, and the executions of it and
/// of the next one.
fn large_block(alloc: Global) -> Result<(Firsts, u64, u64), AllocError> {
    let mut profile = new_profile(alloc)?;
    add_large_block(&mut profile)?;
    Ok((
        firsts(&profile),
        profile.block_of(0x1_0000),
        profile.block_of(0x1_0004),
    ))
}

#[test]
fn calls_of_64_bits(rt: HostRuntime) -> Result<(), Fail> {
    let arc = (0x1_0004, 0x1_0008, (1 << 58) + 5);
    assert_eq!(rt; large_pair(rt.alloc())?, (Some(arc), None));
    Ok(())
}

#[test]
fn executions_of_64_bits(rt: HostRuntime) -> Result<(), Fail> {
    let count = (1 << 57) + 9;
    assert_eq!(rt;
        large_block(rt.alloc())?,
        ((None, Some((0x1_0000, count))), count, 0)
    );
    Ok(())
}

/// A blocks record of 100,000 addresses, and 100,000 arcs, of one execution and of one call each.
fn many_records(alloc: Global) -> Result<Records, AllocError>
    ensures ranges { IfOk result (λ records. All HasRange records.recs) }
    ensures within { IfOk result (λ records.
        IsWithin (with_records (wide_records records.recs) empty_content)) }
{
    let mut blocks = BlockList::new(alloc);
    for i in 0..100_000u32 {
        blocks.push(RawBlock {
            addr: 0x1_0000 + 4 * i,
            count: 1,
        })?;
    }
    let mut recs = RecList::new(alloc);
    recs.push(Rec::Blocks(blocks))?;
    for k in 0..100_000u32 {
        recs.push(Rec::Arc(RawArc {
            from: 0x80_0000 - 4 * k,
            to: 0x1_0000,
            count: 1,
        }))?;
    }
    Ok(Records {
        form: Form::Gnu,
        recs,
    })
}

/// Adds those records.
fn add_many(alloc: Global, profile: &mut Profile) -> Result<(), AddRefusal>
    requires { profile.old ≡ empty_content }
{
    let records = many_records(alloc)?;
    profile.add_records(&records)
}

/// A clone of a profile, in a box.
fn cloned(alloc: Global, profile: &Profile) -> Result<Box<Profile>, AllocError> {
    boxed(alloc, profile.try_clone()?)
}

/// The clone of a profile of those records.
fn many_added(alloc: Global) -> Result<Box<Profile>, AddRefusal> {
    let mut profile = new_profile(alloc)?;
    add_many(alloc, &mut profile)?;
    Ok(cloned(alloc, &profile)?)
}

/// How many histograms, arcs and block addresses there are; and samples, calls and executions.
const MANY: ((usize, usize, usize), (u64, u64, u64)) = (
    (0, 100_000, 100_000),
    (0, 100_000, 100_000),
);

/// The first arc that isn't the one of its place, and its number.
fn first_other_arc(profile: &Profile) -> Option<(usize, (u32, u32, u64))> {
    for i in 0..profile.arc_count() {
        let arc = profile.arc(i);
        if (arc.0 as usize + 4 * i, arc.1, arc.2) != (0x80_0000, 0x1_0000, 1) {
            return Some((i, arc));
        }
    }
    None
}

fn expect_many(rt: &impl Abort, profile: &Profile) {
    let told = (counts_of(profile), totals_of(profile));
    assert_eq!(rt; (profile.unit(), told), (None, MANY));
    assert_eq!(rt; first_other_arc(profile), None);
}

#[test]
fn a_hundred_thousand_records(rt: HostRuntime) -> Result<(), Fail> {
    let profile = many_added(rt.alloc())?;
    expect_many(&rt, &profile);
    Ok(())
}

/// The conflict of a histogram of four counters with the one that a profile has.
fn conflict_of(alloc: Global, low: u32, rate: u32) -> Result<Option<Unlike>, AddRefusal> {
    let profile = one_histogram(alloc)?;
    let range = HistRange { low, ..KEPT };
    Ok(profile.conflict(range, seconds(rate)))
}

/// Where a histogram begins, its rate, and its conflict.
const CONFLICTS: &[(u32, u32, Option<Unlike>)] = &[
    (0x1_0000, 0, None),
    (0x1_0010, 0, None),
    (0x1_0000, 50, Some(Unlike::Rate { old: 100, new: 50 })),
    (
        0x1_0004,
        50,
        Some(Unlike::Range {
            old: KEPT,
            new: HistRange {
                low: 0x1_0004,
                ..KEPT
            },
        }),
    ),
];

#[test]
fn a_conflict_is_told(rt: HostRuntime) -> Result<(), Fail> {
    for (low, rate, conflict) in CONFLICTS {
        assert_eq!(rt; conflict_of(rt.alloc(), *low, *rate)?, *conflict);
    }
    Ok(())
}

/// In which order the histograms of a profile come.
#[derive(Clone, Copy)]
enum Order {
    Ascending,
    Descending,
    EverySecondFirst,
}

/// Where the histogram that comes `k`-th lies, of so many side by side.
fn place_at(order: Order, k: u32, count: u32) -> u32
    requires within { k < count }
    requires few { count ≤ 1000000 }
    ensures { result ≤ 2000000 }
{
    let half = count.div_ceil(2);
    match order {
        Order::Ascending => k,
        Order::Descending => count - 1 - k,
        Order::EverySecondFirst => { if k < half { 2 * k } else { 2 * (k - half) + 1 } }
    }
}

/// A histogram of one counter.
fn single(alloc: Global, place: u32) -> Result<Hist, AllocError>
    requires { place ≤ 2000000 }
    ensures range { IfOk result (λ hist. hist.low < hist.high) }
    ensures counters { IfOk result (λ hist. hist.counters ≡ 1 ∷ []) }
{
    let mut counters = Totals::new(alloc);
    counters.push(1)?;
    Ok(Hist {
        low: 16 * place,
        high: 16 * place + 16,
        counters,
    })
}

/// Adds the histogram that comes `k`-th.
fn add_next(
    profile: &mut Profile,
    alloc: Global,
    order: Order,
    k: u32,
    count: u32,
) -> Result<(), AddRefusal>
    requires within { k < count }
    requires few { count ≤ 1000000 }
    requires before { IsOfBytes (2 * k) profile.old }
    ensures { OnOk result (IsOfBytes (2 * (k + 1)) profile.new) }
{
    let hist = single(alloc, place_at(order, k, count))?;
    profile.add_wide(&hist, seconds(100))?;
    Ok(())
}

/// Adds so many histograms of one counter each, side by side, in an order.
fn add_side_by_side(
    profile: &mut Profile,
    alloc: Global,
    order: Order,
    count: u32,
) -> Result<(), AddRefusal>
    requires empty { profile.old ≡ empty_content }
    requires few { count ≤ 1000000 }
{
    for k in 0..count {
        add_next(profile, alloc, order, k, count)?;
    }
    Ok(())
}

/// Whether each histogram is the one of its place.
fn is_side_by_side(profile: &Profile) -> bool {
    for i in 0..profile.hist_count() {
        let hist = profile.hist(i);
        let place = hist.low / 16;
        if place as usize != i || hist.low % 16 != 0 || hist.counters.as_slice() != [1].as_slice() {
            return false;
        }
    }
    true
}

/// An order, and how many histograms come in it.
const ORDERS: &[(&'static str, Order, u32)] = &[
    ("ascending", Order::Ascending, 3000),
    ("descending", Order::Descending, 3000),
    ("every second one first", Order::EverySecondFirst, 3000),
    ("one chunk", Order::Descending, 512),
    ("two chunks", Order::Descending, 513),
    ("one", Order::EverySecondFirst, 1),
];

fn expect_side_by_side(rt: &impl Abort, profile: &Profile, name: &str, count: u32) {
    let told = (profile.hist_count(), profile.samples());
    assert_eq!(rt;
        (told, is_side_by_side(profile)),
        ((count as usize, u64::from(count)), true),
        "{name}"
    );
}

/// Looks at a profile whose histograms came in an order, and at its clone.
fn stand_in_order(
    rt: &impl Abort,
    alloc: Global,
    name: &str,
    order: Order,
    count: u32,
) -> Result<(), AddRefusal> {
    assert!(rt; count <= 1_000_000, "{name}");
    let mut added = new_profile(alloc)?;
    add_side_by_side(&mut added, alloc, order, count)?;
    expect_side_by_side(rt, &added, name, count);
    let clone = cloned(alloc, &added)?;
    expect_side_by_side(rt, &clone, name, count);
    Ok(())
}

#[test]
fn histograms_in_any_order(rt: HostRuntime) -> Result<(), Fail> {
    for (name, order, count) in ORDERS {
        stand_in_order(&rt, rt.alloc(), name, *order, *count)?;
    }
    Ok(())
}
