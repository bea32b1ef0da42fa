ghost use Rattle.std.specs.Prelude.{◌≡◌, ◌+◌, ◌<◌, Some, IfSome, IfOk};
ghost use Rattle.mcount_arcs.specs.declared.state.State.TheVariants.{Busy};
ghost use Rattle.mcount_arcs.specs.Sizes.{IsText};

use crate::boxed;
use gp_base::{RawArc, Span};
use mcount_arcs::{Entered, Gmon, Looked, Sizes, State, Walk};
use std::alloc::{AllocError, Global};
use std::process::Abort;
use std::test::Fail;

/// The text from 0x10000 to below 0x10100.
const TEXT: Span = Span {
    low: 0x0001_0000,
    high: 0x0001_0100,
};

// The sizes for a text from 0x10000 of so many bytes.
fn has_sizes(rt: &impl Abort, bytes: u32, tolimit: u32)
    requires { IsText (record { low = 65536; high = 65536 + bytes }) }
{
    let sizes = Sizes::of(
        Span {
            low: 0x0001_0000,
            high: 0x0001_0000 + bytes,
        },
        2,
        2,
    );
    assert_eq!(rt;
        (sizes.tolimit, sizes.counters, sizes.slots),
        (tolimit, bytes / 4, bytes / 4),
        "entries, counters and slots of {bytes} bytes"
    );
}

#[test]
fn sizes_of_texts(rt: HostRuntime) {
    has_sizes(&rt, 256, 50);
    has_sizes(&rt, 2_600, 52);
    has_sizes(&rt, 3_276_696, 65_533);
    has_sizes(&rt, 3_276_700, 65_534);
    has_sizes(&rt, 3_276_752, 65_534);
    has_sizes(&rt, 16_777_216, 65_534);
    expect_sizes(
        &rt,
        "low is rounded down and high up",
        Sizes::of(
            Span {
                low: 0x0001_0002,
                high: 0x0001_00FD,
            },
            2,
            2,
        ),
        Sizes {
            low: 0x0001_0000,
            high: 0x0001_0100,
            counters: 64,
            slots: 64,
            tolimit: 50,
            hist: 2,
            hash: 2,
        },
    );
}

fn expect_sizes(rt: &impl Abort, name: &str, sizes: Sizes, wanted: Sizes) {
    assert_eq!(rt; sizes, wanted, "{name}");
}

#[test]
fn sizes_of_other_fractions(rt: HostRuntime) {
    expect_sizes(
        &rt,
        "fewer counters than slots",
        Sizes::of(TEXT, 8, 4),
        Sizes {
            low: 0x0001_0000,
            high: 0x0001_0100,
            counters: 16,
            slots: 32,
            tolimit: 50,
            hist: 8,
            hash: 4,
        },
    );
    expect_sizes(
        &rt,
        "the larger fraction rounds",
        Sizes::of(
            Span {
                low: 0x0001_0030,
                high: 0x0001_0050,
            },
            16,
            2,
        ),
        Sizes {
            low: 0x0001_0020,
            high: 0x0001_0060,
            counters: 2,
            slots: 16,
            tolimit: 50,
            hist: 16,
            hash: 2,
        },
    );
}

// A runtime for that text, of 64 slots and 50 entries.
fn started(alloc: Global) -> Result<Box<Gmon>, AllocError> {
    boxed(alloc, Gmon::startup(alloc, TEXT, 2, 2)?)
}

// What counter `i` holds, if there is one.
fn count_at(gmon: &Gmon, i: u32) -> Option<u16> {
    if i < gmon.sizes().counters {
        Some(gmon.counter(i))
    } else {
        None
    }
}

// The arcs in a list.
fn copied(alloc: Global, gmon: &Gmon) -> Result<Vec<RawArc>, AllocError>
    ensures { IfOk result (λ arcs. arcs.items ≡ gmon.now.arcs) }
{
    let mut arcs = Vec::new(alloc);
    for arc in gmon.arcs() {
        arcs.push(arc)?;
    }
    Ok(arcs)
}

fn expect_new(rt: &impl Abort, gmon: &Gmon) {
    assert_eq!(rt;
        (gmon.state(), gmon.sampling(), gmon.calls(), gmon.pairs()),
        (State::On, true, 0, 0)
    );
    assert_eq!(rt; gmon.arcs().next(), None);
    let bytes = gmon.block_bytes();
    assert_eq!(rt; bytes.len(), 856);
    assert!(rt; bytes.iter().all(|byte| *byte == 0));
}

#[test]
fn a_new_runtime(rt: HostRuntime) -> Result<(), Fail> {
    let gmon = started(rt.alloc())?;
    expect_new(&rt, &gmon);
    Ok(())
}

// One counter is 1, if one is, and the others are 0; there are 64.
fn expect_one_count(rt: &impl Abort, gmon: &Gmon, pc: u32, wanted: Option<u32>) {
    for i in 0..65 {
        let count = if wanted == Some(i) { 1 } else { 0 };
        assert_eq!(rt;
            count_at(gmon, i),
            (i < 64).then_some(count),
            "counter {i} after a tick at {pc}"
        );
    }
}

// The counters after one tick.
fn counts_at(
    rt: &impl Abort,
    alloc: Global,
    pc: u32,
    wanted: Option<u32>,
) -> Result<(), AllocError> {
    let mut gmon = started(alloc)?;
    gmon.tick(pc);
    expect_one_count(rt, &gmon, pc, wanted);
    Ok(())
}

/// Where a sample is, and the counter that it raises.
const TICKS: &[(u32, Option<u32>)] = &[
    (0x0001_0000, Some(0)),
    (0x0001_0003, Some(0)),
    (0x0001_0004, Some(1)),
    (0x0001_00FC, Some(63)),
    (0x0001_00FF, Some(63)),
    (0x0001_0100, None),
    (0x0000_FFFF, None),
    (0xFFFF_FFFF, None),
];

#[test]
fn a_tick_raises_the_counter_of_its_four_bytes(rt: HostRuntime) -> Result<(), Fail> {
    for (pc, wanted) in TICKS {
        counts_at(&rt, rt.alloc(), *pc, *wanted)?;
    }
    Ok(())
}

fn expect_full(rt: &impl Abort, gmon: &mut Gmon) {
    for _ in 0..65_535 {
        gmon.tick(0x0001_0002);
    }
    let full = count_at(gmon, 0);
    gmon.tick(0x0001_0002);
    assert_eq!(rt; (full, count_at(gmon, 0)), (Some(65_535), Some(65_535)));
}

#[test]
fn a_full_counter_stays(rt: HostRuntime) -> Result<(), Fail> {
    let mut gmon = started(rt.alloc())?;
    expect_full(&rt, &mut gmon);
    Ok(())
}

// What a call came to, and after how many looks.
#[derive(Clone, Copy, Debug, PartialEq, Eq)]
enum Outcome {
    Ignored,
    Lost,
    Counted(usize),
    Overflowed(usize),
}

// The looks of a walk to its end.
fn walked(gmon: &mut Gmon, first: Walk) -> Outcome
    requires { gmon.old.walk ≡ Some first }
{
    let mut walk = first;
    for looks in 1..65_536 {
        match gmon.look(walk) {
            Looked::More(next) => walk = next,
            Looked::Counted => return Outcome::Counted(looks),
            Looked::Overflowed => return Outcome::Overflowed(looks),
        }
    }
    Outcome::Lost
}

// A call, entered to its end.
fn called(gmon: &mut Gmon, from: u32, to: u32) -> Outcome {
    if gmon.calls() == u32::MAX {
        return Outcome::Lost;
    }
    match gmon.enter(from, to) {
        Entered::Ignored => Outcome::Ignored,
        Entered::Lost => Outcome::Lost,
        Entered::Walking(first) => walked(gmon, first),
    }
}

// The walk of a call that begins.
fn begun(gmon: &mut Gmon, from: u32, to: u32) -> Option<Walk>
    ensures walk { IfSome result (λ walk. gmon.new.walk ≡ Some walk) }
    ensures busy { IfSome result (λ walk. gmon.new.state ≡ Busy) }
    ensures calls { IfSome result (λ walk. gmon.new.calls < 4294967295) }
{
    if gmon.calls() == u32::MAX {
        return None;
    }
    match gmon.enter(from, to) {
        Entered::Walking(walk) => Some(walk),
        _ => None,
    }
}

const SITE: u32 = 0x0001_0010;

/// From where and to where a call goes, what it comes to, and how many pairs are kept then.
type Call = (u32, u32, Outcome, u32);

/// Calls of three callees of the site.
const FOUR_CALLS: &[Call] = &[
    (SITE, 0x0001_0040, Outcome::Counted(1), 1),
    (SITE, 0x0001_0080, Outcome::Counted(1), 2),
    (SITE, 0x0001_0040, Outcome::Counted(2), 2),
    (SITE, 0x0001_00C0, Outcome::Counted(2), 3),
];

/// The arcs of those calls.
const THREE_ARCS: &[RawArc] = &[
    RawArc {
        from: SITE,
        to: 0x0001_00C0,
        count: 1,
    },
    RawArc {
        from: SITE,
        to: 0x0001_0040,
        count: 2,
    },
    RawArc {
        from: SITE,
        to: 0x0001_0080,
        count: 1,
    },
];

/// Their entries in the block.
const FOUR_ENTRIES: [u8; 48] = [
    0, 0, 0, 0, 0, 0, 0, 0, 3, 0, 0, 0, // three were given out
    0x40, 0, 1, 0, 2, 0, 0, 0, 2, 0, 0, 0, // two calls, linked to the second
    0x80, 0, 1, 0, 1, 0, 0, 0, 0, 0, 0, 0, // the last of the chain
    0xC0, 0, 1, 0, 1, 0, 0, 0, 1, 0, 0, 0, // the front, linked to the first
];

fn expect_calls(rt: &impl Abort, gmon: &mut Gmon, calls: &[Call]) {
    for (from, to, outcome, pairs) in calls {
        let told = called(gmon, *from, *to);
        assert_eq!(rt;
            (told, gmon.pairs()),
            (*outcome, *pairs),
            "a call of {to} from {from}"
        );
    }
}

// What the runtime holds of so many calls: these arcs, in this order.
fn expect_arcs(
    rt: &impl Abort,
    alloc: Global,
    gmon: &Gmon,
    calls: u32,
    wanted: &[RawArc],
) -> Result<(), AllocError> {
    let arcs = copied(alloc, gmon)?;
    assert_eq!(rt;
        (arcs.as_slice(), gmon.calls(), gmon.pairs() as usize),
        (wanted, calls, wanted.len())
    );
    Ok(())
}

fn expect_entries(rt: &impl Abort, bytes: &[u8]) {
    assert_eq!(rt; bytes.get(..48), Some(FOUR_ENTRIES.as_slice()));
    assert_eq!(rt; bytes.get(600 + 128 + 8).copied(), Some(3), "slot 4");
}

#[test]
fn a_found_arc_moves_to_the_front(rt: HostRuntime) -> Result<(), Fail> {
    let mut gmon = started(rt.alloc())?;
    expect_calls(&rt, &mut gmon, FOUR_CALLS);
    expect_arcs(&rt, rt.alloc(), &gmon, 4, THREE_ARCS)?;
    expect_entries(&rt, gmon.block_bytes());
    Ok(())
}

/// Calls from two sites of one slot, and from one of another.
const WIDE_CALLS: &[Call] = &[
    (0x0001_0010, 0x0001_0080, Outcome::Counted(1), 1),
    (0x0001_0014, 0x0001_0080, Outcome::Counted(1), 1),
    (0x0001_0018, 0x0001_0080, Outcome::Counted(1), 2),
];

/// What some counters of sixteen bytes each hold.
const WIDE_COUNTERS: &[(u32, Option<u16>)] = &[
    (0, Some(1)),
    (1, Some(2)),
    (15, Some(1)),
    (16, None),
];

// The samples of those counters.
fn tick_wide(gmon: &mut Gmon) {
    for pc in [0x0001_000F, 0x0001_0010, 0x0001_001F, 0x0001_00FF] {
        gmon.tick(pc);
    }
}

fn expect_wide(rt: &impl Abort, gmon: &Gmon) {
    let first = RawArc {
        from: 0x0001_0010,
        to: 0x0001_0080,
        count: 2,
    };
    assert_eq!(rt;
        (gmon.arcs().next(), gmon.block_bytes().len()),
        (Some(first), 696)
    );
    for (i, count) in WIDE_COUNTERS {
        assert_eq!(rt; count_at(gmon, *i), *count, "counter {i}");
    }
}

#[test]
fn wider_counters_and_slots(rt: HostRuntime) -> Result<(), Fail> {
    let mut gmon = boxed(rt.alloc(), Gmon::startup(rt.alloc(), TEXT, 8, 4)?)?;
    expect_calls(&rt, &mut gmon, WIDE_CALLS);
    tick_wide(&mut gmon);
    expect_wide(&rt, &gmon);
    Ok(())
}

// The first 49 callees are counted, each after the looks at those before it; the fiftieth has no place.
fn run_out(rt: &impl Abort, gmon: &mut Gmon) {
    for to in 0..50u32 {
        let state = gmon.state();
        let outcome = if to < 49 {
            Outcome::Counted(to.max(1) as usize)
        } else {
            Outcome::Overflowed(49)
        };
        assert_eq!(rt;
            (state, called(gmon, SITE, to)),
            (State::On, outcome),
            "a call of {to}"
        );
    }
}

// The arcs are in the order of before, and entry 0 has been asked for fifty.
fn expect_forty_nine(rt: &impl Abort, gmon: &Gmon) {
    assert_eq!(rt;
        (
            gmon.calls(),
            gmon.pairs(),
            gmon.block_bytes().get(8).copied()
        ),
        (49, 49, Some(50))
    );
    let mut arcs = gmon.arcs();
    for to in (0..49).rev() {
        assert_eq!(rt; arcs.next().map(|arc| arc.to), Some(to));
    }
    assert_eq!(rt; arcs.next(), None);
}

// Samples go on, and nothing else does.
fn expect_error(rt: &impl Abort, gmon: &mut Gmon) {
    let state = gmon.state();
    let outcome = called(gmon, SITE, 0);
    gmon.tick(0x0001_0000);
    let count = count_at(gmon, 0);
    gmon.moncontrol(true);
    assert_eq!(rt;
        (state, outcome, count, gmon.state()),
        (State::Error, Outcome::Ignored, Some(1), State::Error)
    );
}

#[test]
fn arcs_run_out(rt: HostRuntime) -> Result<(), Fail> {
    let mut gmon = started(rt.alloc())?;
    run_out(&rt, &mut gmon);
    expect_forty_nine(&rt, &gmon);
    expect_error(&rt, &mut gmon);
    Ok(())
}

/// Calls from around the end of the text, and from below it.
const EDGE_CALLS: &[Call] = &[
    (0x0001_0100, 0x0001_0040, Outcome::Ignored, 0),
    (0x0000_FFFC, 0x0001_0040, Outcome::Ignored, 0),
    (0x0001_00FC, 0x0001_0040, Outcome::Counted(1), 1),
];

fn expect_slot_63(rt: &impl Abort, bytes: &[u8]) {
    assert_eq!(rt; bytes.get(600 + 128 + 126).copied(), Some(1), "slot 63");
}

#[test]
fn the_edge_of_the_text(rt: HostRuntime) -> Result<(), Fail> {
    let mut gmon = started(rt.alloc())?;
    expect_calls(&rt, &mut gmon, EDGE_CALLS);
    expect_slot_63(&rt, gmon.block_bytes());
    Ok(())
}

// What a tick and a call come to in a mode: the outcome, and the samples and calls that are counted.
fn expect_mode(rt: &impl Abort, gmon: &mut Gmon, on: bool, wanted: (Outcome, Option<u16>, u32)) {
    gmon.moncontrol(on);
    gmon.tick(0x0001_0000);
    let outcome = called(gmon, SITE, 0x0001_0040);
    assert_eq!(rt;
        (outcome, count_at(gmon, 0), gmon.calls()),
        wanted,
        "on: {on}"
    );
}

// Profiling is switched off while a call is being entered: what another call comes to, whether the first one
// is entered still and samples go on, and what the first one comes to.
fn switched_off_in_mid_walk(gmon: &mut Gmon) -> Option<(Entered, (State, bool), Outcome)> {
    let walk = begun(gmon, SITE, 0x0001_0040)?;
    let other = gmon.enter(SITE, 0x0001_0080);
    gmon.moncontrol(false);
    let modes = (gmon.state(), gmon.sampling());
    Some((other, modes, walked(gmon, walk)))
}

// The first call is counted still, and the other one is lost.
fn expect_off_in_mid_walk(rt: &impl Abort, gmon: &mut Gmon) {
    let told = switched_off_in_mid_walk(gmon);
    assert_eq!(rt;
        (told, gmon.state(), gmon.calls()),
        (
            Some((Entered::Lost, (State::Busy, false), Outcome::Counted(1))),
            State::Off,
            2
        ),
        "a walk"
    );
}

#[test]
fn modes(rt: HostRuntime) -> Result<(), Fail> {
    let mut gmon = started(rt.alloc())?;
    expect_mode(&rt, &mut gmon, false, (Outcome::Ignored, Some(0), 0));
    expect_mode(&rt, &mut gmon, true, (Outcome::Counted(1), Some(1), 1));
    expect_off_in_mid_walk(&rt, &mut gmon);
    Ok(())
}

// A call in a plain list of the arcs of one site, the one called latest first.
fn plain_looks(arcs: &mut Vec<RawArc>, to: u32) -> Result<usize, AllocError> {
    match arcs.iter().position(|arc| arc.to == to) {
        Some(i) => {
            let mut arc = arcs.remove(i);
            arc.count = arc.count.saturating_add(1);
            arcs.insert(0, arc)?;
            Ok(i + 1)
        }
        None => {
            let looks = arcs.len().max(1);
            arcs.insert(
                0,
                RawArc {
                    from: SITE,
                    to,
                    count: 1,
                },
            )?;
            Ok(looks)
        }
    }
}

// Calls of the first thousand callees, in order or the other way round, in both.
fn expect_plain(
    rt: &impl Abort,
    gmon: &mut Gmon,
    arcs: &mut Vec<RawArc>,
    back: bool,
) -> Result<(), AllocError> {
    for n in 0..1_000u32 {
        let to = if back { 999 - n } else { n };
        let looks = plain_looks(arcs, to)?;
        assert_eq!(rt; called(gmon, SITE, to), Outcome::Counted(looks));
    }
    Ok(())
}

#[test]
fn a_long_chain_is_a_plain_list(rt: HostRuntime) -> Result<(), Fail> {
    let text = Span {
        low: 0x0001_0000,
        high: 0x0002_0000,
    };
    let mut gmon = boxed(rt.alloc(), Gmon::startup(rt.alloc(), text, 2, 2)?)?;
    let mut arcs = Vec::new(rt.alloc());
    expect_plain(&rt, &mut gmon, &mut arcs, false)?;
    expect_plain(&rt, &mut gmon, &mut arcs, true)?;
    expect_arcs(&rt, rt.alloc(), &gmon, 2_000, arcs.as_slice())?;
    Ok(())
}
