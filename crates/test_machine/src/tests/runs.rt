ghost use Rattle.std.specs.Prelude.{◌≡◌, ◌+◌, ◌≤◌, length, All, IfOk};
ghost use Rattle.elf32_syms.specs.Image.{IsWithinLimits};
ghost use Rattle.elf32_syms.specs.declared.image.Segment.{Segment as AnySegment};
ghost use Rattle.prof_machine.specs.Value.{IsLive};
ghost use Rattle.settings.specs.Setup.{IsSetup};

use super::programs::{
    CALLS, CALLS_MCOUNT, COMPLAINS, EBREAK, ECALL, ENDLESS, EXIT, NO_INSTRUCTION, NOP, PRINTS,
    ROWS, SWITCHES, SWITCHES_MONCONTROL,
};
use crate::{ROUND, boxed, setup_of};
use elf32_syms::{Image, Segment, SegmentList};
use gp_base::{Items, RawArc, Span, le4};
use host_port::{MemHost, NeverFails};
use mcount_arcs::{Gmon, State};
use prof_machine::{End, Plan, PlanWalk, Run, RunSummary, Setup, StartRefusal, TurnNote};
use rv_step::TrapKind;
use std::alloc::{AllocError, Global};
use std::process::Abort;
use std::test::Fail;

// The words as bytes, the lowest of each first.
fn bytes_of(alloc: Global, words: &[u32]) -> Result<Vec<u8>, AllocError> {
    let mut bytes = Vec::new(alloc);
    for word in words {
        bytes.extend_from_slice(&le4(*word))?;
    }
    Ok(bytes)
}

// A list of segments, which lie in a file of so many bytes.
fn listed(
    rt: &impl Abort,
    alloc: Global,
    segments: &[Segment],
    file_bytes: usize,
) -> Result<SegmentList, AllocError>
    ensures in_file { IfOk result (All (λ (s : AnySegment). s.offset + s.filesz ≤ file_bytes)) }
    ensures in_memory { IfOk result (All (λ (s : AnySegment). s.filesz ≤ s.memsz)) }
    ensures count { IfOk result (λ list. length list ≡ length segments.now) }
{
    let mut list = Items::new(alloc);
    for segment in segments {
        assert!(rt; u64::from(segment.offset) + u64::from(segment.filesz) <= file_bytes as u64);
        assert!(rt; segment.filesz <= segment.memsz);
        list.push(*segment)?;
    }
    Ok(list)
}

// The program of a file of so many bytes, whose text has the addresses from 0x10000 to below 0x10100.
fn image_of(
    rt: &impl Abort,
    alloc: Global,
    entry: u32,
    segments: &[Segment],
    file_bytes: usize,
    hooks: (Option<u32>, Option<u32>),
) -> Result<Box<Image>, AllocError>
    requires { length segments.now ≤ 2 }
    ensures { IfOk result (λ image. IsWithinLimits file_bytes image.value) }
{
    let image = Image {
        entry,
        segments: listed(rt, alloc, segments, file_bytes)?,
        text: Span {
            low: 0x0001_0000,
            high: 0x0001_0100,
        },
        symbols: Items::new(alloc),
        mcount: hooks.0,
        moncontrol: hooks.1,
    };
    boxed(alloc, image)
}

// A run of a program, in a box.
pub(super) fn run_of(
    alloc: Global,
    image: &Image,
    bytes: &[u8],
    setup: Setup,
) -> Result<Box<Run>, StartRefusal>
    requires limits { IsWithinLimits (length bytes.now) image.now }
    requires setup { IsSetup setup }
    ensures own { IfOk result (λ run. run.value.machine.setup ≡ setup) }
    ensures live { IfOk result (λ run. IsLive run.value) }
{
    let run = Run::start(alloc, image, bytes, setup)?;
    Ok(boxed(alloc, run)?)
}

// A run of a file of these words, whose text has the addresses from 0x10000 to below 0x10100.
fn started(
    rt: &impl Abort,
    alloc: Global,
    entry: u32,
    segments: &[Segment],
    words: &[u32],
    hooks: (Option<u32>, Option<u32>),
    setup: Setup,
) -> Result<Box<Run>, StartRefusal>
    requires { IsSetup setup }
    ensures { IfOk result (λ run. run.value.machine.setup ≡ setup) }
{
    assert!(rt; segments.len() <= 2);
    let bytes = bytes_of(alloc, words)?;
    let image = image_of(rt, alloc, entry, segments, bytes.len(), hooks)?;
    run_of(alloc, &image, bytes.as_slice(), setup)
}

// A run of these words from 0x10000 on, the first of which is the entry.
fn started_at_text(
    rt: &impl Abort,
    alloc: Global,
    words: &[u32],
    hooks: (Option<u32>, Option<u32>),
    setup: Setup,
) -> Result<Box<Run>, StartRefusal>
    requires { IsSetup setup }
    ensures { IfOk result (λ run. run.value.machine.setup ≡ setup) }
{
    assert!(rt; words.len() <= 64);
    let file_bytes = 4 * words.len() as u32;
    let segment = Segment {
        addr: 0x0001_0000,
        offset: 0,
        filesz: file_bytes,
        memsz: file_bytes,
    };
    started(rt, alloc, 0x0001_0000, &[segment], words, hooks, setup)
}

// What counter `i` holds, if there is one.
fn count_at(run: &Run, i: u32) -> Option<u16> {
    let gmon = run.gmon();
    if i < gmon.sizes().counters {
        Some(gmon.counter(i))
    } else {
        None
    }
}

// The end of a run that is live, on a host that never fails, and what is told of it then.
fn driven(alloc: Global, run: &mut Run) -> Option<(End, RunSummary)> {
    if !run.is_live() {
        return None;
    }
    let mut host = NeverFails::new(alloc);
    match run.drive(&mut host) {
        Ok(end) => Some((end, run.summary())),
        Err(_) => None,
    }
}

// Runs to the end, which is this one.
fn ends(rt: &impl Abort, alloc: Global, name: &str, run: &mut Run, wanted: RunSummary) {
    let told = driven(alloc, run);
    assert_eq!(rt;
        (told, run.is_live()),
        (Some((wanted.end, wanted)), false),
        "{name}"
    );
}

// A run of these words from 0x10000 on, which comes to this end.
fn text_ends(
    rt: &impl Abort,
    alloc: Global,
    name: &str,
    words: &[u32],
    hooks: (Option<u32>, Option<u32>),
    setup: Setup,
    wanted: RunSummary,
) -> Result<(), Fail>
    requires { IsSetup setup }
{
    let mut run = started_at_text(rt, alloc, words, hooks, setup)?;
    ends(rt, alloc, name, &mut run, wanted);
    Ok(())
}

// What is told of a run that made no calls.
fn no_calls(end: End, retired: u32, samples: u32) -> RunSummary {
    RunSummary {
        end,
        retired,
        samples,
        calls: 0,
        lost: 0,
        state: State::On,
    }
}

// What is told of a run that used up its budget, with so many calls and no samples.
fn calls_alone(retired: u32, calls: u32, lost: u32, state: State) -> RunSummary {
    RunSummary {
        end: End::Budget,
        retired,
        samples: 0,
        calls,
        lost,
        state,
    }
}

#[test]
fn runs_to_their_ends(rt: HostRuntime) -> Result<(), Fail> {
    for row in ROWS {
        let setup = setup_of(row.every, row.budget, 1, ROUND);
        let wanted = no_calls(row.end, row.retired, row.samples);
        text_ends(
            &rt,
            rt.alloc(),
            row.name,
            row.words,
            (None, None),
            setup,
            wanted,
        )?;
    }
    Ok(())
}

/// A name, how many harts, the plan and the budget; and how many calls are counted, and lost.
const LOSSES: &[(&'static str, u32, Plan, u32, u32, u32)] = &[
    ("one of two is lost", 2, ROUND, 20, 1, 1),
    ("one hart loses none", 1, ROUND, 20, 1, 0),
    ("the walk in flight is looked to its end", 2, ROUND, 5, 1, 0),
    ("the second call meets it", 2, ROUND, 6, 1, 1),
    (
        "six turns each: the first call is over",
        2,
        Plan::RoundRobin { quantum: 6 },
        20,
        2,
        0,
    ),
    ("of eight harts seven lose theirs", 8, ROUND, 24, 1, 7),
];

// The runtime holds the one arc of `CALLS`, with so many calls.
fn expect_one_arc(rt: &impl Abort, gmon: &Gmon, calls: u32, name: &str) {
    let mut arcs = gmon.arcs();
    let arc = RawArc {
        from: 0x0001_0004,
        to: 0x0001_0014,
        count: calls,
    };
    assert_eq!(rt; (arcs.next(), arcs.next()), (Some(arc), None), "{name}");
}

// Runs `CALLS` by a plan, and looks at what it told and at its arc.
fn meets(
    rt: &impl Abort,
    alloc: Global,
    name: &str,
    setup: Setup,
    calls: u32,
    lost: u32,
) -> Result<(), Fail>
    requires { IsSetup setup }
{
    let hooks = (Some(CALLS_MCOUNT), None);
    let mut run = started_at_text(rt, alloc, CALLS, hooks, setup)?;
    let wanted = calls_alone(setup.budget, calls, lost, State::On);
    ends(rt, alloc, name, &mut run, wanted);
    expect_one_arc(rt, run.gmon(), calls, name);
    Ok(())
}

#[test]
fn calls_that_meet_another(rt: HostRuntime) -> Result<(), Fail> {
    for (name, harts, plan, budget, calls, lost) in LOSSES {
        let setup = setup_of(1_000, *budget, *harts, *plan);
        meets(&rt, rt.alloc(), name, setup, *calls, *lost)?;
    }
    Ok(())
}

const EXITS: &[u32] = &[NOP, EXIT, ECALL];

// The text has 64 words, and these are the counts of the first ones.
fn expect_counts(rt: &impl Abort, counts: &[u32], wanted: &[u32]) {
    assert_eq!(rt; counts.len(), 64);
    assert!(rt; counts.starts_with(wanted));
}

// What a run of these words tells of the first instructions, once it has ended so.
fn counts_executions(
    rt: &impl Abort,
    alloc: Global,
    words: &[u32],
    end: End,
    retired: u32,
    wanted: [u32; 4],
) -> Result<(), Fail> {
    let plain = setup_of(1_000, 5, 1, ROUND);
    let setup = Setup {
        blocks: true,
        ..plain
    };
    let mut run = started_at_text(rt, alloc, words, (None, None), setup)?;
    ends(rt, alloc, "executions", &mut run, no_calls(end, retired, 0));
    expect_counts(rt, run.exec_counts(), wanted.as_slice());
    Ok(())
}

#[test]
fn executions_are_counted(rt: HostRuntime) -> Result<(), Fail> {
    let alloc = rt.alloc();
    // one that exits is executed
    counts_executions(&rt, alloc, EXITS, End::Exit(0), 3, [1, 1, 1, 0])?;
    // one that traps isn't
    let trap = End::Trap(TrapKind::Breakpoint, 0x0001_0004);
    counts_executions(&rt, alloc, &[NOP, EBREAK], trap, 1, [1, 0, 0, 0])?;
    counts_executions(&rt, alloc, &[ENDLESS], End::Budget, 5, [5, 0, 0, 0])
}

// How many counts an endless run of five instructions has that weren't asked for.
fn unasked(rt: &impl Abort, alloc: Global) -> Result<usize, Fail> {
    let setup = setup_of(1_000, 5, 1, ROUND);
    let mut run = started_at_text(rt, alloc, &[ENDLESS], (None, None), setup)?;
    ends(rt, alloc, "unasked", &mut run, no_calls(End::Budget, 5, 0));
    Ok(run.exec_counts().len())
}

#[test]
fn executions_are_not_counted_unasked(rt: HostRuntime) -> Result<(), Fail> {
    let counts = unasked(&rt, rt.alloc())?;
    assert_eq!(rt; counts, 0);
    Ok(())
}

// Turns of these harts.
fn takes_turns(rt: &impl Abort, alloc: Global, run: &mut Run, harts: &[u32]) -> Result<(), Fail>
    requires { 2 ≤ run.old.machine.setup.harts }
    ensures { 2 ≤ run.new.machine.setup.harts }
{
    let mut host = NeverFails::new(alloc);
    for hart in harts {
        assert!(rt; *hart < 2 && run.is_live());
        run.turn(*hart, &mut host)?;
    }
    Ok(())
}

/// The hart of a turn, where its instruction stood and led, the sample that counted, and the return from the hook.
type Noted = (u32, Option<(u32, u32)>, Option<u32>, Option<u32>);

/// The notes of `CALLS` with a sample in two instructions: of one hart, and of two, the second of which meets
/// the first one's call and is lost.
const ALONE: &[Noted] = &[
    (0, Some((0x1_0000, 0x1_000C)), None, None),
    (0, Some((0x1_000C, 0x1_0010)), Some(0x1_0010), None),
    (0, Some((0x1_0010, 0x1_0008)), None, None),
    (0, None, None, Some(0x1_0014)),
    (0, Some((0x1_0014, 0x1_0014)), Some(0x1_0014), None),
];

const OF_TWO: &[Noted] = &[
    (0, Some((0x1_0000, 0x1_000C)), None, None),
    (1, Some((0x1_0000, 0x1_000C)), Some(0x1_000C), None),
    (0, Some((0x1_000C, 0x1_0010)), None, None),
    (1, Some((0x1_000C, 0x1_0010)), Some(0x1_0010), None),
    (0, Some((0x1_0010, 0x1_0008)), None, None),
    (
        1,
        Some((0x1_0010, 0x1_0008)),
        Some(0x1_0008),
        Some(0x1_0014),
    ),
    (0, None, None, Some(0x1_0014)),
    (1, Some((0x1_0014, 0x1_0014)), None, None),
    (0, Some((0x1_0014, 0x1_0014)), Some(0x1_0014), None),
];

// What is told of a turn.
fn told(hart: u32, note: TurnNote) -> Noted {
    let ran = match note.ran {
        Some(ran) => Some((ran.pc, ran.next)),
        None => None,
    };
    (hart, ran, note.sample, note.returned)
}

// Turns of a plan tell what they did.
fn expect_notes(
    rt: &impl Abort,
    alloc: Global,
    run: &mut Run,
    setup: Setup,
    notes: &[Noted],
) -> Result<(), Fail>
    requires setup { IsSetup setup }
    requires own { run.old.machine.setup ≡ setup }
{
    let mut plan = PlanWalk::new(&setup);
    let mut host = NeverFails::new(alloc);
    for (at, noted) in notes.iter().enumerate() {
        let hart = plan.next_hart();
        assert!(rt; hart < setup.harts && run.is_live());
        run.turn(hart, &mut host)?;
        assert_eq!(rt; told(hart, run.last_turn()), *noted, "turn {at}");
    }
    Ok(())
}

// The turns of `CALLS` by so many harts tell what they did.
fn tells(rt: &impl Abort, alloc: Global, harts: u32, notes: &[Noted]) -> Result<(), Fail> {
    let setup = setup_of(2, 100, harts, ROUND);
    let hooks = (Some(CALLS_MCOUNT), None);
    let mut run = started_at_text(rt, alloc, CALLS, hooks, setup)?;
    expect_notes(rt, alloc, &mut run, setup, notes)
}

#[test]
fn turns_tell_what_they_did(rt: HostRuntime) -> Result<(), Fail> {
    tells(&rt, rt.alloc(), 1, ALONE)?;
    tells(&rt, rt.alloc(), 2, OF_TWO)
}

// How the runtime stands after turns of these harts.
fn expect_state(
    rt: &impl Abort,
    alloc: Global,
    run: &mut Run,
    harts: &[u32],
    state: State,
    calls: u32,
) -> Result<(), Fail>
    requires { 2 ≤ run.old.machine.setup.harts }
    ensures { 2 ≤ run.new.machine.setup.harts }
{
    takes_turns(rt, alloc, run, harts)?;
    let gmon = run.gmon();
    assert_eq!(rt; (gmon.state(), gmon.calls()), (state, calls), "{harts:?}");
    Ok(())
}

// The first hart's call is being entered; no hart but its own looks at its arcs; one look ends it; and the
// second hart's call is entered, and the budget used up.
fn expect_turns(rt: &impl Abort, alloc: Global, run: &mut Run) -> Result<(), Fail>
    requires { 2 ≤ run.old.machine.setup.harts }
{
    expect_state(rt, alloc, run, &[0, 0, 0], State::Busy, 0)?;
    expect_state(rt, alloc, run, &[1, 1], State::Busy, 0)?;
    expect_state(rt, alloc, run, &[0], State::On, 1)?;
    takes_turns(rt, alloc, run, &[1])?;
    assert!(rt; !run.is_live());
    Ok(())
}

#[test]
fn turns_one_by_one(rt: HostRuntime) -> Result<(), Fail> {
    let setup = setup_of(1_000, 6, 2, ROUND);
    let hooks = (Some(CALLS_MCOUNT), None);
    let mut run = started_at_text(&rt, rt.alloc(), CALLS, hooks, setup)?;
    expect_turns(&rt, rt.alloc(), &mut run)
}

/// A name, how many harts, and the plan; and the number of the hart that ends the run first, as its third
/// instruction, with how many have retired by then.
const FIRST_TO_END: &[(&'static str, u32, Plan, u32, u32)] = &[
    ("one turn each", 2, ROUND, 0, 5),
    ("two turns each", 2, Plan::RoundRobin { quantum: 2 }, 0, 5),
    ("three turns each", 2, Plan::RoundRobin { quantum: 3 }, 0, 3),
    (
        "seed 1 begins with hart 1, three times",
        2,
        Plan::Seeded { seed: 1 },
        1,
        3,
    ),
];

#[test]
fn harts_take_turns_by_the_plan(rt: HostRuntime) -> Result<(), Fail> {
    for (name, harts, plan, status, retired) in FIRST_TO_END {
        let setup = setup_of(1_000, 100, *harts, *plan);
        let wanted = no_calls(End::Exit(*status), *retired, 0);
        text_ends(&rt, rt.alloc(), name, EXITS, (None, None), setup, wanted)?;
    }
    Ok(())
}

// `lui x10, 0x10`, 50 times `jal x1` to the word 208 behind, an endless loop, and there `jalr x0, 0(x1)`.
fn fifty_callees(alloc: Global) -> Result<Vec<u32>, AllocError> {
    let mut words = Vec::new(alloc);
    words.push(0x0001_0537)?;
    for i in 1..51 {
        words.push(0xEF + (104 - 2 * i) * 0x0020_0000)?;
    }
    words.push(ENDLESS)?;
    words.push(0x0000_8067)?;
    Ok(words)
}

#[test]
fn arcs_run_out(rt: HostRuntime) -> Result<(), Fail> {
    let setup = setup_of(1_000, 60, 1, ROUND);
    let words = fifty_callees(rt.alloc())?;
    let hooks = (Some(0x0001_00D0), None);
    let wanted = calls_alone(60, 49, 0, State::Error);
    let name = "the fiftieth has no place";
    text_ends(
        &rt,
        rt.alloc(),
        name,
        words.as_slice(),
        hooks,
        setup,
        wanted,
    )
}

// These counters of a run hold so many samples.
fn expect_samples(rt: &impl Abort, run: &Run, wanted: &[(u32, u16)]) {
    for (i, count) in wanted {
        assert_eq!(rt; count_at(run, *i), Some(*count), "counter {i}");
    }
}

#[test]
fn a_full_counter_stays_full(rt: HostRuntime) -> Result<(), Fail> {
    let setup = setup_of(1, 65_536, 1, ROUND);
    let mut run = started_at_text(&rt, rt.alloc(), &[ENDLESS], (None, None), setup)?;
    let wanted = no_calls(End::Budget, 65_536, 65_536);
    ends(&rt, rt.alloc(), "65,536 samples", &mut run, wanted);
    expect_samples(&rt, &run, &[(0, 65_535), (1, 0)]);
    Ok(())
}

// The instruction that retired isn't sampled, but the next one; and the sample comes before the hook.
#[test]
fn samples_until_profiling_is_switched_off(rt: HostRuntime) -> Result<(), Fail> {
    let setup = setup_of(1, 10, 1, ROUND);
    let hooks = (None, Some(SWITCHES_MONCONTROL));
    let mut run = started_at_text(&rt, rt.alloc(), SWITCHES, hooks, setup)?;
    let wanted = RunSummary {
        end: End::Budget,
        retired: 10,
        samples: 2,
        calls: 0,
        lost: 0,
        state: State::Off,
    };
    ends(&rt, rt.alloc(), "switched off", &mut run, wanted);
    expect_samples(&rt, &run, &[(0, 0), (1, 1), (3, 1)]);
    Ok(())
}

/// A program, the call on the host that fails, how the run ends where none does, and what is printed on the
/// output and on the error output.
type Printing = (
    &'static [u32],
    Option<u64>,
    Option<End>,
    &'static [u8],
    &'static [u8],
);

/// The first bytes of both programs, which these print.
const OUTPUT: &[u8] = &[0x13, 0x05, 0x10, 0x00];

const ERROR_OUTPUT: &[u8] = &[0x13, 0x05, 0x20, 0x00];

const PRINTINGS: &[Printing] = &[
    (PRINTS, None, Some(End::Exit(4)), OUTPUT, &[]),
    (COMPLAINS, None, Some(End::Exit(4)), &[], ERROR_OUTPUT),
    (PRINTS, Some(0), None, &[], &[]),
    (COMPLAINS, Some(0), None, &[], &[]),
];

// A run ends so, or a print of it fails.
fn expect_end(rt: &impl Abort, run: &mut Run, host: &mut MemHost, wanted: Option<End>) {
    assert!(rt; run.is_live());
    let end = run.drive(host);
    assert_eq!(rt; (run.is_live(), end.ok()), (false, wanted));
}

fn expect_printed(rt: &impl Abort, host: &MemHost, out: &[u8], err: &[u8]) {
    assert_eq!(rt; (host.printed(), host.errors()), (out, err));
}

// A host on which this call fails.
fn host_that_fails(alloc: Global, fails: Option<u64>) -> Result<Box<MemHost>, AllocError> {
    let mut host = boxed(alloc, MemHost::new(alloc))?;
    if let Some(call) = fails {
        host.fail_at(call)?;
    }
    Ok(host)
}

fn prints(rt: &impl Abort, alloc: Global, printing: &Printing) -> Result<(), Fail> {
    let (words, fails, end, out, err) = printing;
    let setup = setup_of(1_000, 100, 1, ROUND);
    let mut run = started_at_text(rt, alloc, words, (None, None), setup)?;
    let mut host = host_that_fails(alloc, *fails)?;
    expect_end(rt, &mut run, &mut host, *end);
    expect_printed(rt, &host, out, err);
    Ok(())
}

#[test]
fn programs_that_print(rt: HostRuntime) -> Result<(), Fail> {
    for printing in PRINTINGS {
        prints(&rt, rt.alloc(), printing)?;
    }
    Ok(())
}

// A run of a file of these words, which comes to this end after so many instructions.
fn file_ends(
    rt: &impl Abort,
    alloc: Global,
    name: &str,
    entry: u32,
    segments: &[Segment],
    words: &[u32],
    wanted: RunSummary,
) -> Result<(), Fail> {
    let setup = setup_of(1, 10, 1, ROUND);
    let mut run = started(rt, alloc, entry, segments, words, (None, None), setup)?;
    ends(rt, alloc, name, &mut run, wanted);
    Ok(())
}

/// Eight bytes of a file, of which the text ends behind the first four.
const BEHIND: &[Segment] = &[Segment {
    addr: 0x0001_00FC,
    offset: 0,
    filesz: 8,
    memsz: 8,
}];

const OVERLAPPING: &[Segment] = &[
    Segment {
        addr: 0x0001_0000,
        offset: 0,
        filesz: 8,
        memsz: 8,
    },
    Segment {
        addr: 0x0001_0004,
        offset: 8,
        filesz: 4,
        memsz: 8,
    },
];

#[test]
fn memory_at_the_start(rt: HostRuntime) -> Result<(), Fail> {
    let name = "no sample behind the text counts";
    let wanted = no_calls(End::Budget, 10, 0);
    let words = [NOP, ENDLESS];
    file_ends(&rt, rt.alloc(), name, 0x1_00FC, BEHIND, &words, wanted)?;
    let name = "a later segment overwrites";
    let wanted = no_calls(End::Trap(TrapKind::Illegal, 0x1_0008), 1, 1);
    let words = [NO_INSTRUCTION, EBREAK, NOP];
    file_ends(&rt, rt.alloc(), name, 0x1_0004, OVERLAPPING, &words, wanted)?;
    let name = "with no segment memory is zero";
    let wanted = no_calls(End::Trap(TrapKind::Illegal, 0), 0, 0);
    file_ends(&rt, rt.alloc(), name, 0, &[], &[], wanted)
}

/// A name, the entry, and the address and bytes of a segment that has a word in the file; and why a run
/// in 4 MiB of memory doesn't start, where it doesn't.
const STARTS: &[(&'static str, u32, u32, u32, Option<StartRefusal>)] = &[
    (
        "program and stacks fill memory",
        0x1_0000,
        0x1_0000,
        0x20_0000,
        None,
    ),
    (
        "a byte too many",
        0x1_0000,
        0x1_0000,
        0x20_0001,
        Some(StartRefusal::ProgramTooLarge {
            need: 0x41_0001,
            end: 0x41_0000,
        }),
    ),
    (
        "a program of 3 MiB",
        0x1_0000,
        0x1_0000,
        0x30_0000,
        Some(StartRefusal::ProgramTooLarge {
            need: 5_308_416,
            end: 4_259_840,
        }),
    ),
    (
        "memory begins at a page",
        0x1_0000,
        0x1_0FFC,
        0x1F_F005,
        Some(StartRefusal::ProgramTooLarge {
            need: 0x41_0001,
            end: 0x41_0000,
        }),
    ),
    (
        "memory ends above 2^32",
        0xFFFF_0000,
        0xFFFF_0000,
        4,
        Some(StartRefusal::ProgramTooLarge {
            need: 0xFFFF_0004 + 2_097_152,
            end: 0xFFFF_0000 + 4_194_304,
        }),
    ),
    ("memory ends at 2^32", 0xFFC0_0000, 0xFFC0_0000, 4, None),
    (
        "the entry is no multiple of 4",
        0x1_0002,
        0x1_0000,
        4,
        Some(StartRefusal::EntryOutside { entry: 0x1_0002 }),
    ),
    (
        "the entry lies below memory",
        0,
        0x1_0000,
        4,
        Some(StartRefusal::EntryOutside { entry: 0 }),
    ),
    (
        "the entry lies at the end of memory",
        0x41_0000,
        0x1_0000,
        4,
        Some(StartRefusal::EntryOutside { entry: 0x41_0000 }),
    ),
    (
        "the entry is the last word of memory",
        0x40_FFFC,
        0x1_0000,
        4,
        None,
    ),
    (
        "the entry lies in memory below the program",
        0x1_0000,
        0x1_0FFC,
        4,
        None,
    ),
    (
        "too large, and the entry is outside",
        0x1_0002,
        0x1_0000,
        0x30_0000,
        Some(StartRefusal::ProgramTooLarge {
            need: 5_308_416,
            end: 4_259_840,
        }),
    ),
];

// Why a run doesn't start, if it doesn't.
fn refusal_of(
    rt: &impl Abort,
    alloc: Global,
    entry: u32,
    addr: u32,
    memsz: u32,
) -> Option<StartRefusal> {
    let segment = Segment {
        addr,
        offset: 0,
        filesz: 4,
        memsz,
    };
    let setup = setup_of(1, 1, 1, ROUND);
    started(
        rt,
        alloc,
        entry,
        &[segment],
        &[ENDLESS],
        (None, None),
        setup,
    )
    .err()
}

#[test]
fn starts_that_are_refused(rt: HostRuntime) {
    for (name, entry, addr, memsz, refusal) in STARTS {
        let answer = refusal_of(&rt, rt.alloc(), *entry, *addr, *memsz);
        assert_eq!(rt; answer, *refusal, "{name}");
    }
}
