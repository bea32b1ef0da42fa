ghost use Rattle.std.specs.Prelude.{◌≡◌, ◌≤◌, length, IfOk};
ghost use Rattle.elf32_syms.specs.Image.{IsWithinLimits};
ghost use Rattle.elf32_syms.specs.Owners.{IsAscending};
ghost use Rattle.prof_machine.specs.Value.{IsLive};
ghost use Rattle.settings.specs.Setup.{IsSetup};

use super::runs::run_of;
use super::sampled::{CASES, Case, DEEP, MANY_SAMPLES, NOP, same_names};
use crate::{ROUND, boxed, setup_of};
use elf32_syms::{Image, Symbol, read};
use folded::{Folded, fold, write};
use host_port::MemHost;
use prof_machine::{Run, Setup};
use std::alloc::{AllocError, Global};
use std::process::Abort;
use std::test::Fail;
use test_programs::elf_of;

// The text of a run, as its stacks and by functions, and how many samples are folded.
type Wanted<'a> = (&'a str, &'a str, u64);

// The stacks of a run's samples, in a box.
fn stacks_of(alloc: Global, run: &mut Run, image: &Image, setup: Setup) -> Result<Box<Folded>, Fail>
    requires live { IsLive run.old }
    requires own { run.old.machine.setup ≡ setup }
    requires symbols { IsAscending image.now.symbols }
    requires setup { IsSetup setup }
    ensures { IfOk result (λ folded. length folded.value.inclusive ≡ length image.now.symbols) }
{
    let mut host = boxed(alloc, MemHost::new(alloc))?;
    let folded = fold(alloc, run, image, &setup, &mut *host)?;
    Ok(boxed(alloc, folded)?)
}

// Those of a program's run.
fn folded_of(alloc: Global, image: &Image, bytes: &[u8], setup: Setup) -> Result<Box<Folded>, Fail>
    requires limits { IsWithinLimits (length bytes.now) image.now }
    requires symbols { IsAscending image.now.symbols }
    requires setup { IsSetup setup }
    ensures { IfOk result (λ folded. length folded.value.inclusive ≡ length image.now.symbols) }
{
    let mut run = run_of(alloc, image, bytes, setup)?;
    stacks_of(alloc, &mut run, image, setup)
}

// The program of a file, in a box.
fn image_in(alloc: Global, bytes: &[u8]) -> Result<Box<Image>, Fail>
    requires { length bytes.now ≤ 1048576 }
    ensures limits { IfOk result (λ image. IsWithinLimits (length bytes.now) image.value) }
    ensures symbols { IfOk result (λ image. IsAscending image.value.symbols) }
{
    let image = read(alloc, bytes)?;
    Ok(boxed(alloc, image)?)
}

fn expect_text(
    rt: &impl Abort,
    alloc: Global,
    folded: &Folded,
    symbols: &[Symbol],
    inclusive: bool,
    text: &str,
    name: &str,
)
    requires { length symbols.now ≡ length folded.now.inclusive }
{
    let mut host = MemHost::new(alloc);
    let written = write(folded, symbols, inclusive, &mut host);
    let what = if inclusive { "functions" } else { "stacks" };
    assert_eq!(rt;
        (written.is_ok(), host.printed()),
        (true, text.as_bytes()),
        "{what} of {name}"
    );
}

fn expect_folded(
    rt: &impl Abort,
    alloc: Global,
    folded: &Folded,
    symbols: &[Symbol],
    name: &str,
    wanted: Wanted<'_>,
)
    requires { length symbols.now ≡ length folded.now.inclusive }
{
    let (stacks, by_function, total) = wanted;
    assert_eq!(rt;
        (folded.total(), folded.function_count() as usize),
        (total, symbols.len()),
        "{name}"
    );
    expect_text(rt, alloc, folded, symbols, false, stacks, name);
    expect_text(rt, alloc, folded, symbols, true, by_function, name);
}

// Runs a program's file, and looks at the stacks of its samples.
fn folds(
    rt: &impl Abort,
    alloc: Global,
    name: &str,
    bytes: &[u8],
    setup: Setup,
    wanted: Wanted<'_>,
) -> Result<(), Fail>
    requires { IsSetup setup }
{
    assert!(rt; bytes.len() <= 1_048_576);
    let image = image_in(alloc, bytes)?;
    let folded = folded_of(alloc, &image, bytes, setup)?;
    expect_folded(rt, alloc, &folded, image.symbols.as_slice(), name, wanted);
    Ok(())
}

fn case_folds(rt: &impl Abort, alloc: Global, case: &Case) -> Result<(), Fail> {
    let bytes = elf_of(alloc, case.words, case.functions)?;
    let setup = setup_of(case.every, case.budget, case.harts, ROUND);
    let wanted = (case.stacks, case.by_function, case.total);
    folds(rt, alloc, case.name, bytes.as_slice(), setup, wanted)
}

#[test]
fn calls_and_returns(rt: HostRuntime) -> Result<(), Fail> {
    for case in CASES {
        case_folds(&rt, rt.alloc(), case)?;
    }
    Ok(())
}

#[test]
fn more_samples_than_a_counter_counts(rt: HostRuntime) -> Result<(), Fail> {
    case_folds(&rt, rt.alloc(), &MANY_SAMPLES)
}

fn demo_folds(rt: &impl Abort, alloc: Global, n: u32) -> Result<(), Fail>
    requires some { 1 ≤ n }
    requires few { n ≤ 2000 }
{
    let bytes = demo_elf::program(alloc, n)?;
    let setup = setup_of(1_000, 100_000_000, 1, ROUND);
    let wanted = ("_start;f0 3\n", "_start 3\nf0 3\n", 3);
    folds(rt, alloc, "the small demo", bytes.as_slice(), setup, wanted)
}

#[test]
fn the_small_demo(rt: HostRuntime) -> Result<(), Fail> {
    demo_folds(&rt, rt.alloc(), 1)
}

// The functions from `_start` to the one that is sampled, which so many kept calls lead to.
fn deep_line(alloc: Global, calls: u32) -> Result<String, AllocError> {
    let mut line = String::from_str(alloc, "_start")?;
    for _ in 0..calls {
        line.push_str(";f")?;
    }
    line.push_str(" 1\n")?;
    Ok(line)
}

// Samples calls in calls once, where so many instructions have retired.
fn deep_folds(
    rt: &impl Abort,
    alloc: Global,
    name: &str,
    retired: u32,
    line: &str,
) -> Result<(), Fail> {
    let bytes = elf_of(alloc, DEEP, &[("_start", 0), ("f", 16)])?;
    let setup = setup_of(retired, retired, 1, ROUND);
    let wanted = (line, "_start 1\nf 1\n", 1);
    folds(rt, alloc, name, bytes.as_slice(), setup, wanted)
}

// How many instructions have retired, and how many calls are on the stack then. The second instruction is the
// first call, and every fifth behind it one more. The last of the 130 calls has returned after 654
// instructions, and each one above it three instructions later.
const DEPTHS: &[(&'static str, u32, u32)] = &[
    ("127 calls", 632, 127),
    ("128 calls", 637, 128),
    ("129 calls", 642, 128),
    ("130 calls", 647, 128),
    ("130 calls, of which two have returned", 657, 128),
    ("130 calls, of which three have returned", 660, 127),
];

#[test]
fn calls_beyond_128_are_not_on_a_stack(rt: HostRuntime) -> Result<(), Fail> {
    for (name, retired, calls) in DEPTHS {
        let line = deep_line(rt.alloc(), *calls)?;
        deep_folds(&rt, rt.alloc(), name, *retired, line.as_str())?;
    }
    Ok(())
}

// A thousand functions of one instruction each, with one name.
fn many_functions(alloc: Global) -> Result<Vec<(&'static str, u32)>, AllocError> {
    let mut functions = Vec::new(alloc);
    for i in 0..1_000u32 {
        functions.push(("f", 4 * i))?;
    }
    Ok(functions)
}

// The file of a thousand instructions, each of them such a function.
fn same_named(alloc: Global) -> Result<Vec<u8>, AllocError> {
    let mut words = [NOP; 1_000];
    same_names(&mut words);
    let functions = many_functions(alloc)?;
    elf_of(alloc, &words, functions.as_slice())
}

#[test]
fn a_thousand_functions_of_one_name(rt: HostRuntime) -> Result<(), Fail> {
    let bytes = same_named(rt.alloc())?;
    let setup = setup_of(1, 5, 1, ROUND);

    // The stacks are function 1, 2, 2 and 999, and 3.
    let wanted = ("f 1\nf 1\nf;f 1\nf 2\n", "f 1\nf 2\nf 2\nf 1\n", 5);
    folds(&rt, rt.alloc(), "one name", bytes.as_slice(), setup, wanted)
}
