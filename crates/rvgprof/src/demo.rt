//! The command `demo`.

ghost use Rattle.std.specs.Prelude.{◌≡◌, ◌+◌, ◌<◌, ◌≤◌, ◌^◌, ◌++◌, [], false, Err, codes, decimal, length, sum, IfOk, IfErr, IsSome, OnOk};
ghost use Rattle.std.specs.Option.{option_map};
ghost use Rattle.settings.specs.Setup.{IsSetup};
ghost use Rattle.call_cycles.specs.Graph.{GraphValue, IsGraph, component_count};
ghost use Rattle.call_cycles.specs.Flow.{IsFlow, time_of_roots};
ghost use Rattle.elf32_syms.specs.Image.{IsWithinLimits};
ghost use Rattle.elf32_syms.specs.Owners.{IsAscending};
ghost use Rattle.host_port.specs.Performing.{Performs};
ghost use Rattle.courses.specs.Answer.{demo_course, given_file_acts};
ghost use Rattle.courses.specs.Contract.{Acted};
ghost use Rattle.command_words.specs.Items.{nth_word};
ghost use Rattle.courses.specs.Reports.{cycle_count, demo_run_line, grains_line};
ghost use Rattle.rvgprof.specs.Demonstrating.{IsDemoRead, IsDemoRefused, RunsDemo, SumsUp, TellsDemo};
ghost use Rattle.courses.specs.Standing.{Stands};

use crate::lines::put_number;
use call_cycles::Graph;
use command_reports::{Findings, findings_of, print_text};
use command_runs::{run_alone, write_file};
use command_words::Words;
use courses::refusals::{elf_fault, report_fault};
use courses::{Done, Fault};
use elf32_syms::Image;
use flat_report::ReportRefusal;
use gmon_bsd::run_profile;
use host_port::{Failed, Host};
use prof_machine::{Run, RunSummary, Setup};
use propagate::Flow;
use std::alloc::Global;
use text_cols::Line;

/// Makes the demo program of so many functions, writes it to the file that a word names where one does,
/// runs it, and prints a summary of its run.
pub fn demo<H: Host>(
    alloc: Global,
    words: &Words<'_>,
    functions: u32,
    elf: Option<u32>,
    setup: Setup,
    host: &mut H,
) -> Result<Done, Fault>
    requires stands { Stands words.now (H.outside host.old) (H.outside host.old) 0 []
        (demo_course functions (option_map (nth_word words.now) elf) setup) }
    requires some { 1 ≤ functions }
    requires few { functions ≤ 2000 }
    requires within { IsSetup setup }
    ensures { Acted words.now (H.outside host.old) (H.outside host.new) result }
{
    let (bytes, image) = made_program(alloc, functions)?;
    match write_program(words, elf, bytes.as_slice(), host) {
        Ok(()) => run_demo(alloc, functions, &image, bytes.as_slice(), setup, host),
        Err(_) => Err(Fault::WriteFault),
    }
}

/// Runs the demo program, and prints a summary of its run.
fn run_demo<H: Host>(
    alloc: Global,
    functions: u32,
    image: &Image,
    bytes: &[u8],
    setup: Setup,
    host: &mut H,
) -> Result<Done, Fault>
    requires limits { IsWithinLimits (length bytes.now) image.now }
    requires within { IsSetup setup }
    ensures { RunsDemo functions setup image.now bytes.now (H.outside host.old)
        (H.outside host.new) result }
{
    let (run, summary) = run_alone(alloc, image, bytes, setup, host)?;
    match tell_demo(alloc, functions, image, &run, setup.rate, host) {
        Ok(()) => Ok(Done { run: Some(summary) }),
        Err(refusal) => Err(report_fault(refusal)),
    }
}

/// The demo program: its bytes and its image.
fn made_program(alloc: Global, functions: u32) -> Result<(Vec<u8>, Image), Fault>
    requires some { 1 ≤ functions }
    requires few { functions ≤ 2000 }
    ensures read { IfOk result (λ made. IsDemoRead functions made.0.items made.1) }
    ensures refused { IfErr result (IsDemoRefused functions) }
{
    let Ok(bytes) = demo_elf::program(alloc, functions) else {
        return Err(Fault::OutOfMemory);
    };
    match elf32_syms::read(alloc, bytes.as_slice()) {
        Ok(image) => Ok((bytes, image)),
        Err(refusal) => Err(elf_fault(refusal)),
    }
}

/// Writes the program to the file that a word names, where one does.
#[tactic(auto)]
fn write_program<H: Host>(
    words: &Words<'_>,
    elf: Option<u32>,
    bytes: &[u8],
    host: &mut H,
) -> Result<(), Failed>
    requires { (H.outside host.old).is_writing ≡ false }
    ensures { Performs (given_file_acts (option_map (nth_word words.now) elf)
        bytes.now) (H.outside host.old) (H.outside host.new) result }
{
    match elf {
        None => Ok(()),
        Some(word) => write_file(words.name(word), bytes, host),
    }
}

/// Prints the summary of a run.
fn tell_demo<H: Host>(
    alloc: Global,
    functions: u32,
    image: &Image,
    run: &Run,
    rate: u32,
    host: &mut H,
) -> Result<(), ReportRefusal>
    requires ascending { IsAscending image.now.symbols }
    requires ended { IsSome run.now.ending }
    ensures { TellsDemo functions image.now run.now rate (H.outside host.old)
        (H.outside host.new) result }
{
    let total = run_profile(alloc, run.gmon(), rate)?;
    let findings = findings_of(alloc, image, total)?;
    print_text(summary_of(functions, run, &findings).bytes(), host)
}

/// The two lines of a demo's summary: how its run went, and how its samples were attributed.
#[tactic(auto, using(propagate::proofs::BoundLemmas::roots_have_all))]
fn summary_of(functions: u32, run: &Run, findings: &Findings) -> Line
    requires ended { IsSome run.now.ending }
    requires few { length findings.now.shares.of ≡ findings.now.graph.functions }
    requires flow { IsFlow findings.now.graph findings.now.shares.of findings.now.flow }
    requires graph { IsGraph findings.now.graph }
    ensures { SumsUp functions run.now findings.now result }
{
    let pairs = run.gmon().pairs();
    let cycles = cycles_of(&findings.graph);
    let attributed = findings.shares.attributed();
    let roots = roots_of(&findings.graph, &findings.flow);
    let mut line = Line::new();
    put_run(&mut line, functions, run.summary(), pairs, cycles);
    put_grains(&mut line, attributed, roots);
    line
}

/// How a demo's run went.
#[tactic(auto, using(text_cols::proofs::Lengths::lengths), unfolding(courses::specs::Reports::demo_run_line))]
fn put_run(line: &mut Line, functions: u32, run: RunSummary, pairs: u32, cycles: u32)
    requires { line.old ≡ [] }
    ensures text { line.new ≡ demo_run_line functions run pairs cycles }
    ensures short { length line.new ≤ 140 }
{
    put_number(line, b"demo ", functions);
    put_number(line, b": ", run.retired);
    put_number(line, b" instructions, ", run.samples);
    put_number(line, b" samples, ", run.calls);
    put_number(line, b" calls, ", run.lost);
    put_number(line, b" lost, ", pairs);
    put_number(line, b" arcs, ", cycles);
    line.put(b" cycles\n");
}

/// How the samples of a demo's run were attributed: all grains of functions, and those of the components
/// that no other one calls.
#[tactic(auto, using(text_cols::proofs::Lengths::lengths), unfolding(courses::specs::Reports::grains_line))]
fn put_grains(line: &mut Line, attributed: u128, roots: u128)
    requires room { length line.old ≤ 140 }
    ensures { line.new ≡ line.old ++ grains_line attributed roots }
{
    line.put(b"attributed ");
    line.decimal(attributed);
    line.put(b" grains, roots ");
    line.decimal(roots);
    line.put(b" grains\n");
}

/// How many components are cycles.
fn cycles_of(graph: &Graph) -> u32
    ensures { result ≡ cycle_count graph.now }
{
    let mut cycles = 0;
    for c in 0..graph.component_count() {
        if graph.is_cycle(c) {
            cycles += 1;
        }
    }
    cycles
}

/// The grains of the components that no other one calls, with what they call.
fn roots_of(graph: &Graph, flow: &Flow) -> u128
    requires selves { length flow.now.self ≡ component_count graph.now }
    requires children { length flow.now.child ≡ component_count graph.now }
    requires few { time_of_roots graph.now flow.now < 2 ^ 65 }
    ensures roots { result ≡ time_of_roots graph.now flow.now }
    ensures within { result < 2 ^ 65 }
{
    let mut grains = 0;
    for c in 0..graph.component_count() {
        if graph.entering(c) == 0 {
            grains += flow.self_of(c) + flow.child_of(c);
        }
    }
    grains
}
