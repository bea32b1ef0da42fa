//! Runs of programs, and what they write.

ghost use Rattle.std.specs.Prelude.{◌≡◌, ◌+◌, ◌*◌, ◌<◌, ◌^◌, ℕ, List, [], true, false, length, IsSome, IfErr, IfOk, IfSome, OnOk, Some};
ghost use Rattle.elf32_syms.specs.Image.{IsWithinLimits};
ghost use Rattle.gmon_block.specs.Layout.{layout_of};
ghost use Rattle.host_port.specs.Host.{Puts};
ghost use Rattle.host_port.specs.declared.side.Side.TheVariants.{File};
ghost use Rattle.host_port.specs.Performing.{Performs};
ghost use Rattle.settings.specs.Setup.{IsSetup};
ghost use Rattle.mcount_arcs.specs.Arcs.{CallFits, arcs_of};
ghost use Rattle.mcount_arcs.specs.Value.{block_parts};
ghost use Rattle.prof_machine.specs.Plan.{after_drive};
ghost use Rattle.prof_machine.specs.Value.{IsLive, StandsFor, summary_of};
ghost use Rattle.prof_machine.specs.World.{World};
ghost use Rattle.courses.specs.Answer.{file_acts, files_named, given_file_acts, held_text, run_acts, runtime_text};
ghost use Rattle.command_words.specs.Items.{nth_word};
ghost use Rattle.command_runs.specs.Running.{IsRunOf, IsStartFault, IsStarted, RunsProgram};
ghost use Rattle.std.specs.List.{All};
ghost use Rattle.std.specs.Option.{option_map};

use crate::files::write_file;
use command_words::Words;
use courses::Fault;
use courses::refusals::start_fault;
use elf32_syms::Image;
use gp_base::Form;
use host_port::{Failed, Host};
use mcount_arcs::Gmon;
use prof_machine::{Run, RunSummary, Setup};
use std::alloc::Global;

/// What a run writes: its profile in a form, and perhaps the memory of its runtime, named by words.
#[derive(Clone, Copy)]
pub struct RunOutputs {
    pub gmon: u32,
    pub form: Form,
    pub memory: Option<u32>,
}

/// Starts a run of a program.
pub(crate) fn start_run(
    alloc: Global,
    image: &Image,
    bytes: &[u8],
    setup: Setup,
) -> Result<Run, Fault>
    requires limits { IsWithinLimits (length bytes.now) image.now }
    requires setup { IsSetup setup }
    ensures started { IfOk result (IsStarted image.now bytes.now setup) }
    ensures refused { IfErr result (IsStartFault image.now setup) }
{
    match Run::start(alloc, image, bytes, setup) {
        Ok(run) => Ok(run),
        Err(refusal) => Err(start_fault(refusal)),
    }
}

/// Runs a program to its end, and writes its files. It answers how the run went, too.
pub fn run_program<H: Host>(
    alloc: Global,
    words: &Words<'_>,
    image: &Image,
    bytes: &[u8],
    outputs: RunOutputs,
    setup: Setup,
    host: &mut H,
) -> Result<(Run, RunSummary), Fault>
    requires limits { IsWithinLimits (length bytes.now) image.now }
    requires setup { IsSetup setup }
    requires idle { (H.outside host.old).is_writing ≡ false }
    ensures runs { RunsProgram words.now
        (run_acts (files_named words.now outputs.gmon outputs.form outputs.memory) setup) setup
        image.now bytes.now (H.outside host.old) (H.outside host.new) result }
    ensures ended { IfOk result (λ ran. IsRunOf image.now bytes.now setup ran.0) }
    ensures sums_up { IfOk result (λ ran. (w : World) → StandsFor w ran.0
        → summary_of ran.0.machine.sizes w ≡ Some ran.1) }
{
    let mut run = start_run(alloc, image, bytes, setup)?;
    match perform(&mut run, words, outputs, setup, host) {
        Ok(()) => Ok(summed_up(run)),
        Err(_) => Err(Fault::WriteFault),
    }
}

/// Runs a program to its end, and writes nothing. It answers how the run went, too.
pub fn run_alone<H: Host>(
    alloc: Global,
    image: &Image,
    bytes: &[u8],
    setup: Setup,
    host: &mut H,
) -> Result<(Run, RunSummary), Fault>
    requires limits { IsWithinLimits (length bytes.now) image.now }
    requires setup { IsSetup setup }
    ensures runs { (words : List (List ℕ))
        → RunsProgram words (λ z w. w.prints) setup image.now bytes.now
        (H.outside host.old) (H.outside host.new) result }
    ensures ended { IfOk result (λ ran. IsRunOf image.now bytes.now setup ran.0) }
    ensures sums_up { IfOk result (λ ran. (w : World) → StandsFor w ran.0
        → summary_of ran.0.machine.sizes w ≡ Some ran.1) }
{
    let mut run = start_run(alloc, image, bytes, setup)?;
    match run.drive(host) {
        Ok(_) => Ok(summed_up(run)),
        Err(_) => Err(Fault::WriteFault),
    }
}

/// A run that ended, and how it went.
fn summed_up(run: Run) -> (Run, RunSummary)
    requires { IsSome run.ending }
    ensures same { result.0 ≡ run }
    ensures sums_up { (w : World) → StandsFor w run
        → summary_of run.machine.sizes w ≡ Some result.1 }
    ensures fits { (w : World) → StandsFor w run → All CallFits (arcs_of run.machine.sizes w.log) }
{
    let summary = run.summary();
    (run, summary)
}

/// Drives a run to its end, and then writes its files.
fn perform<H: Host>(
    run: &mut Run,
    words: &Words<'_>,
    outputs: RunOutputs,
    setup: Setup,
    host: &mut H,
) -> Result<(), Failed>
    requires live { IsLive run.old }
    requires setup { run.old.machine.setup ≡ setup }
    requires idle { (H.outside host.old).is_writing ≡ false }
    ensures performs { (w : World) → StandsFor w run.old → w.prints ≡ []
        → Performs (run_acts (files_named words.now outputs.gmon outputs.form
        outputs.memory) setup run.old.machine.sizes (after_drive run.old.machine w))
        (H.outside host.old) (H.outside host.new) result }
    ensures stands { OnOk result ((w : World) → StandsFor w run.old
        → StandsFor (after_drive run.old.machine w) run.new) }
    ensures machine { OnOk result (run.new.machine ≡ run.old.machine) }
    ensures ended { OnOk result (IsSome run.new.ending) }
{
    run.drive(host)?;
    let name = words.name(outputs.gmon);
    write_profile(
        run.gmon(),
        run.exec_counts(),
        outputs.form,
        name,
        setup.rate,
        host,
    )?;
    match outputs.memory {
        Some(memory) => write_image(run.gmon(), words.name(memory), host),
        None => Ok(()),
    }
}

/// Writes the profile of a run in a form to the named file: what its runtime holds, and behind it how often
/// instructions were executed, where that was counted.
fn write_profile<H: Host>(
    gmon: &Gmon,
    counts: &[u32],
    form: Form,
    name: &str,
    rate: u32,
    host: &mut H,
) -> Result<(), Failed>
    requires idle { (H.outside host.old).is_writing ≡ false }
    requires within { (i : ℕ) → i < length counts.now → gmon.now.sizes.low + 4 * i < 2 ^ 32 }
    ensures performs { Performs (file_acts name.now (held_text form rate gmon.now counts.now))
        (H.outside host.old) (H.outside host.new) result }
    ensures idle { OnOk result ((H.outside host.new).is_writing ≡ false) }
{
    host.create_output(name)?;
    write_held(gmon, counts, form, rate, host)?;
    host.close_output()
}

/// Writes it to the file that is being written.
fn write_held<H: Host>(
    gmon: &Gmon,
    counts: &[u32],
    form: Form,
    rate: u32,
    host: &mut H,
) -> Result<(), Failed>
    requires ready { (H.outside host.old).is_writing ≡ true }
    requires within { (i : ℕ) → i < length counts.now → gmon.now.sizes.low + 4 * i < 2 ^ 32 }
    ensures { Puts File (held_text form rate gmon.now counts.now) (H.outside host.old)
        (H.outside host.new) result }
{
    write_runtime(gmon, form, rate, host)?;
    gmon_gnu::write_blocks(gmon.sizes().low, counts, host)
}

/// Writes the profile of a runtime in a form to the file that is being written.
fn write_runtime<H: Host>(gmon: &Gmon, form: Form, rate: u32, host: &mut H) -> Result<(), Failed>
    requires { (H.outside host.old).is_writing ≡ true }
    ensures puts { Puts File (runtime_text form gmon.now rate) (H.outside host.old)
        (H.outside host.new) result }
    ensures ready { OnOk result ((H.outside host.new).is_writing ≡ true) }
{
    match form {
        Form::Bsd => gmon_bsd::write_run(gmon, rate, host),
        Form::Gnu => gmon_gnu::write_run(gmon, rate, host),
    }
}

/// Writes the memory of a runtime to the named file.
fn write_image<H: Host>(gmon: &Gmon, name: &str, host: &mut H) -> Result<(), Failed>
    requires { (H.outside host.old).is_writing ≡ false }
    ensures { Performs (file_acts name.now (layout_of (block_parts gmon.now))) (H.outside host.old)
        (H.outside host.new) result }
{
    write_file(name, gmon.block_bytes(), host)
}
