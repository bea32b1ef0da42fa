//! The command `profile`.

ghost use Rattle.std.specs.Prelude.{◌≡◌, [], IfOk, OnOk};
ghost use Rattle.elf32_syms.specs.Owners.{IsAscending};
ghost use Rattle.courses.specs.Answer.{chosen_by, files_named, profile_course};
ghost use Rattle.courses.specs.Contract.{Acted};
ghost use Rattle.courses.specs.Standing.{Stands};
ghost use Rattle.command_words.specs.Words.{AreCuts, IsRunSetup};

use command_inputs::read_program;
use command_reports::print_reports;
use command_runs::{RunOutputs, run_program};
use command_words::{Selection, Words};
use courses::{Done, Fault};
use gmon_bsd::run_profile;
use host_port::Host;
use prof_machine::Setup;
use std::alloc::Global;

/// Runs a program, writes its profile, and prints reports of it. The file is not read again.
pub fn profile<H: Host>(
    alloc: Global,
    words: &Words<'_>,
    elf: u32,
    outputs: RunOutputs,
    setup: Setup,
    selection: &Selection,
    host: &mut H,
) -> Result<Done, Fault>
    requires stands { Stands words.now (H.outside host.old) (H.outside host.old) 0 []
        (profile_course elf (files_named words.now outputs.gmon outputs.form outputs.memory) setup
        (chosen_by words.now selection.now)) }
    requires within { IsRunSetup outputs.form setup }
    requires cuts { AreCuts words.now selection.now }
    ensures { Acted words.now (H.outside host.old) (H.outside host.new) result }
{
    let (bytes, image) = read_program(alloc, words, elf, host)?;
    let (run, summary) = run_program(alloc, words, &image, bytes.as_slice(), outputs, setup, host)?;
    let Ok(total) = run_profile(alloc, run.gmon(), setup.rate) else {
        return Err(Fault::OutOfMemory);
    };
    print_reports(alloc, words, selection, &image, total, host)?;
    Ok(Done { run: Some(summary) })
}
