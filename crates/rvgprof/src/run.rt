//! The command `run`.

ghost use Rattle.std.specs.Prelude.{[]};
ghost use Rattle.courses.specs.Answer.{files_named, run_course};
ghost use Rattle.courses.specs.Contract.{Acted};
ghost use Rattle.courses.specs.Standing.{Stands};
ghost use Rattle.command_words.specs.Words.{IsRunSetup};

use command_inputs::read_program;
use command_runs::{RunOutputs, run_program};
use command_words::Words;
use courses::{Done, Fault};
use host_port::Host;
use prof_machine::Setup;
use std::alloc::Global;

/// Runs a program, and writes its profile.
pub fn run<H: Host>(
    alloc: Global,
    words: &Words<'_>,
    elf: u32,
    outputs: RunOutputs,
    setup: Setup,
    host: &mut H,
) -> Result<Done, Fault>
    requires stands { Stands words.now (H.outside host.old) (H.outside host.old) 0 []
        (run_course elf (files_named words.now outputs.gmon outputs.form outputs.memory) setup) }
    requires within { IsRunSetup outputs.form setup }
    ensures { Acted words.now (H.outside host.old) (H.outside host.new) result }
{
    let (bytes, image) = read_program(alloc, words, elf, host)?;
    let (_, summary) = run_program(alloc, words, &image, bytes.as_slice(), outputs, setup, host)?;
    Ok(Done { run: Some(summary) })
}
