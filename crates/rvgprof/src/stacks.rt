//! The command `folded`.

ghost use Rattle.std.specs.Prelude.{[]};
ghost use Rattle.settings.specs.Setup.{IsSetup};
ghost use Rattle.courses.specs.Answer.{folded_course};
ghost use Rattle.courses.specs.Contract.{Acted};
ghost use Rattle.courses.specs.Standing.{Stands};

use command_inputs::read_program;
use command_runs::fold_program;
use command_words::Words;
use courses::{Done, Fault};
use host_port::Host;
use prof_machine::Setup;
use std::alloc::Global;

/// Runs a program, and prints the stacks that it was sampled in, or with `inclusive` its functions.
pub fn print_stacks<H: Host>(
    alloc: Global,
    words: &Words<'_>,
    elf: u32,
    inclusive: bool,
    setup: Setup,
    host: &mut H,
) -> Result<Done, Fault>
    requires stands { Stands words.now (H.outside host.old)
        (H.outside host.old) 0 [] (folded_course elf inclusive setup) }
    requires within { IsSetup setup }
    ensures { Acted words.now (H.outside host.old) (H.outside host.new) result }
{
    let (bytes, image) = read_program(alloc, words, elf, host)?;
    let (run, folded) = fold_program(alloc, &image, bytes.as_slice(), setup, host)?;
    match folded::write(&folded, image.symbols.as_slice(), inclusive, host) {
        Ok(()) => Ok(Done {
            run: Some(run.summary()),
        }),
        Err(_) => Err(Fault::WriteFault),
    }
}
