//! The command `annotate`.

ghost use Rattle.std.specs.Prelude.{[], ◌∷◌};
ghost use Rattle.courses.specs.Answer.{annotate_course};
ghost use Rattle.courses.specs.Contract.{Acted};
ghost use Rattle.courses.specs.Standing.{Stands};
ghost use Rattle.command_words.specs.Words.{AreRising};

use command_inputs::{read_profiles, read_program};
use command_words::Words;
use courses::{Done, Fault};
use host_port::Host;
use std::alloc::Global;

/// Adds up profile files, and prints a program's instructions with their executions and times.
pub fn print_listing<H: Host>(
    alloc: Global,
    words: &Words<'_>,
    elf: u32,
    gmons: &[u32],
    host: &mut H,
) -> Result<Done, Fault>
    requires stands { Stands words.now (H.outside host.old)
        (H.outside host.old) 0 [] (annotate_course elf gmons.now) }
    requires rising { AreRising (elf ∷ gmons.now) }
    ensures { Acted words.now (H.outside host.old) (H.outside host.new) result }
{
    let (bytes, image) = read_program(alloc, words, elf, host)?;
    let total = read_profiles(alloc, words, gmons, host)?;
    match annotate::write(&image, bytes.as_slice(), &total, host) {
        Ok(()) => Ok(Done { run: None }),
        Err(_) => Err(Fault::WriteFault),
    }
}
