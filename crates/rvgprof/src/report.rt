//! The command `report`.

ghost use Rattle.std.specs.Prelude.{[], ◌∷◌};
ghost use Rattle.courses.specs.Answer.{chosen_by, report_course};
ghost use Rattle.courses.specs.Contract.{Acted};
ghost use Rattle.courses.specs.Standing.{Stands};
ghost use Rattle.command_words.specs.Words.{AreCuts, AreRising};

use command_inputs::{read_profiles, read_program};
use command_reports::print_reports;
use command_words::{Selection, Words};
use courses::{Done, Fault};
use host_port::Host;
use std::alloc::Global;

/// Adds up profile files, and prints reports of their sum for a program.
pub fn report<H: Host>(
    alloc: Global,
    words: &Words<'_>,
    elf: u32,
    gmons: &[u32],
    selection: &Selection,
    host: &mut H,
) -> Result<Done, Fault>
    requires stands { Stands words.now (H.outside host.old) (H.outside host.old) 0 []
        (report_course elf gmons.now (chosen_by words.now selection.now)) }
    requires rising { AreRising (elf ∷ gmons.now) }
    requires cuts { AreCuts words.now selection.now }
    ensures { Acted words.now (H.outside host.old) (H.outside host.new) result }
{
    let (_, image) = read_program(alloc, words, elf, host)?;
    let total = read_profiles(alloc, words, gmons, host)?;
    print_reports(alloc, words, selection, &image, total, host)?;
    Ok(Done { run: None })
}
