//! What is known of the files that `demo_elf` writes, and of the demo program of every size.

ghost use Rattle.demo_laws.specs.Programs.{ProgramsAreReadBack};
ghost use Rattle.demo_laws.specs.Laws.{DemoHasImage, DemoHasSymbols, DemoIsAccepted, DemoStarts};
ghost use Rattle.demo_laws.specs.Witness.{WitnessHasImage, WitnessIsAccepted, WitnessStarts};

/// The file of each program is accepted, and its image is what it was made from.
pub fn programs_are_read_back()
    ensures { ProgramsAreReadBack }
{}

/// The file of the demo program is never refused, whatever its number of functions.
pub fn demo_is_accepted()
    ensures { DemoIsAccepted }
{}

/// What is read of it: where it begins, its segment, its text, its symbols and its hook.
pub fn demo_has_image()
    ensures image { DemoHasImage }
    ensures symbols { DemoHasSymbols }
{}

/// A run of it starts, with any memory that a run can be given: 4 to 256 MiB.
pub fn demo_starts()
    ensures { DemoStarts }
{}

/// A file that is written out in full is accepted, has its image, and a run of it starts.
pub fn witness_is_accepted()
    ensures accepted { WitnessIsAccepted }
    ensures image { WitnessHasImage }
    ensures starts { WitnessStarts }
{}
