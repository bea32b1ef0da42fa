//! What follows from the definitions, in other words.

ghost use Rattle.folded.specs.Laws.{LinesAddUp, LinesAscend, LinesCount, SamplesAreCounted, StacksEndWhereSampled};

/// The stack of a sample ends in the function that was sampled, behind one place for each call.
pub fn stacks_end_where_sampled()
    ensures { StacksEndWhereSampled }
{}

/// The samples that are followed, turn by turn, are those that the log counts.
pub fn samples_are_counted()
    ensures { SamplesAreCounted }
{}

/// The numbers of the lines add up to the number of samples.
pub fn lines_add_up()
    ensures { LinesAddUp }
{}

/// The line of a stack has the number of samples that have it.
pub fn lines_count()
    ensures { LinesCount }
{}

/// The lines' stacks ascend, so that each has one line.
pub fn lines_ascend()
    ensures { LinesAscend }
{}
