//! What an entry of the call graph is of.

ghost use Rattle.std.specs.Prelude.{◌≡◌};
ghost use Rattle.graph_report.specs.Entries.{first_function, subject_rank};

/// A cycle as a whole, known by its head, or a function.
#[derive(Clone, Copy)]
pub enum Subject {
    Cycle(u32),
    Function(u32),
}

/// A function, or the head of a cycle.
pub(crate) fn first_of(subject: Subject) -> u32
    ensures { result ≡ first_function subject }
{
    match subject {
        Subject::Cycle(head) => head,
        Subject::Function(f) => f,
    }
}

/// Cycles stand before functions.
pub(crate) fn rank_of(subject: Subject) -> u8
    ensures { result ≡ subject_rank subject }
{
    match subject {
        Subject::Cycle(_) => 0,
        Subject::Function(_) => 1,
    }
}
