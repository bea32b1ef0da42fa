//! The words of the commands.

ghost use Rattle.std.specs.Prelude.{◌≡◌};
ghost use Rattle.command_words.specs.Verbs.{verb_named};

/// A command, by its word.
#[derive(Clone, Copy)]
pub enum Verb {
    /// `show GMON`
    Show,
    /// `syms ELF`
    Syms,
    /// `run ELF GMON`
    Run,
    /// `sum OUT GMON..`
    Sum,
    /// `report ELF GMON..`
    Report,
    /// `profile ELF GMON`
    Profile,
    /// `demo FUNCTIONS`
    Demo,
    /// `annotate ELF GMON..`
    Annotate,
    /// `folded ELF`
    Folded,
    /// `--help`
    Help,
    /// `--version`
    Version,
}

/// The command that a word names.
pub fn verb_named(word: &str) -> Option<Verb>
    ensures { result ≡ verb_named word.now }
{
    match word {
        "show" => Some(Verb::Show),
        "syms" => Some(Verb::Syms),
        "run" => Some(Verb::Run),
        "sum" => Some(Verb::Sum),
        "report" => Some(Verb::Report),
        "profile" => Some(Verb::Profile),
        "demo" => Some(Verb::Demo),
        "annotate" => Some(Verb::Annotate),
        "folded" => Some(Verb::Folded),
        "--help" => Some(Verb::Help),
        "--version" => Some(Verb::Version),
        _ => None,
    }
}
