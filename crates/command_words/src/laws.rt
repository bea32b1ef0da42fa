//! What follows from the definition of the words.

ghost use Rattle.std.specs.Prelude.{◌≡◌, ◌<◌, ℕ, List, None, length};
ghost use Rattle.command_words.specs.Words.{command_of};

/// No line of more than 200 words has a reading: a command has few operands, and each of its options may be
/// given only so often.
pub fn lines_are_short()
    ensures { (words : List (List ℕ)) → 200 < length words → command_of words ≡ None }
{}
