//! Words that say which calls are cut.

ghost use Rattle.std.specs.Prelude.{◌≡◌};
ghost use Rattle.settings.specs.CutWords.{is_cut_word as spec};

/// Whether a word has the form FROM/TO: it is cut at its first `/`, and neither side is empty.
pub fn is_cut_word(word: &str) -> bool
    ensures { result ≡ spec word.now }
{
    match word.split_once('/') {
        Some((from, to)) => !from.is_empty() && !to.is_empty(),
        None => false,
    }
}
