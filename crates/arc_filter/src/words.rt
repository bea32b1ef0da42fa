//! The two names of a word that says which calls are cut.

ghost use Rattle.std.specs.Prelude.{◌≡◌, true};
ghost use Rattle.settings.specs.CutWords.{from_of, to_of, is_cut_word};

/// The name before the first `/` of a word, and the one behind it.
pub(crate) fn sides(word: &str) -> (&str, &str)
    requires { is_cut_word word.now ≡ true }
    ensures from { result.0.now ≡ from_of word.now }
    ensures to { result.1.now ≡ to_of word.now }
{
    word.split_once('/').unwrap()
}
