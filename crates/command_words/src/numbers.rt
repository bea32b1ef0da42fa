//! Numbers among the words.

ghost use Rattle.std.specs.Prelude.{◌≡◌, IfSome};
ghost use Rattle.std.specs.List.{list_all};
ghost use Rattle.std.specs.Char.{is_ascii_digit};
ghost use Rattle.settings.specs.Setup.{IsFraction};
ghost use Rattle.command_words.specs.Numbers.{fraction_within, has_leading_zero, is_number, number_within};

/// Digits of the longest number.
const MAX_DIGITS: usize = 10;

/// The number that a word writes, where it is one from `low` to `high`.
pub fn number_in(word: &str, low: u32, high: u32) -> Option<u32>
    ensures { result ≡ number_within low high word.now }
{
    if !is_number(word.as_bytes()) {
        return None;
    }
    let Ok(number) = word.parse::<u32>() else {
        return None;
    };
    if low <= number && number <= high {
        return Some(number);
    }
    None
}

/// The number that a word writes, where it is 2, 4, 8 or 16.
pub fn fraction_in(word: &str) -> Option<u32>
    ensures reads { result ≡ fraction_within word.now }
    ensures within { IfSome result (λ n. IsFraction n) }
{
    match number_in(word, 2, 16) {
        Some(n) if n == 2 || n == 4 || n == 8 || n == 16 => Some(n),
        _ => None,
    }
}

/// Whether a word is one to ten decimal digits, without a leading zero, except `0` itself.
fn is_number(word: &[u8]) -> bool
    ensures { result ≡ is_number word.now }
{
    if word.is_empty() || word.len() > MAX_DIGITS || has_leading_zero(word) {
        return false;
    }
    all_digits(word)
}

/// Whether all bytes are decimal digits.
fn all_digits(word: &[u8]) -> bool
    ensures { result ≡ list_all is_ascii_digit word.now }
{
    word.iter().all(|byte| byte.is_ascii_digit())
}

/// Whether a word begins with a zero, and goes on.
fn has_leading_zero(word: &[u8]) -> bool
    ensures { result ≡ has_leading_zero word.now }
{
    match word {
        [first, _, ..] => *first == b'0',
        _ => false,
    }
}
