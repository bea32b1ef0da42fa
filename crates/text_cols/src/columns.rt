//! A line that is filled from left to right.

ghost use Rattle.std.specs.Prelude.{◌≡◌, ◌+◌, ◌-◌, ◌*◌, ◌/◌, ◌%◌, ◌^◌, ◌<◌, ◌≤◌, max, [], ◌∷◌, ◌++◌, length, decimal};
ghost use Rattle.text_cols.specs.Columns.{hex8_of, hex_digit_of, hundredths_of, left_of, right_of, rounded_quotient, spaces, two_digits};

use gp_base::quotient;
use itoa::Buffer;
use std::marker::Model;

/// Spaces for a whole line.
static SPACES: [u8; 256] = [b' '; 256];

/// How many spaces are put at once where there is room.
const SPAN: usize = 32;

/// A line of text: up to 256 bytes, held in place. Contracts see the list of its bytes.
#[derive(Drop)]
pub struct Line {
    buffer: [u8; 256],
    len: usize,
}

impl Model for Line {
    ghost use Rattle.std.specs.Prelude.{ℕ, ◌≤◌, List, take};

    ghost Value = { List ℕ };

    ghost view = { λ a. take a.len a.buffer };

    ghost invariant = { λ a. a.len ≤ 256 };
}

impl Line {
    /// The empty line.
    pub fn new() -> Line
        ensures { result ≡ [] }
    {
        Line {
            buffer: [0; 256],
            len: 0,
        }
    }

    /// How many bytes still fit.
    pub fn room(&self) -> usize
        ensures room { result ≡ 256 - length self.now }
        ensures within { length self.now ≤ 256 }
    {
        256 - self.len
    }

    /// What the line holds.
    pub fn bytes(&self) -> &[u8]
        ensures bytes { result.now ≡ self.now }
        ensures within { length self.now ≤ 256 }
    {
        &self.buffer[..self.len]
    }

    /// Makes the line empty.
    pub fn clear(&mut self)
        ensures { self.new ≡ [] }
    {
        self.len = 0;
    }

    /// Adds the text. It needs to fit.
    pub fn put(&mut self, text: &[u8])
        requires { length self.old + length text.now ≤ 256 }
        ensures bytes { self.new ≡ self.old ++ text.now }
        ensures len { length self.new ≡ length self.old + length text.now }
    {
        let start = self.len;
        let end = start + text.len();
        self.buffer[start..end].copy_from_slice(text);
        self.len = end;
    }

    /// Adds the text and then spaces, up to `width` bytes together. A text of `width` bytes or more
    /// has none after it.
    pub fn left(&mut self, text: &[u8], width: usize)
        requires { length self.old + max width (length text.now) ≤ 256 }
        ensures bytes { self.new ≡ self.old ++ left_of text.now width }
        ensures len { length self.new ≡ length self.old + max width (length text.now) }
    {
        self.put(text);
        self.put_spaces(width.saturating_sub(text.len()));
    }

    /// Adds spaces and then the text, up to `width` bytes together. A text of `width` bytes or more
    /// has one space before it.
    pub fn right(&mut self, text: &[u8], width: usize)
        requires { length self.old + max width (length text.now + 1) ≤ 256 }
        ensures bytes { self.new ≡ self.old ++ right_of text.now width }
        ensures len { length self.new ≡ length self.old + max width (length text.now + 1) }
    {
        self.put_spaces(width.saturating_sub(text.len()).max(1));
        self.put(text);
    }

    /// Adds the decimal digits of the number: at most 39, and `0` for 0.
    pub fn decimal(&mut self, n: u128)
        requires { length self.old + length (decimal n) ≤ 256 }
        ensures bytes { self.new ≡ self.old ++ decimal n }
        ensures len { length self.new ≡ length self.old + length (decimal n) }
    {
        let mut digits = Buffer::new();
        self.put(digits.format(n).as_bytes());
    }

    /// Adds the eight hexadecimal digits of the number, in lower case.
    pub fn hex8(&mut self, n: u32)
        requires { length self.old + 8 ≤ 256 }
        ensures bytes { self.new ≡ self.old ++ hex8_of n }
        ensures len { length self.new ≡ length self.old + 8 }
    {
        self.put(&hex_digits(n));
    }

    /// Adds `num / den` with two digits after the point, rounded to the nearest, a half up: 5 / 100
    /// is `0.05`.
    pub fn hundredths(&mut self, num: u128, den: u128)
        requires divisor { 0 < den }
        requires sum { 200 * num + den < 2 ^ 128 }
        requires double { 2 * den < 2 ^ 128 }
        requires room { length self.old + length (hundredths_of num den) ≤ 256 }
        ensures bytes { self.new ≡ self.old ++ hundredths_of num den }
        ensures len { length self.new ≡ length self.old + length (hundredths_of num den) }
    {
        let (whole, rest) = in_hundredths(num, den);
        self.decimal(whole);
        self.put(&fraction(rest));
    }

    /// Adds spaces and then the digits of the number, as `right` does with a text.
    pub fn right_decimal(&mut self, n: u128, width: usize)
        requires { length self.old + max width (length (decimal n) + 1) ≤ 256 }
        ensures bytes { self.new ≡ self.old ++ right_of (decimal n) width }
        ensures len { length self.new ≡ length self.old + max width (length (decimal n) + 1) }
    {
        let mut digits = Buffer::new();
        self.right(digits.format(n).as_bytes(), width);
    }

    /// Adds spaces and then two numbers with a sign between them, as `right` does with a text.
    pub fn right_pair(&mut self, first: u128, sign: u8, second: u128, width: usize)
        requires { length self.old + max width
            (length (decimal first) + length (decimal second) + 2) ≤ 256 }
        ensures bytes { self.new ≡ self.old ++ right_of
            (decimal first ++ sign ∷ decimal second) width }
        ensures len { length self.new ≡ length self.old
            + max width (length (decimal first) + length (decimal second) + 2) }
    {
        let mut front = Buffer::new();
        let mut back = Buffer::new();
        let first = front.format(first).as_bytes();
        let second = back.format(second).as_bytes();
        self.put_spaces(width.saturating_sub(first.len() + second.len() + 1).max(1));
        self.put(first);
        self.put(&[sign]);
        self.put(second);
    }

    /// Adds spaces and then what `hundredths` adds, as `right` does with a text.
    pub fn right_hundredths(&mut self, num: u128, den: u128, width: usize)
        requires divisor { 0 < den }
        requires sum { 200 * num + den < 2 ^ 128 }
        requires double { 2 * den < 2 ^ 128 }
        requires room { length self.old + max width (length (hundredths_of num den) + 1) ≤ 256 }
        ensures bytes { self.new ≡ self.old ++ right_of (hundredths_of num den) width }
        ensures len { length self.new ≡ length self.old
            + max width (length (hundredths_of num den) + 1) }
    {
        let (whole, rest) = in_hundredths(num, den);
        let mut buffer = Buffer::new();
        let digits = buffer.format(whole).as_bytes();
        self.put_spaces(width.saturating_sub(digits.len() + 3).max(1));
        self.put(digits);
        self.put(&fraction(rest));
    }

    fn put_spaces(&mut self, n: usize)
        requires { length self.old + n ≤ 256 }
        ensures bytes { self.new ≡ self.old ++ spaces n }
        ensures len { length self.new ≡ length self.old + n }
    {
        let start = self.len;
        if n <= SPAN && start <= 256 - SPAN {
            self.buffer[start..start + SPAN].copy_from_slice(&[b' '; SPAN]);
            self.len = start + n;
        } else {
            self.put(&SPACES[..n]);
        }
    }
}

/// `num / den` in hundredths, rounded to the nearest, a half up: the whole ones and the hundredths of one.
fn in_hundredths(num: u128, den: u128) -> (u128, u8)
    requires divisor { 0 < den }
    requires sum { 200 * num + den < 2 ^ 128 }
    requires double { 2 * den < 2 ^ 128 }
    ensures whole { result.0 ≡ rounded_quotient num den / 100 }
    ensures rest { result.1 ≡ rounded_quotient num den % 100 }
{
    let rounded = quotient(200 * num + den, 2 * den);
    let whole = quotient(rounded, 100);
    (whole, (rounded - 100 * whole) as u8)
}

/// A point and the two digits of a number of hundredths.
fn fraction(hundredths: u8) -> [u8; 3]
    requires { hundredths < 100 }
    ensures { result ≡ 46 ∷ two_digits hundredths }
{
    [b'.', b'0' + hundredths / 10, b'0' + hundredths % 10]
}

fn hex_digits(n: u32) -> [u8; 8]
    ensures { result ≡ hex8_of n }
{
    [
        hex_digit((n >> 28) % 16),
        hex_digit((n >> 24) % 16),
        hex_digit((n >> 20) % 16),
        hex_digit((n >> 16) % 16),
        hex_digit((n >> 12) % 16),
        hex_digit((n >> 8) % 16),
        hex_digit((n >> 4) % 16),
        hex_digit(n % 16),
    ]
}

/// The character of a hexadecimal digit, in lower case.
pub fn hex_digit(digit: u32) -> u8
    requires { digit < 16 }
    ensures { result ≡ hex_digit_of digit }
{
    b"0123456789abcdef"[digit as usize]
}
