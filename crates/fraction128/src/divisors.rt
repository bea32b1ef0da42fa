//! The greatest common divisor.

ghost use Rattle.std.specs.Prelude.{◌≡◌, ◌<◌, ◌≤◌, ◌^◌, ◌↔◌, IsTrue};
ghost use Rattle.fraction128.specs.Fractions.{gcd};

/// The greatest common divisor of two numbers of 64 bits, by Euclid.
fn narrow_divisor(a: u64, b: u64) -> u64
    ensures { result ≡ gcd a b }
{
    let mut x = a;
    let mut y = b;
    while y != 0 {
        let rest = x % y;
        x = y;
        y = rest;
    }
    x
}

/// Whether a number has more than 64 bits.
fn is_wide(n: u128) -> bool
    ensures { IsTrue result ↔ 2 ^ 64 ≤ n }
{
    n > u128::from(u64::MAX)
}

/// The greatest common divisor, by Euclid: in 64 bits as soon as both numbers have no more.
pub fn divisor(a: u128, b: u128) -> u128
    ensures value { result ≡ gcd a b }
    ensures some { 0 < b → 0 < result }
{
    let mut x = a;
    let mut y = b;
    while y != 0 {
        if !is_wide(x) && !is_wide(y) {
            return u128::from(narrow_divisor(x as u64, y as u64));
        }
        let rest = x % y;
        x = y;
        y = rest;
    }
    x
}
