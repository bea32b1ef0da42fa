//! Quotients of numbers of 128 bits, most of which have 64.

ghost use Rattle.std.specs.Prelude.{◌≡◌, ◌/◌, ◌<◌};

/// `num / den`, rounded down. Where both have 64 bits, it is divided in 64 bits.
pub fn quotient(num: u128, den: u128) -> u128
    requires { 0 < den }
    ensures { result ≡ num / den }
{
    if num > u128::from(u64::MAX) || den > u128::from(u64::MAX) {
        return num / den;
    }
    u128::from(num as u64 / den as u64)
}
