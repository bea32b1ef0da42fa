//! The order of two fractions, with no number above 128 bits.

ghost use Rattle.std.specs.Prelude.{◌≡◌, ◌<◌};
ghost use Rattle.fraction128.specs.Fractions.{cross_cmp};

use std::cmp::Ordering;

/// The fractions `d / s` and `b / r`, which compare as `r / b` and `s / d` do.
fn turned(r: u128, b: u128, s: u128, d: u128) -> ((u128, u128), (u128, u128))
    ensures order { cross_cmp result.0.0 result.0.1 result.1.0 result.1.1 ≡ cross_cmp r b s d }
    ensures left { result.0.1 ≡ s }
    ensures right { result.1.1 ≡ r }
{
    ((d, s), (b, r))
}

/// How `a / b` compares with `c / d`: by their whole parts, and where these are the same by the rests, as
/// the fractions that these are upside down.
pub(crate) fn order(a: u128, b: u128, c: u128, d: u128) -> Ordering
    requires first { 0 < b }
    requires second { 0 < d }
    ensures { result ≡ cross_cmp a b c d }
{
    let mut left = (a, b);
    let mut right = (c, d);
    while left.0 / left.1 == right.0 / right.1 {
        let (r, s) = (left.0 % left.1, right.0 % right.1);
        if r == 0 || s == 0 {
            return r.cmp(&s);
        }
        (left, right) = turned(r, left.1, s, right.1);
    }
    (left.0 / left.1).cmp(&(right.0 / right.1))
}
