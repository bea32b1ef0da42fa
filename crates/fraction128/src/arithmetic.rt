//! Fractions made of two numbers, sums and products.

ghost use Rattle.std.specs.Prelude.{◌≡◌, ◌<◌, ◌≢◌, ◌↔◌, ◌*◌, ◌/◌, IfSome, IsSome};
ghost use Rattle.fraction128.specs.Fractions.{gcd, lowest, sum_num, sum_den, fraction_sum, product_of, FitsSum, FitsProduct};
ghost use Rattle.fraction128.specs.Values.{value_of};

use crate::divisors::divisor;
use crate::fracs::Frac;
use gp_base::quotient;

/// Two numbers, each divided by their greatest common divisor.
fn quotients(a: u128, b: u128) -> (u128, u128)
    requires { 0 < b }
    ensures first { result.0 ≡ a / gcd a b }
    ensures second { result.1 ≡ b / gcd a b }
{
    let g = divisor(a, b);
    if g == 1 {
        return (a, b);
    }
    (quotient(a, g), quotient(b, g))
}

/// The fraction of two numbers, brought to lowest terms.
fn reduced(num: u128, den: u128) -> Frac
    requires { 0 < den }
    ensures { value_of result ≡ lowest num den }
{
    let (num, den) = quotients(num, den);
    Frac { num, den }
}

/// The two numbers of a sum over the least common denominator.
fn sum_numbers(f: &Frac, h: &Frac) -> Option<(u128, u128)>
    ensures num { IfSome result (λ p. p.0 ≡ sum_num (value_of f.now) (value_of h.now)) }
    ensures den { IfSome result (λ p. p.1 ≡ sum_den (value_of f.now) (value_of h.now)) }
    ensures fits { IsSome result ↔ FitsSum (value_of f.now) (value_of h.now) }
{
    let (u, v) = quotients(f.den, h.den);
    let left = f.num.checked_mul(v)?;
    let right = h.num.checked_mul(u)?;
    let num = left.checked_add(right)?;
    let den = u.checked_mul(h.den)?;
    Some((num, den))
}

/// The two numbers of a product in lowest terms.
fn product_numbers(f: &Frac, h: &Frac) -> Option<(u128, u128)>
    ensures num { IfSome result (λ p. p.0 ≡ (product_of (value_of f.now) (value_of h.now)).num) }
    ensures den { IfSome result (λ p. p.1 ≡ (product_of (value_of f.now) (value_of h.now)).den) }
    ensures fits { IsSome result ↔ FitsProduct (value_of f.now) (value_of h.now) }
{
    let (a, d) = quotients(f.num, h.den);
    let (c, b) = quotients(h.num, f.den);
    let num = a.checked_mul(c)?;
    let den = b.checked_mul(d)?;
    Some((num, den))
}

impl Frac {
    /// `num / den` in lowest terms; `None` where `den` is 0.
    pub fn new(num: u128, den: u128) -> Option<Frac>
        ensures value { IfSome result (λ f. value_of f ≡ lowest num den) }
        ensures some { IsSome result ↔ (0 < den) }
    {
        if den == 0 {
            return None;
        }
        Some(reduced(num, den))
    }

    /// The numerator.
    pub fn num(&self) -> u128
        ensures { result ≡ (value_of self.now).num }
    {
        self.num
    }

    /// The denominator.
    pub fn den(&self) -> u128
        ensures { result ≡ (value_of self.now).den }
    {
        self.den
    }

    /// The exact sum; `None` where over the least common denominator one of its two numbers is 2^128 or more.
    pub fn add(&self, other: &Frac) -> Option<Frac>
        ensures value { IfSome result (λ f. value_of f ≡ fraction_sum
            (value_of self.now) (value_of other.now)) }
        ensures fits { IsSome result ↔ FitsSum (value_of self.now) (value_of other.now) }
    {
        let (num, den) = sum_numbers(self, other)?;
        Some(reduced(num, den))
    }

    /// The exact product; `None` where in lowest terms one of its two numbers is 2^128 or more.
    pub fn mul(&self, other: &Frac) -> Option<Frac>
        ensures value { IfSome result (λ f. value_of f ≡ product_of
            (value_of self.now) (value_of other.now)) }
        ensures fits { IsSome result ↔ FitsProduct (value_of self.now) (value_of other.now) }
    {
        let (num, den) = product_numbers(self, other)?;
        Some(Frac { num, den })
    }
}
