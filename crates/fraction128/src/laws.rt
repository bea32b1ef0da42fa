//! What lowest terms, sums and products are, in other words.

ghost use Rattle.std.specs.Prelude.{◌≡◌, ◌<◌, ◌+◌, ◌*◌, ℕ};
ghost use Rattle.std.specs.Int.{IsGcd};
ghost use Rattle.fraction128.specs.Fractions.{Fraction, IsValue, gcd, lowest, fraction_sum, product_of};

/// Lowest terms keep the value, have no common divisor but 1, and are the only fraction of which both holds.
pub fn lowest_terms()
    ensures divisor { (a b : ℕ) → IsGcd a b (gcd a b) }
    ensures value { (n d : ℕ) → 0 < d → IsValue (lowest n d) n d }
    ensures lowest { (n d : ℕ) → 0 < d → gcd (lowest n d).num (lowest n d).den ≡ 1 }
    ensures one { (f h : Fraction) → 0 < f.den → 0 < h.den → gcd f.num f.den ≡ 1
        → gcd h.num h.den ≡ 1 → f.num * h.den ≡ h.num * f.den → f ≡ h }
{}

/// Sums and products have the exact values.
pub fn exact_values()
    ensures sums { (f h : Fraction) → 0 < f.den → 0 < h.den
        → IsValue (fraction_sum f h) (f.num * h.den + h.num * f.den) (f.den * h.den) }
    ensures products { (f h : Fraction) → 0 < f.den → 0 < h.den
        → IsValue (product_of f h) (f.num * h.num) (f.den * h.den) }
{}
