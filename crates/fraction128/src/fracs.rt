//! Fractions in lowest terms, their sums, products and order.

ghost use Rattle.std.specs.Prelude.{◌≡◌, ◌<◌, ◌*◌, ◌==◌, ◌&&◌, ◌↔◌, IfSome, IsSome};
ghost use Rattle.std.specs.Cmp.{partial_order_from_total, partial_equiv_from_equiv, eq_by_cmp_equiv};
ghost use Rattle.std.specs.Ordering.{as_partial_cmp, eq_by_cmp};
ghost use Rattle.std.proofs.Common.{refl};
ghost use Rattle.fraction128.specs.Fractions.{gcd, cross_cmp};
ghost use Rattle.fraction128.specs.OrderLaws.{cross_total};

use crate::order::order;
use std::cmp::Ordering;

/// A fraction in lowest terms: no number but 1 divides both of its numbers. Nothing that it does takes
/// memory.
#[derive(Clone, Copy, Debug)]
pub struct Frac {
    pub(crate) num: u128,
    pub(crate) den: u128,
    pub ghost some: { 0 < den },
    pub ghost lowest: { gcd num den ≡ 1 },
}

/// Whether two fractions have the same numbers.
fn have_same_numbers(f: &Frac, h: &Frac) -> bool
    ensures { result ≡ (f.now.num == h.now.num && f.now.den == h.now.den) }
{
    f.num == h.num && f.den == h.den
}

impl PartialEq for Frac {
    ghost eq = { eq_by_cmp (λ a b. cross_cmp a.num a.den b.num b.den) };

    ghost laws = { partial_equiv_from_equiv (eq_by_cmp_equiv (cross_total (λ a. a.num) (λ a. a.den) (λ a. a.some))) };

    fn eq(&self, other: &Frac) -> bool {
        have_same_numbers(self, other)
    }
}

impl Eq for Frac {
    ghost laws = { eq_by_cmp_equiv (cross_total (λ a. a.num) (λ a. a.den) (λ a. a.some)) };
}

impl Ord for Frac {
    ghost cmp = { λ a b. cross_cmp a.num a.den b.num b.den };

    ghost total = { cross_total (λ a. a.num) (λ a. a.den) (λ a. a.some) };

    ghost matches_partial_cmp = { λ a b. refl };

    ghost matches_eq = { λ a b. refl };

    fn cmp(&self, other: &Frac) -> Ordering {
        order(self.num, self.den, other.num, other.den)
    }
}

impl PartialOrd for Frac {
    ghost partial_cmp = { as_partial_cmp (λ a b. cross_cmp a.num a.den b.num b.den) };

    ghost laws = { partial_order_from_total (cross_total (λ a. a.num) (λ a. a.den) (λ a. a.some)) };

    fn partial_cmp(&self, other: &Frac) -> Option<Ordering> {
        Some(self.cmp(other))
    }
}
