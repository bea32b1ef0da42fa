use fraction128::*;
use std::cmp::Ordering;
use std::test::Fail;

/// The two numbers of a fraction.
fn numbers(f: Option<Frac>) -> Option<(u128, u128)> {
    match f {
        Some(f) => Some((f.num(), f.den())),
        None => None,
    }
}

/// The sum of two fractions by their numbers.
fn sum(a: (u128, u128), b: (u128, u128)) -> Option<(u128, u128)> {
    numbers(Frac::new(a.0, a.1)?.add(&Frac::new(b.0, b.1)?))
}

/// The product of two fractions by their numbers.
fn product(a: (u128, u128), b: (u128, u128)) -> Option<(u128, u128)> {
    numbers(Frac::new(a.0, a.1)?.mul(&Frac::new(b.0, b.1)?))
}

/// How two fractions compare.
fn compared(a: (u128, u128), b: (u128, u128)) -> Option<Ordering> {
    Some(Frac::new(a.0, a.1)?.cmp(&Frac::new(b.0, b.1)?))
}

#[test]
fn lowest_terms(rt: HostRuntime) {
    assert!(rt; numbers(Frac::new(4, 6)) == Some((2, 3)));
    assert!(rt; numbers(Frac::new(0, 7)) == Some((0, 1)));
    assert!(rt; numbers(Frac::new(1, 0)) == None);
    assert!(rt; numbers(Frac::new(0, 0)) == None);
}

#[test]
fn sums(rt: HostRuntime) {
    assert!(rt; sum((1, 3), (1, 6)) == Some((1, 2)));
    assert!(rt; sum((0, 1), (5, 7)) == Some((5, 7)));
    assert!(rt; sum((1, 1 << 127), (1, 1 << 127)) == Some((1, 1 << 126)));
    assert!(rt; sum((u128::MAX, 1), (1, 1)) == None);
    // Over the least common denominator it has 141 bits, in lowest terms 41.
    assert!(rt;
        sum(
            (1, 1_329_229_263_435_516_101_133_208_556_983_549_952),
            (
                2_417_849_333_388_448_156_876_801,
                1_329_226_728_134_315_644_674_405_563_577_139_200
            )
        ) == None
    );
}

#[test]
fn products(rt: HostRuntime) {
    assert!(rt; product((2, 3), (3, 4)) == Some((1, 2)));
    assert!(rt; product((1, 1 << 127), (1, 2)) == None);
    assert!(rt; product((1 << 127, 3), (6, 1 << 127)) == Some((2, 1)));
    assert!(rt; product((0, 1), (1, u128::MAX)) == Some((0, 1)));
}

#[test]
fn order(rt: HostRuntime) {
    let max = u128::MAX;
    assert!(rt; compared((max, max - 1), (max - 1, max - 2)) == Some(Ordering::Less));
    assert!(rt; compared((2, 3), (4, 6)) == Some(Ordering::Equal));
    assert!(rt; compared((1, 2), (1, 3)) == Some(Ordering::Greater));
    assert!(rt; Frac::new(1, 2) == Frac::new(2, 4));
    assert!(rt; Frac::new(1, 2) != Frac::new(1, 3));
}

#[test]
fn copies(rt: HostRuntime) -> Result<(), Fail> {
    let f = Frac::new(6, 4).unwrap();
    let copy = f;
    let clone = f.clone()?;
    assert!(rt; (clone.num(), clone.den()) == (3, 2));
    assert!(rt; (copy.num(), copy.den()) == (3, 2));
    assert!(rt; clone == f);
    Ok(())
}
