use text_cols::*;

#[test]
#[tactic(auto, using(text_cols::proofs::Lengths::lengths))]
fn quotients_in_hundredths(rt: HostRuntime) {
    for (num, den, want) in [
        (5, 100, b"0.05".as_slice()),
        (0, 7, b"0.00".as_slice()),
        (1, 3, b"0.33".as_slice()),
        (2, 3, b"0.67".as_slice()),
        (1, 200, b"0.01".as_slice()),
        (1, 201, b"0.00".as_slice()),
        (12_345, 100, b"123.45".as_slice()),
        (
            1 << 120,
            1,
            b"1329227995784915872903807060280344576.00".as_slice(),
        ),
        (1, 1 << 126, b"0.00".as_slice()),
    ] {
        let mut line = Line::new();
        line.hundredths(num, den);
        assert_eq!(rt; line.bytes(), want, "{num} / {den}");
    }
}

#[test]
#[tactic(auto, using(text_cols::proofs::Lengths::lengths))]
fn numbers_at_the_right(rt: HostRuntime) {
    for (n, want) in [
        (0, b"    0".as_slice()),
        (1234, b" 1234".as_slice()),
        (12_345, b" 12345".as_slice()),
        (1 << 70, b" 1180591620717411303424".as_slice()),
    ] {
        let mut line = Line::new();
        line.right_decimal(n, 5);
        assert_eq!(rt; line.bytes(), want, "{n}");
    }
    for (num, den, want) in [
        (1, 3, b"  0.33".as_slice()),
        (199, 2, b" 99.50".as_slice()),
        (1_999_999, 20_000, b" 100.00".as_slice()),
        (12_345, 10, b" 1234.50".as_slice()),
        (1 << 70, 1, b" 1180591620717411303424.00".as_slice()),
    ] {
        let mut line = Line::new();
        line.right_hundredths(num, den, 6);
        assert_eq!(rt; line.bytes(), want, "{num} / {den}");
    }
    for (first, second, want) in [
        (0, 7, b"     0/7".as_slice()),
        (123, 4567, b" 123/4567".as_slice()),
        (1234, 567, b" 1234/567".as_slice()),
        (12_345, 1 << 70, b" 12345/1180591620717411303424".as_slice()),
    ] {
        let mut line = Line::new();
        line.right_pair(first, b'/', second, 8);
        assert_eq!(rt; line.bytes(), want, "{first} and {second}");
    }
}

#[test]
fn spaces_of_any_number(rt: HostRuntime) {
    for (before, width) in [
        (0, 31),
        (0, 32),
        (0, 33),
        (224, 31),
        (224, 32),
        (225, 31),
        (240, 16),
    ] {
        let mut line = Line::new();
        line.right(b"x", before.max(2));
        let start = line.bytes().len();
        line.left(b"", width);
        assert_eq!(rt; line.bytes().len(), start + width, "{before} and {width}");
        let (_, spaces) = line.bytes().split_at(start);
        assert!(rt; spaces.iter().all(|b| *b == b' '), "{before} and {width}");
    }
}

#[test]
fn columns_of_text(rt: HostRuntime) {
    for (text, at_left, at_right) in [
        (b"".as_slice(), b"    ".as_slice(), b"    ".as_slice()),
        (b"ab".as_slice(), b"ab  ".as_slice(), b"  ab".as_slice()),
        (b"abcd".as_slice(), b"abcd".as_slice(), b" abcd".as_slice()),
        (
            b"abcdef".as_slice(),
            b"abcdef".as_slice(),
            b" abcdef".as_slice(),
        ),
    ] {
        let mut line = Line::new();
        line.left(text, 4);
        assert_eq!(rt; line.bytes(), at_left, "at the left");
        line.clear();
        line.right(text, 4);
        assert_eq!(rt; line.bytes(), at_right, "at the right");
    }
}

#[test]
#[tactic(auto, using(text_cols::proofs::Lengths::lengths))]
fn numbers_and_room(rt: HostRuntime) {
    let mut line = Line::new();
    line.put(b"n ");
    line.decimal(0);
    line.put(b" ");
    line.hex8(0x0abc_def9);
    assert_eq!(rt; line.bytes(), b"n 0 0abcdef9".as_slice());
    assert_eq!(rt; line.room(), 244);
    line.clear();
    line.decimal(u128::MAX);
    assert_eq!(rt;
        line.bytes(),
        b"340282366920938463463374607431768211455".as_slice()
    );
}
