use gp_base::*;
use std::test::Fail;

#[test]
fn numbers_as_bytes(rt: HostRuntime) {
    assert_eq!(rt; le2(0x1234), [0x34, 0x12]);
    assert_eq!(rt; le4(0x0005_1879), [0x79, 0x18, 0x05, 0x00]);
    let bytes = [0xFF, 0x79, 0x18, 0x05, 0x00, 0x34, 0x12];
    assert_eq!(rt; word(&bytes, 1), 0x0005_1879);
    assert_eq!(rt; half(&bytes, 5), 0x1234);
    let arc = RawArc {
        from: 0x0001_0010,
        to: 0x0001_0000,
        count: 0x0203_0405,
    };
    assert_eq!(rt; arc_text(arc), [0x10, 0, 1, 0, 0, 0, 1, 0, 5, 4, 3, 2]);
}

#[test]
fn quotients_are_rounded_down(rt: HostRuntime) {
    for (num, den, want) in [
        (0, 7, 0),
        (7, 2, 3),
        (u128::from(u64::MAX), 2, (1 << 63) - 1),
        (1 << 64, 3, 6_148_914_691_236_517_205),
        (5, 1 << 64, 0),
        (1 << 127, 1 << 64, 1 << 63),
        (u128::MAX, u128::MAX, 1),
    ] {
        assert_eq!(rt; quotient(num, den), want, "{num} / {den}");
    }
}

#[test]
fn lists_grow_and_change(rt: HostRuntime) -> Result<(), Fail> {
    let mut totals = Totals::new(rt.alloc());
    totals.push(7)?;
    totals.push(8)?;
    assert_eq!(rt; totals.as_slice().len(), 2);
    totals.set(1, 40);
    assert_eq!(rt; totals.as_slice(), [7, 40].as_slice());
    let copy = totals.clone()?;
    totals.set(0, 1);
    assert_eq!(rt;
        copy.as_slice(),
        [7, 40].as_slice(),
        "a copy has memory of its own"
    );
    let counts = Counts::from([1, 2, 3].to_vec(rt.alloc())?);
    assert_eq!(rt; counts.as_slice(), [1, 2, 3].as_slice());
    Ok(())
}

#[test]
fn refusals_are_compared_by_their_parts(rt: HostRuntime) {
    let torn = GmonRefusal::Rest { at: 40 };
    assert!(rt; torn == GmonRefusal::Rest { at: 40 });
    assert!(rt; torn != GmonRefusal::Rest { at: 52 });
    assert!(rt; torn != GmonRefusal::Short { at: 40 });
}

/// What is limited, the limit, and the number.
const LIMITS: [(&str, u64, u64); 13] = [
    (
        "bytes of an ELF file",
        limits::MAX_ELF_BYTES as u64,
        67_108_864,
    ),
    (
        "bytes of profile files",
        limits::MAX_PROFILE_BYTES as u64,
        67_108_864,
    ),
    ("profile files", limits::MAX_PROFILE_FILES as u64, 16),
    ("program headers", limits::MAX_PROGRAM_HEADERS as u64, 64),
    ("symbols", limits::MAX_SYMBOLS as u64, 65_536),
    ("bytes of a name", limits::MAX_NAME_BYTES as u64, 4_095),
    ("bytes of a text", limits::MAX_TEXT_BYTES as u64, 16_777_216),
    (
        "last end of a text",
        limits::MAX_TEXT_END as u64,
        0xFFFF_F000,
    ),
    ("least MiB of RAM", limits::MIN_RAM_MIB as u64, 4),
    ("most MiB of RAM", limits::MAX_RAM_MIB as u64, 256),
    ("largest number", limits::MAX_NUMBER as u64, 2_147_483_647),
    ("harts", limits::MAX_HARTS as u64, 8),
    ("functions of the demo", limits::MAX_DEMO as u64, 2_000),
];

#[test]
fn limits_are_those_numbers(rt: HostRuntime) {
    for (name, limit, number) in &LIMITS {
        assert_eq!(rt; *limit, *number, "{name}");
    }
}
