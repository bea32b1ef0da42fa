ghost use Rattle.std.specs.Prelude.{◌<◌, ◌≤◌};

use gmon_block::{Block, Tos};
use std::alloc::{AllocError, Global};
use std::process::Abort;
use std::test::Fail;

// Whether `bytes` are 0 but for `piece`, which stands at `at`.
fn holds_only(bytes: &[u8], at: usize, piece: &[u8]) -> bool {
    for (i, b) in bytes.iter().enumerate() {
        let wanted = if at <= i && i - at < piece.len() {
            piece[i - at]
        } else {
            0
        };
        if *b != wanted {
            return false;
        }
    }
    true
}

#[test]
fn a_new_block_is_zeros_in_one_allocation(rt: HostRuntime) -> Result<(), Fail> {
    let b = Block::new(rt.alloc(), 50, 64, 64)?;
    assert_eq!(rt; b.bytes().len(), 856);
    assert!(rt; holds_only(b.bytes(), 0, &[]));
    Ok(())
}

#[test]
fn the_block_of_one_arc(rt: HostRuntime) -> Result<(), Fail> {
    let mut b = Block::new(rt.alloc(), 50, 6, 6)?;
    b.set_tos(
        0,
        Tos {
            selfpc: 0,
            count: 0,
            link: 1,
        },
    );
    b.set_tos(
        1,
        Tos {
            selfpc: 0x0001_0014,
            count: 1,
            link: 0,
        },
    );
    b.set_froms(1, 1);
    let bytes = b.bytes();
    assert_eq!(rt; bytes.len(), 624);
    assert!(rt;
        holds_only(&bytes[..12], 8, &[1]),
        "entry 0 has the last index in its link"
    );
    assert_eq!(rt;
        &bytes[12..20],
        [0x14, 0x00, 0x01, 0x00, 0x01, 0x00, 0x00, 0x00].as_slice()
    );
    assert!(rt; holds_only(&bytes[20..], 594, &[1]), "slot 1 is byte 614");
    Ok(())
}

// The bytes of entry `i` are those from `at` on, and a write to it leaves zeros everywhere else.
fn sets_an_entry_alone(rt: &impl Abort, alloc: Global, i: u32, at: usize) -> Result<(), Fail>
    requires { i < 50 }
{
    let mut b = Block::new(alloc, 50, 6, 6)?;
    let t = Tos {
        selfpc: 0x0403_0201,
        count: 0x0807_0605,
        link: 0x0a09,
    };
    b.set_tos(i, t);
    assert_eq!(rt; b.tos(i), t);
    assert!(rt; holds_only(b.bytes(), at, &[1, 2, 3, 4, 5, 6, 7, 8, 9, 10, 0, 0]));
    Ok(())
}

fn sets_a_counter_alone(rt: &impl Abort, alloc: Global, i: u32, at: usize) -> Result<(), Fail>
    requires { i < 6 }
{
    let mut b = Block::new(alloc, 50, 6, 6)?;
    b.set_kcount(i, 0x0201);
    assert_eq!(rt; b.kcount(i), 0x0201);
    assert!(rt; holds_only(b.bytes(), at, &[1, 2]));
    Ok(())
}

fn sets_a_slot_alone(rt: &impl Abort, alloc: Global, i: u32, at: usize) -> Result<(), Fail>
    requires { i < 6 }
{
    let mut b = Block::new(alloc, 50, 6, 6)?;
    b.set_froms(i, 0x0201);
    assert_eq!(rt; b.froms(i), 0x0201);
    assert!(rt; holds_only(b.bytes(), at, &[1, 2]));
    Ok(())
}

#[test]
fn a_setter_changes_its_item_alone(rt: HostRuntime) -> Result<(), Fail> {
    sets_an_entry_alone(&rt, rt.alloc(), 0, 0)?;
    sets_an_entry_alone(&rt, rt.alloc(), 49, 588)?;
    sets_a_counter_alone(&rt, rt.alloc(), 0, 600)?;
    sets_a_counter_alone(&rt, rt.alloc(), 5, 610)?;
    sets_a_slot_alone(&rt, rt.alloc(), 0, 612)?;
    sets_a_slot_alone(&rt, rt.alloc(), 5, 622)
}

// The last slot is the last two bytes of `size`.
fn ends_with_its_last_slot(
    rt: &impl Abort,
    alloc: Global,
    tos: u32,
    words: u32,
    size: usize,
) -> Result<(), Fail>
    requires tos { (1 ≤ tos) × (tos ≤ 65534) }
    requires words { (1 ≤ words) × (words ≤ 4194312) }
{
    let mut b = Block::new(alloc, tos, words, words)?;
    b.set_froms(words - 1, 65_533);
    assert_eq!(rt; b.froms(words - 1), 65_533);
    assert_eq!(rt; b.kcount(words - 1), 0);
    let bytes = b.bytes();
    assert_eq!(rt; bytes.len(), size);
    assert!(rt; bytes.ends_with(&[0, 0, 0xfd, 0xff]));
    Ok(())
}

#[test]
fn the_largest_block(rt: HostRuntime) -> Result<(), Fail> {
    ends_with_its_last_slot(&rt, rt.alloc(), 65_534, 4_194_312, 17_563_656)
}

// Whether a new block keeps what its last counter is set to.
fn keeps_a_counter(alloc: Global, tos: u32, words: u32, n: u16) -> Result<bool, AllocError>
    requires tos { (1 ≤ tos) × (tos ≤ 65534) }
    requires words { (1 ≤ words) × (words ≤ 4194312) }
{
    let mut b = Block::new(alloc, tos, words, words)?;
    b.set_kcount(words - 1, n);
    Ok(b.kcount(words - 1) == n)
}

// Each block is given back at its end: together these take more than the memory of a machine.
#[test]
fn blocks_are_given_back(rt: HostRuntime) -> Result<(), Fail> {
    for round in 0..3_000 {
        let kept = keeps_a_counter(rt.alloc(), 65_534, 4_194_312, round)?;
        assert!(rt; kept, "block {round}");
    }
    Ok(())
}
