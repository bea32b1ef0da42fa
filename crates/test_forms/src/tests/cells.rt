use super::records::arc_in;
use gmon_cells::{Column, push_arcs};
use gp_base::{RawArc, Rec};
use std::alloc::{AllocError, Global};
use std::process::Abort;
use std::test::Fail;

/// Two arcs, and the first bytes of a third.
const ARCS: [u8; 29] = [
    4, 0, 1, 0, 20, 0, 1, 0, 7, 0, 0, 0, // from 0x10004
    8, 0, 1, 0, 24, 0, 1, 0, 9, 0, 0, 0, // from 0x10008
    1, 2, 3, 4, 5,
];

/// The two arcs.
const TWO: [RawArc; 2] = [
    RawArc {
        from: 0x1_0004,
        to: 0x1_0014,
        count: 7,
    },
    RawArc {
        from: 0x1_0008,
        to: 0x1_0018,
        count: 9,
    },
];

/// A column of arcs that is fed two pieces.
fn fed(alloc: Global, front: &[u8], rest: &[u8]) -> Result<Column<RawArc>, AllocError> {
    let mut column = Column::new(alloc);
    if front.len() < 1_000 && rest.len() < 1_000 {
        column.reserve(front.len())?;
        column.feed(front);
        column.reserve(rest.len())?;
        column.feed(rest);
    }
    Ok(column)
}

fn expect_two(rt: &impl Abort, column: &Column<RawArc>, cut: usize) {
    assert_eq!(rt;
        (column.cells.as_slice(), column.torn.as_slice()),
        (TWO.as_slice(), [1, 2, 3, 4, 5].as_slice()),
        "cut at {cut}"
    );
}

#[test]
fn arcs_come_whole_however_they_are_cut(rt: HostRuntime) -> Result<(), Fail> {
    for cut in 0..30usize {
        let (front, rest) = ARCS.split_at(cut);
        let column = fed(rt.alloc(), front, rest)?;
        expect_two(&rt, &column, cut);
    }
    Ok(())
}

/// The records of arcs, and of none behind them.
fn recs_of(alloc: Global, arcs: &[RawArc]) -> Result<Vec<Rec>, AllocError> {
    let mut recs = Vec::new(alloc);
    push_arcs(&mut recs, arcs)?;
    push_arcs(&mut recs, arcs.split_at(0).0)?;
    Ok(recs)
}

fn expect_recs(rt: &impl Abort, recs: &[Rec]) {
    let last = RawArc {
        from: 0x1_0008,
        to: 0x1_0018,
        count: 9,
    };
    assert_eq!(rt;
        (recs.len(), arc_in(recs.last())),
        (2, Some(last)),
        "an arc"
    );
}

#[test]
fn arcs_become_records(rt: HostRuntime) -> Result<(), Fail> {
    let column = fed(rt.alloc(), &ARCS, &[])?;
    let recs = recs_of(rt.alloc(), column.cells.as_slice())?;
    expect_recs(&rt, recs.as_slice());
    Ok(())
}
