//! A run of the profiling runtime, as tests write it down.
use gp_base::{Rec, Span};
use mcount_arcs::{Entered, Gmon, Looked};
use std::alloc::{AllocError, Global};
use test_profiles::boxed;

/// A call, entered to its end.
fn call(gmon: &mut Gmon, from: u32, to: u32) {
    if gmon.calls() == u32::MAX {
        return;
    }
    if let Entered::Walking(first) = gmon.enter(from, to) {
        let mut walk = first;
        for _ in 0..65_536 {
            match gmon.look(walk) {
                Looked::More(next) => walk = next,
                _ => return,
            }
        }
    }
}

/// A run of the text from 0x10000 to below 0x10010, with 1, 2, 300 and 1 samples in its words, one
/// sample behind it, and four calls.
pub fn small_run(alloc: Global) -> Result<Box<Gmon>, AllocError> {
    let text = Span {
        low: 0x1_0000,
        high: 0x1_0010,
    };
    let mut gmon = boxed(alloc, Gmon::startup(alloc, text, 2, 2)?)?;
    run(&mut gmon);
    Ok(gmon)
}

/// The samples and the calls of that run.
fn run(gmon: &mut Gmon) {
    gmon.tick(0x1_0000);
    gmon.tick(0x1_0004);
    gmon.tick(0x1_0007);
    for _ in 0..300 {
        gmon.tick(0x1_0008);
    }
    gmon.tick(0x1_000F);
    gmon.tick(0x1_0010);
    call(gmon, 0x1_0008, 0x1_0020);
    call(gmon, 0x1_0008, 0x1_0030);
    call(gmon, 0x1_0008, 0x1_0020);
    call(gmon, 0x1_0004, 0x1_0014);
}

fn has_small_counters(rec: &Rec) -> bool {
    match rec {
        Rec::Hist(hist) => hist.counters.as_slice() == [1, 2, 300, 1].as_slice(),
        _ => false,
    }
}

fn are_arcs_of(recs: &[Rec], gmon: &Gmon) -> bool {
    for (rec, written) in recs.iter().zip(gmon.arcs()) {
        match rec {
            Rec::Arc(arc) if *arc == written => {}
            _ => return false,
        }
    }
    true
}

/// Whether records are those of the small run: a histogram of its counters, and its three arcs in their order.
pub fn are_of_small_run(recs: &[Rec], gmon: &Gmon) -> bool {
    if recs.len() != 4 {
        return false;
    }
    let (hist, arcs) = recs.split_at(1);
    has_small_counters(&hist[0]) && are_arcs_of(arcs, gmon)
}
