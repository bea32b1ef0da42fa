//! What is expected of records.

use gp_base::{RawArc, RawBlock, Rec};
use std::process::Abort;

/// The arc of a record that is one.
pub fn arc_in(rec: Option<&Rec>) -> Option<RawArc> {
    match rec {
        Some(Rec::Arc(arc)) => Some(*arc),
        _ => None,
    }
}

/// The range, the rate and the counters of a record that is a histogram.
pub fn hist_in(rec: Option<&Rec>) -> Option<(u32, u32, u32, &[u16])> {
    match rec {
        Some(Rec::Hist(hist)) => Some((
            hist.low,
            hist.high,
            hist.unit.rate,
            hist.counters.as_slice(),
        )),
        _ => None,
    }
}

/// The counts of blocks of a record that has some.
pub fn blocks_in(rec: Option<&Rec>) -> &[RawBlock] {
    match rec {
        Some(Rec::Blocks(blocks)) => blocks.as_slice(),
        _ => &[],
    }
}

/// The counters of the large files: 0, 1 and so on.
pub fn expect_large_counters(rt: &impl Abort, rec: &Rec) {
    let counters = match rec {
        Rec::Hist(hist) => hist.counters.as_slice(),
        _ => &[],
    };
    assert_eq!(rt; counters.len(), 4_000, "a histogram");
    for (counter, i) in counters.iter().zip(0..4_000) {
        assert_eq!(rt; *counter, i);
    }
}

/// The arcs of the large files: from 0 on, each to the next address, with one call more than that.
pub fn expect_large_arcs(rt: &impl Abort, recs: &[Rec]) {
    for (rec, from) in recs.iter().zip(0..7_664) {
        let wanted = RawArc {
            from,
            to: from.wrapping_add(1),
            count: from.wrapping_add(2),
        };
        assert_eq!(rt; arc_in(Some(rec)), Some(wanted), "an arc");
    }
}
