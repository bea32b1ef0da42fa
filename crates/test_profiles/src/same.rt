//! Whether two profiles hold the same.

use gmon_data::{Hist, Profile};

/// Whether two profiles hold the same: histograms, their unit, arcs and executions, in order.
pub fn are_same(a: &Profile, b: &Profile) -> bool {
    a.unit() == b.unit() && have_same_hists(a, b) && have_same_arcs(a, b) && have_same_blocks(a, b)
}

fn have_same_hists(a: &Profile, b: &Profile) -> bool {
    if a.hist_count() != b.hist_count() {
        return false;
    }
    for i in 0..a.hist_count() {
        if !are_same_hists(a.hist(i), b.hist(i)) {
            return false;
        }
    }
    true
}

fn are_same_hists(a: &Hist, b: &Hist) -> bool {
    a.low == b.low && a.high == b.high && a.counters.as_slice() == b.counters.as_slice()
}

fn have_same_arcs(a: &Profile, b: &Profile) -> bool {
    if a.arc_count() != b.arc_count() {
        return false;
    }
    for i in 0..a.arc_count() {
        if a.arc(i) != b.arc(i) {
            return false;
        }
    }
    true
}

fn have_same_blocks(a: &Profile, b: &Profile) -> bool {
    if a.block_count() != b.block_count() {
        return false;
    }
    for i in 0..a.block_count() {
        if a.block(i) != b.block(i) {
            return false;
        }
    }
    true
}
