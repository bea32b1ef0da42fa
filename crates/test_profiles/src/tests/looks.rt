//! What tests look at in profiles.

use gmon_data::Profile;
use std::process::Abort;

/// How many histograms, arcs and block addresses a profile has.
pub(super) fn counts_of(profile: &Profile) -> (usize, usize, usize) {
    (
        profile.hist_count(),
        profile.arc_count(),
        profile.block_count(),
    )
}

/// The samples, calls and executions of a profile.
pub(super) fn totals_of(profile: &Profile) -> (u64, u64, u64) {
    (profile.samples(), profile.calls(), profile.blocks())
}

/// Whether the profile has these arcs, in this order.
pub(super) fn has_arcs(profile: &Profile, arcs: &[(u32, u32, u64)]) -> bool {
    if profile.arc_count() != arcs.len() {
        return false;
    }
    for i in 0..arcs.len() {
        if profile.arc(i) != arcs[i] {
            return false;
        }
    }
    true
}

/// This is the text.
pub(super) fn expect_text(rt: &impl Abort, text: &str, want: &str, name: &str) {
    assert_eq!(rt; text, want, "{name}");
}
