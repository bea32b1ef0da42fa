//! Leaving arcs out of a profile.

ghost use Rattle.std.specs.Prelude.{◌≡◌, true, IfOk, OnOk, filter, map, string_bytes};
ghost use Rattle.std.specs.List.{All};
ghost use Rattle.elf32_syms.specs.Owners.{IsAscending};
ghost use Rattle.settings.specs.CutWords.{is_cut_word};
ghost use Rattle.gmon_data.specs.Content.{IsProfile, IsWithin, empty_content, with_records};
ghost use Rattle.profile_sum.specs.Sum.{arc_record, hist_records};
ghost use Rattle.arc_filter.specs.Cuts.{stays, without_cuts};

use crate::marks::{is_cut, table_of};
use elf32_syms::Symbol;
use gmon_data::{AddRefusal, Profile};
use profile_sum::addition::{add_blocks, add_hists};
use std::alloc::{AllocError, Global};

/// Puts the histograms into a profile that holds nothing, which has no conflict with them.
fn put_hists(left: &mut Profile, profile: &Profile) -> Result<(), AllocError>
    requires empty { left.old ≡ empty_content }
    requires profile { IsProfile profile.now }
    requires within { IsWithin (with_records (hist_records profile.now) left.old) }
    ensures { OnOk result (left.new ≡ with_records (hist_records profile.now) left.old) }
{
    left.holds();
    match add_hists(left, profile) {
        Ok(()) => Ok(()),
        Err(AddRefusal::OutOfMemory) => Err(AllocError),
        Err(AddRefusal::Unlike(_)) => unreachable!(),
    }
}

/// Puts the arcs that aren't cut.
fn put_arcs(
    alloc: Global,
    left: &mut Profile,
    profile: &Profile,
    symbols: &[Symbol],
    cuts: &[String],
) -> Result<(), AllocError>
    requires ordered { IsAscending symbols.now }
    requires words { All (λ word. is_cut_word (string_bytes word) ≡ true) cuts.now }
    requires within { IsWithin (with_records
        (map arc_record (filter (stays symbols.now (map string_bytes cuts.now)) profile.now.arcs))
        left.old) }
    ensures { OnOk result (left.new ≡ with_records
        (map arc_record (filter (stays symbols.now (map string_bytes cuts.now)) profile.now.arcs))
        left.old) }
{
    let table = table_of(alloc, symbols, cuts)?;
    for i in 0..profile.arc_count() {
        let (from, to, count) = profile.arc(i);
        if !is_cut(symbols, &table, from, to) {
            left.add_calls(from, to, count)?;
        }
    }
    Ok(())
}

/// The profile without the arcs that are cut: those whose call site lies in a function with the name FROM,
/// and whose callee in one with the name TO, for some word FROM/TO. All else stays, and so does the order.
/// Of several symbols with one name all are meant; a name that no symbol has cuts nothing.
///
/// Names are compared once for each symbol and word. The time grows as a look-up among the symbols for each arc, and
/// as the words for each arc whose caller some word names.
pub fn cut(
    alloc: Global,
    profile: &Profile,
    symbols: &[Symbol],
    cuts: &[String],
) -> Result<Profile, AllocError>
    requires ordered { IsAscending symbols.now }
    requires words { All (λ word. is_cut_word (string_bytes word) ≡ true) cuts.now }
    ensures { IfOk result (λ p. p ≡ without_cuts profile.now symbols.now
        (map string_bytes cuts.now)) }
{
    let mut left = Profile::new(alloc);
    match put_all(alloc, &mut left, profile, symbols, cuts) {
        Ok(()) => Ok(left),
        Err(error) => Err(error),
    }
}

/// Puts what isn't cut into a profile that holds nothing.
fn put_all(
    alloc: Global,
    left: &mut Profile,
    profile: &Profile,
    symbols: &[Symbol],
    cuts: &[String],
) -> Result<(), AllocError>
    requires empty { left.old ≡ empty_content }
    requires ordered { IsAscending symbols.now }
    requires words { All (λ word. is_cut_word (string_bytes word) ≡ true) cuts.now }
    ensures { OnOk result (left.new ≡ without_cuts profile.now symbols.now
        (map string_bytes cuts.now)) }
{
    profile.holds();
    put_hists(left, profile)?;
    left.expect_profile(profile);
    put_arcs(alloc, left, profile, symbols, cuts)?;
    add_blocks(left, profile)?;
    Ok(())
}
