//! The first histograms with counters of what was read of a file. Nothing here takes memory.

ghost use Rattle.std.specs.Prelude.{◌≡◌, ◌<◌, [], length, None};
ghost use Rattle.std.specs.Option.{option_map};
ghost use Rattle.std.specs.List.{AllByRecursion};
ghost use Rattle.gmon_data.specs.Hists.{kept_unit};
ghost use Rattle.gmon_gnu.specs.Making.{hist_at, IsPlacedIn};
ghost use Rattle.gmon_gnu.specs.Searching as spec;

use crate::state::{Body, Entry, HistFields};
use gmon_data::{HistRange, Unlike, unlike};
use gp_base::Unit;

/// Why one of the first `most` histograms with counters can't be added to those before it: the first one that can't.
/// For each of them it goes over all entries before it.
#[tactic(auto, using(crate::proofs::SearchingLemmas::clear_here, crate::proofs::SearchingLemmas::none_left))]
pub(crate) fn conflict_among_first(
    fields: &[HistFields],
    entries: &[Entry],
    most: usize,
) -> Option<Unlike>
    requires { AllByRecursion (λ e. IsPlacedIn (length fields.now) e.body) entries.now }
    ensures { result ≡ spec.unlike_among [] (spec.counted_hists fields.now entries.now) most }
{
    let mut left = most;
    for i in 0..entries.len() {
        if left == 0 {
            return None;
        }
        let hist = counted_hist(fields, entries[i].body);
        if let Some(unlike) = unlike_before(fields, entries.split_at(i).0, hist) {
            return Some(unlike);
        }
        left = left_behind(left, hist);
    }
    None
}

/// How many histograms are left behind a record.
fn left_behind(left: usize, hist: Option<(HistRange, Unit)>) -> usize
    requires { 0 < left }
    ensures { result ≡ spec.left_behind left hist }
{
    match hist {
        Some(_) => left - 1,
        None => left,
    }
}

/// Why a histogram with counters can't be added to those of entries before it.
fn unlike_before(
    fields: &[HistFields],
    before: &[Entry],
    hist: Option<(HistRange, Unit)>,
) -> Option<Unlike>
    requires { AllByRecursion (λ e. IsPlacedIn (length fields.now) e.body) before.now }
    ensures { result ≡ spec.unlike_where_counted (spec.counted_hists fields.now before.now) hist }
{
    let Some((range, unit)) = hist else {
        return None;
    };
    if let Some(old) = lowest_unlike(fields, before, range) {
        return Some(Unlike::Range { old, new: range });
    }
    match first_unit(fields, before) {
        Some(old) => unlike(range, old, range, unit),
        None => None,
    }
}

/// The lowest histogram of entries that overlaps a range and has another one.
fn lowest_unlike(fields: &[HistFields], before: &[Entry], range: HistRange) -> Option<HistRange>
    requires { AllByRecursion (λ e. IsPlacedIn (length fields.now) e.body) before.now }
    ensures { result ≡ spec.lowest_unlike None (spec.counted_hists fields.now before.now) range }
{
    let mut lowest = None;
    for i in 0..before.len() {
        lowest = lower_unlike(lowest, counted_hist(fields, before[i].body), range);
    }
    lowest
}

/// The lower one of the lowest so far and of a histogram, where that overlaps a range and has another one.
fn lower_unlike(
    best: Option<HistRange>,
    hist: Option<(HistRange, Unit)>,
    range: HistRange,
) -> Option<HistRange>
    ensures { result ≡ spec.lower_where_counted best hist range }
{
    let Some((old, _)) = hist else {
        return best;
    };
    if old.low < range.high && range.low < old.high && old != range {
        Some(lower_one(best, old))
    } else {
        best
    }
}

fn lower_one(best: Option<HistRange>, old: HistRange) -> HistRange
    ensures { result ≡ spec.lower_one best old }
{
    match best {
        Some(best) => { if old.low < best.low { old } else { best } }
        None => old,
    }
}

/// The unit of the first histogram with counters.
fn first_unit(fields: &[HistFields], entries: &[Entry]) -> Option<Unit>
    requires { AllByRecursion (λ e. IsPlacedIn (length fields.now) e.body) entries.now }
    ensures { option_map kept_unit result
        ≡ spec.first_unit (spec.counted_hists fields.now entries.now) }
{
    for i in 0..entries.len() {
        if let Some((_, unit)) = counted_hist(fields, entries[i].body) {
            return Some(unit);
        }
    }
    None
}

/// The range and the unit of a record that is a histogram with counters.
pub(crate) fn counted_hist(fields: &[HistFields], body: Body) -> Option<(HistRange, Unit)>
    requires { IsPlacedIn (length fields.now) body }
    ensures { result ≡ spec.counted_hist fields.now body }
{
    match hist_of(fields, body) {
        Some((range, unit)) => {
            if range.count > 0 {
                Some((range, unit))
            } else {
                None
            }
        }
        None => None,
    }
}

/// The range and the unit of a record that is a histogram.
pub(crate) fn hist_of(fields: &[HistFields], body: Body) -> Option<(HistRange, Unit)>
    requires { IsPlacedIn (length fields.now) body }
    ensures { result ≡ hist_at fields.now body }
{
    match body {
        Body::Hist {
            fields: number,
            start,
            end,
        } => {
            let own = fields[number as usize];
            let range = HistRange {
                low: own.low,
                high: own.high,
                count: end - start,
            };
            Some((range, own.unit))
        }
        Body::Blocks { .. } => None,
    }
}
