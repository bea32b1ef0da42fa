//! The profile of what was read of a file.

ghost use Rattle.std.specs.Prelude.{◌≡◌, ◌<◌, ◌≤◌, ◌^◌, ◌++◌, true, length, take, Some, Err, IfErr, IfOk, IfSome, OnOk};
ghost use Rattle.std.specs.List.{AllByRecursion, flat_map};
ghost use Rattle.gp_base.specs.Spans.{HasRange};
ghost use Rattle.gmon_data.specs.Content.{empty_content, conflict_of, wide_records, with_records, IsAdded, IsStopped, IsWithin as IsWithinLimits};
ghost use Rattle.gmon_data.specs.Hists.{IsUnlike};
ghost use Rattle.gmon_data.specs.declared.refusal.AddRefusal.TheVariants.{Unlike};
ghost use Rattle.gmon_gnu.specs.FirstHists.{conflict_among_first};
ghost use Rattle.gmon_gnu.specs.Held.{arcs_before, held_rec, recs_of, AreWithin, CanBeAdded, HaveRanges, IsBodyHeld, IsConflictOf, IsEntryHeld, IsProfileOf};
ghost use Rattle.gmon_gnu.specs.Making.{block_recs, hist_recs, later_recs, other_recs, behind_recs, IsPlacedIn, place_of, placed_recs, IsOrderOf};

use crate::first_hists::{conflict_among_first, counted_hist, hist_of};
use crate::state::{Body, Entry, HistFields, State};
use gmon_data::{AddRefusal, HistRange, Profile, unlike};
use gp_base::Unit;
use std::alloc::{AllocError, Global};

/// Where memory ran out, so many first histograms with counters are compared with those before them. For each one all
/// entries before it are looked at, so that a file of millions of other records takes seconds at most.
const COMPARED: usize = 64;

/// A histogram among entries: its range, and the number of its entry.
#[derive(Clone, Copy)]
pub(crate) struct Placed {
    pub(crate) range: HistRange,
    pub(crate) entry: u32,
}

impl State {
    /// The profile of the records. Where one of them can't be added, the first one of the file that can't is told, and
    /// never want of memory where it is among the first histograms.
    pub(crate) fn into_profile(&self, alloc: Global) -> Result<Profile, AddRefusal>
        requires { CanBeAdded self.now empty_content }
        ensures made { IfOk result (IsProfileOf self.now) }
        ensures refusal { IfErr result (IsConflictOf self.now) }
        ensures told { IfSome (conflict_among_first 64 (wide_records (recs_of self.now)))
            (λ unlike. result ≡ Err (Unlike unlike)) }
    {
        match self.made_profile(alloc) {
            Ok(profile) => Ok(profile),
            Err(AddRefusal::Unlike(unlike)) => Err(AddRefusal::Unlike(unlike)),
            Err(AddRefusal::OutOfMemory) => Err(self.refusal_without_memory()),
        }
    }

    /// The first conflict of the file, if it is among the first histograms, or else want of memory. Takes no memory.
    fn refusal_without_memory(&self) -> AddRefusal
        requires held { AreWithin self.now }
        requires ranges { HaveRanges self.now }
        ensures refusal { IsConflictOf self.now result }
        ensures told { IfSome (conflict_among_first 64 (wide_records (recs_of self.now)))
            (λ unlike. result ≡ Unlike unlike) }
    {
        let entries = self.entries.as_slice();
        match conflict_among_first(self.fields.as_slice(), entries, COMPARED) {
            Some(unlike) => AddRefusal::Unlike(unlike),
            None => AddRefusal::OutOfMemory,
        }
    }

    /// The profile of the records.
    fn made_profile(&self, alloc: Global) -> Result<Profile, AddRefusal>
        requires { CanBeAdded self.now empty_content }
        ensures made { IfOk result (IsProfileOf self.now) }
        ensures refusal { IfErr result (IsConflictOf self.now) }
    {
        let mut profile = Profile::new(alloc);
        match self.add_all(alloc, &mut profile) {
            Ok(()) => Ok(profile),
            Err(refusal) => Err(refusal),
        }
    }

    /// Adds the records to an empty profile: in address order, or from the begin in the order of the file where a
    /// histogram is unlike one before it, so that the first one of the file that can't be added is told.
    fn add_all(&self, alloc: Global, profile: &mut Profile) -> Result<(), AddRefusal>
        requires able { CanBeAdded self.now empty_content }
        requires empty { profile.old ≡ empty_content }
        ensures made { OnOk result (IsProfileOf self.now profile.new) }
        ensures refusal { IfErr result (IsConflictOf self.now) }
    {
        if self.add_in_address_order(alloc, profile)? {
            return Ok(());
        }
        *profile = Profile::new(alloc);
        self.add_to(profile)
    }

    /// Adds the records to an empty profile, and says whether it went so far. The histograms before the first one that
    /// is unlike one before it are added in ascending order of their low addresses, where each one takes its place
    /// behind those before it, and the others in the order of the file: a profile is the same in whatever order they
    /// come. It ends early where one of the first is unlike another after all.
    fn add_in_address_order(&self, alloc: Global, profile: &mut Profile) -> Result<bool, AddRefusal>
        requires able { CanBeAdded self.now empty_content }
        requires empty { profile.old ≡ empty_content }
        ensures made { IfOk result (λ all. all ≡ true → IsProfileOf self.now profile.new) }
        ensures refusal { IfErr result (IsConflictOf self.now) }
    {
        let entries = self.entries.as_slice();
        let (alike, order) = alike_in_order(alloc, self.fields.as_slice(), entries)?;
        let (first, later) = entries.split_at(alike);
        profile.expect_records(self.arcs.as_slice(), self.pairs.cells.as_slice());
        match self.add_placed(profile, first, order.as_slice()) {
            Ok(()) => {
                self.add_behind(profile, later)?;
                Ok(true)
            }
            Err(AddRefusal::OutOfMemory) => Err(AddRefusal::OutOfMemory),
            Err(AddRefusal::Unlike(_)) => Ok(false),
        }
    }

    /// Adds the histograms with these places, in this order.
    fn add_placed(
        &self,
        profile: &mut Profile,
        first: &[Entry],
        order: &[Placed],
    ) -> Result<(), AddRefusal>
        requires held { AllByRecursion (IsEntryHeld self.now) first.now }
        requires ranges { AllByRecursion (λ e. HasRange (held_rec self.now e.body)) first.now }
        requires inside { AllByRecursion (λ p. p.entry < length first.now) order.now }
        requires within { IsWithinLimits (with_records (placed_recs self.now.fields.items
            self.now.counters.cells.items self.now.pairs.cells.items first.now order.now)
            profile.old) }
        ensures { OnOk result (IsAdded (placed_recs self.now.fields.items
            self.now.counters.cells.items self.now.pairs.cells.items first.now order.now)
            profile.old profile.new) }
    {
        for i in 0..order.len() {
            let entry = first[order[i].entry as usize];
            self.add_body(profile, entry.body)?;
        }
        Ok(())
    }

    /// Adds the histograms of later entries in the order of the file, and then all other records.
    fn add_behind(&self, profile: &mut Profile, later: &[Entry]) -> Result<(), AddRefusal>
        requires held { AreWithin self.now }
        requires run { self.now.run ≤ length self.now.arcs.items }
        requires spans { AllByRecursion (IsEntryHeld self.now) later.now }
        requires ranges { AllByRecursion (λ e. HasRange (held_rec self.now e.body)) later.now }
        requires within { IsWithinLimits (with_records (behind_recs self.now later.now)
            profile.old) }
        ensures added { OnOk result (IsAdded (behind_recs self.now later.now)
            profile.old profile.new) }
        ensures refusal { IfErr result (λ refusal. IsUnlike refusal (conflict_of profile.old
            (later_recs self.now.fields.items self.now.counters.cells.items
            self.now.pairs.cells.items later.now))) }
    {
        let arcs = self.arcs.as_slice();
        self.add_later(profile, later)?;
        self.add_others(profile)?;
        profile.add_arcs(&arcs[self.run as usize..])?;
        Ok(())
    }

    /// Adds the histograms of entries in the order of the file.
    fn add_later(&self, profile: &mut Profile, later: &[Entry]) -> Result<(), AddRefusal>
        requires spans { AllByRecursion (IsEntryHeld self.now) later.now }
        requires ranges { AllByRecursion (λ e. HasRange (held_rec self.now e.body)) later.now }
        requires within { IsWithinLimits (with_records (later_recs self.now.fields.items
            self.now.counters.cells.items self.now.pairs.cells.items later.now) profile.old) }
        ensures added { OnOk result (IsAdded (later_recs self.now.fields.items
            self.now.counters.cells.items self.now.pairs.cells.items later.now)
            profile.old profile.new) }
        ensures stopped { IfErr result (λ refusal. IsStopped refusal (later_recs
            self.now.fields.items self.now.counters.cells.items self.now.pairs.cells.items
            later.now) profile.old profile.new) }
    {
        for i in 0..later.len() {
            self.add_hist(profile, later[i].body)?;
        }
        Ok(())
    }

    /// Adds a record where it is a histogram.
    fn add_hist(&self, profile: &mut Profile, body: Body) -> Result<(), AddRefusal>
        requires held { IsBodyHeld self.now body }
        requires range { HasRange (held_rec self.now body) }
        requires within { IsWithinLimits (with_records (hist_recs self.now.fields.items
            self.now.counters.cells.items self.now.pairs.cells.items body) profile.old) }
        ensures added { OnOk result (IsAdded (hist_recs self.now.fields.items
            self.now.counters.cells.items self.now.pairs.cells.items body)
            profile.old profile.new) }
        ensures stopped { IfErr result (λ refusal. IsStopped refusal (hist_recs
            self.now.fields.items self.now.counters.cells.items self.now.pairs.cells.items body)
            profile.old profile.new) }
    {
        match body {
            Body::Hist { .. } => self.add_body(profile, body),
            Body::Blocks { .. } => Ok(()),
        }
    }

    /// Adds the arcs before each entry, and its counts of blocks.
    fn add_others(&self, profile: &mut Profile) -> Result<(), AllocError>
        requires held { AreWithin self.now }
        requires within { IsWithinLimits (with_records (flat_map
            (other_recs self.now.pairs.cells.items self.now.arcs.items)
            self.now.entries.items) profile.old) }
        ensures { OnOk result (IsAdded (flat_map
            (other_recs self.now.pairs.cells.items self.now.arcs.items)
            self.now.entries.items) profile.old profile.new) }
    {
        let entries = self.entries.as_slice();
        for i in 0..entries.len() {
            self.add_other(profile, entries[i])?;
        }
        Ok(())
    }

    /// Adds the arcs before an entry, and its counts of blocks.
    fn add_other(&self, profile: &mut Profile, entry: Entry) -> Result<(), AllocError>
        requires held { IsEntryHeld self.now entry }
        requires within { IsWithinLimits (with_records
            (other_recs self.now.pairs.cells.items self.now.arcs.items entry) profile.old) }
        ensures { OnOk result (IsAdded
            (other_recs self.now.pairs.cells.items self.now.arcs.items entry)
            profile.old profile.new) }
    {
        profile.add_arcs(self.arcs_before(entry))?;
        self.add_counts_of(profile, entry.body)
    }

    /// Adds the counts of blocks where a record has some.
    fn add_counts_of(&self, profile: &mut Profile, body: Body) -> Result<(), AllocError>
        requires held { IsBodyHeld self.now body }
        requires within { IsWithinLimits (with_records
            (block_recs self.now.pairs.cells.items body) profile.old) }
        ensures { OnOk result (IsAdded
            (block_recs self.now.pairs.cells.items body) profile.old profile.new) }
    {
        let pairs = self.pairs.cells.as_slice();
        match body {
            Body::Hist { .. } => Ok(()),
            Body::Blocks { start, end } => {
                profile.add_blocks(&pairs[start as usize..end as usize])
            }
        }
    }
}

/// How many first entries seem to have no histogram that is unlike one before it, and the histograms among them in
/// ascending order of their low addresses.
fn alike_in_order(
    alloc: Global,
    fields: &[HistFields],
    entries: &[Entry],
) -> Result<(usize, Vec<Placed>), AllocError>
    requires fields { AllByRecursion (λ e. IsPlacedIn (length fields.now) e.body) entries.now }
    requires few { length entries.now < 2 ^ 32 }
    ensures within { IfOk result (λ pair. pair.0 ≤ length entries.now) }
    ensures inside { IfOk result (λ pair. AllByRecursion (λ p.
        p.entry < length (take pair.0 entries.now)) pair.1.items) }
    ensures all { IfOk result (λ pair. IsOrderOf (take pair.0 entries.now) pair.1.items) }
{
    let order = hist_order(alloc, fields, entries)?;
    let alike = count_alike(order.as_slice(), count_of_one_unit(fields, entries));
    if alike >= entries.len() {
        return Ok((entries.len(), order));
    }
    let first = entries.split_at(alike).0;
    Ok((alike, hist_order(alloc, fields, first)?))
}

/// How many entries come before the first histogram whose unit isn't that of the first one.
fn count_of_one_unit(fields: &[HistFields], entries: &[Entry]) -> usize
    requires { AllByRecursion (λ e. IsPlacedIn (length fields.now) e.body) entries.now }
    ensures { result ≤ length entries.now }
{
    let mut first: Option<Unit> = None;
    for i in 0..entries.len() {
        if let Some((range, unit)) = counted_hist(fields, entries[i].body) {
            let old = first.unwrap_or(unit);
            if unlike(range, old, range, unit).is_some() {
                return i;
            }
            first = Some(old);
        }
    }
    entries.len()
}

/// How many entries come before the first one whose histogram is unlike one before it, as far as neighbours in
/// ascending order tell: it overlaps one of them and has another range.
fn count_alike(order: &[Placed], entries: usize) -> usize
    ensures { result ≤ entries }
{
    if are_alike(order, entries) {
        return entries;
    }
    let mut low = 0;
    let mut size = entries;
    while size > 1 {
        let half = size / 2;
        if are_alike(order, low + half) {
            low += half;
        }
        size -= half;
    }
    low
}

/// Whether neighbours among the histograms of the first entries, which are in ascending order, have the same range or
/// don't overlap.
fn are_alike(order: &[Placed], entries: usize) -> bool {
    let mut last: Option<HistRange> = None;
    for placed in order {
        let range = placed.range;
        if range.count > 0 && (placed.entry as usize) < entries {
            if let Some(old) = last {
                if range.low < old.high && range != old {
                    return false;
                }
            }
            last = Some(range);
        }
    }
    true
}

/// The histograms among entries in ascending order of their low addresses.
fn hist_order(
    alloc: Global,
    fields: &[HistFields],
    entries: &[Entry],
) -> Result<Vec<Placed>, AllocError>
    requires fields { AllByRecursion (λ e. IsPlacedIn (length fields.now) e.body) entries.now }
    requires few { length entries.now < 2 ^ 32 }
    ensures inside { IfOk result (λ order.
        AllByRecursion (λ p. p.entry < length entries.now) order.items) }
    ensures all { IfOk result (λ order. IsOrderOf entries.now order.items) }
{
    let mut order = Vec::new(alloc);
    for i in 0..entries.len() {
        push_hist(&mut order, fields, entries[i].body, i as u32)?;
    }
    order.sort_unstable_by_key(|placed| placed.range.low);
    Ok(order)
}

/// Adds a record to the list of histograms where it is one.
fn push_hist(
    order: &mut Vec<Placed>,
    fields: &[HistFields],
    body: Body,
    entry: u32,
) -> Result<(), AllocError>
    requires { IsPlacedIn (length fields.now) body }
    ensures { OnOk result (order.new.items ≡ order.old.items ++ place_of fields.now body entry) }
{
    match hist_of(fields, body) {
        Some((range, _)) => Ok(order.push(Placed { range, entry })?),
        None => Ok(()),
    }
}
