//! Adding what was read of a file to a profile.

ghost use Rattle.std.specs.Prelude.{IfErr, OnOk};
ghost use Rattle.gp_base.specs.Spans.{HasRange};
ghost use Rattle.gmon_data.specs.Content.{wide_record, wide_records, with_records, IsAdded, IsStopped, IsWithin as IsWithinLimits};
ghost use Rattle.gmon_cells.specs.Views.{rec_viewed};
ghost use Rattle.gmon_gnu.specs.Held.{held_recs, held_rec, recs_of, AreWithin, CanBeAdded, IsBodyHeld, IsEntryHeld, entries_recs, HaveRanges};

use crate::state::{Body, Entry, State};
use gmon_cells::RecView;
use gmon_data::{AddRefusal, Profile};

impl State {
    /// Adds the records to a profile, without a list of them. Room is taken first, where there is some.
    pub(crate) fn add_to(&self, profile: &mut Profile) -> Result<(), AddRefusal>
        requires { CanBeAdded self.now profile.old }
        ensures added { OnOk result (IsAdded
            (wide_records (recs_of self.now)) profile.old profile.new) }
        ensures stopped { IfErr result (λ refusal. IsStopped refusal
            (wide_records (recs_of self.now)) profile.old profile.new) }
    {
        let arcs = self.arcs.as_slice();
        profile.expect_records(arcs, self.pairs.cells.as_slice());
        self.add_entries(profile)?;
        profile.add_arcs(&arcs[self.run as usize..])?;
        Ok(())
    }

    /// Adds the records of the entries.
    fn add_entries(&self, profile: &mut Profile) -> Result<(), AddRefusal>
        requires held { AreWithin self.now }
        requires ranges { HaveRanges self.now }
        requires within { IsWithinLimits
            (with_records (entries_recs self.now.fields.items self.now.counters.cells.items
            self.now.pairs.cells.items self.now.arcs.items self.now.entries.items) profile.old) }
        ensures added { OnOk result (IsAdded
            (entries_recs self.now.fields.items self.now.counters.cells.items
            self.now.pairs.cells.items self.now.arcs.items self.now.entries.items) profile.old profile.new) }
        ensures stopped { IfErr result (λ refusal. IsStopped refusal
            (entries_recs self.now.fields.items self.now.counters.cells.items
            self.now.pairs.cells.items self.now.arcs.items self.now.entries.items) profile.old profile.new) }
    {
        let entries = self.entries.as_slice();
        for i in 0..entries.len() {
            self.add_entry(profile, entries[i])?;
        }
        Ok(())
    }

    /// Adds the records of an entry: the arcs before it, and what it stands for.
    fn add_entry(&self, profile: &mut Profile, entry: Entry) -> Result<(), AddRefusal>
        requires held { IsEntryHeld self.now entry }
        requires range { HasRange (held_rec self.now entry.body) }
        requires within { IsWithinLimits (with_records (wide_records (held_recs self.now entry)) profile.old) }
        ensures added { OnOk result (IsAdded (wide_records (held_recs self.now entry))
            profile.old profile.new) }
        ensures stopped { IfErr result (λ refusal. IsStopped refusal (wide_records (held_recs self.now entry))
            profile.old profile.new) }
    {
        profile.add_arcs(self.arcs_before(entry))?;
        self.add_body(profile, entry.body)
    }

    /// Adds the record that counters or pairs belong to.
    pub(crate) fn add_body(&self, profile: &mut Profile, body: Body) -> Result<(), AddRefusal>
        requires held { IsBodyHeld self.now body }
        requires range { HasRange (held_rec self.now body) }
        requires within { IsWithinLimits (with_records (wide_record (held_rec self.now body)) profile.old) }
        ensures added { OnOk result (IsAdded (wide_record (held_rec self.now body)) profile.old profile.new) }
        ensures stopped { IfErr result (λ refusal. IsStopped refusal (wide_record (held_rec self.now body))
            profile.old profile.new) }
    {
        add_view(profile, self.view(body))
    }
}

/// Adds a record.
#[tactic(auto, using(gmon_data::proofs::RecordLemmas::blocks_accepted))]
fn add_view(profile: &mut Profile, view: RecView<'_>) -> Result<(), AddRefusal>
    requires range { HasRange (rec_viewed view) }
    requires within { IsWithinLimits (with_records (wide_record (rec_viewed view)) profile.old) }
    ensures added { OnOk result (IsAdded (wide_record (rec_viewed view.entry)) profile.old profile.new) }
    ensures stopped { IfErr result (λ refusal. IsStopped refusal (wide_record (rec_viewed view.entry))
        profile.old profile.new) }
{
    match view {
        RecView::Hist(hist) => profile.add_counts(hist.low, hist.high, hist.unit, hist.counters),
        RecView::Arc(arc) => Ok(profile.add_arcs(&[arc])?),
        RecView::Blocks(blocks) => Ok(profile.add_blocks(blocks)?),
    }
}
