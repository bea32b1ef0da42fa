//! The records of a file, one after the other, as its reader keeps them. Nothing here takes memory.

ghost use Rattle.std.specs.Prelude.{◌≡◌, ◌≤◌, [], ◌∷◌, length, None, IfSome};
ghost use Rattle.gmon_cells.specs.Views.{rec_viewed};
ghost use Rattle.gmon_gnu.specs.Held.{arcs_before, held_rec, recs_of, AreWithin, IsBodyHeld};
ghost use Rattle.gmon_gnu.specs.Viewed.{front_arcs as spec_front, IsFrontWithin};

use crate::state::{Body, Entry, State};
use gmon_cells::{HistView, RecView};
use gp_base::RawArc;
use std::marker::Model;

impl State {
    /// The record that counters or pairs belong to.
    pub(crate) fn view(&self, body: Body) -> RecView<'_>
        requires { IsBodyHeld self.now body }
        ensures { rec_viewed result ≡ held_rec self.now body }
    {
        match body {
            Body::Hist { fields, start, end } => {
                let own = self.fields.as_slice()[fields as usize];
                RecView::Hist(HistView {
                    low: own.low,
                    high: own.high,
                    unit: own.unit,
                    counters: &self.counters.cells.as_slice()[start as usize..end as usize],
                })
            }
            Body::Blocks { start, end } => {
                RecView::Blocks(&self.pairs.cells.as_slice()[start as usize..end as usize])
            }
        }
    }

    /// The arcs before an entry.
    pub(crate) fn arcs_before(&self, entry: Entry) -> &[RawArc]
        requires { IsFrontWithin (length self.now.arcs.items) (entry ∷ []) }
        ensures { result.now ≡ arcs_before self.now.arcs.items entry }
    {
        &self.arcs.as_slice()[entry.first as usize..entry.last as usize]
    }

    /// The arcs in front of the record of the first entry, or behind all entries.
    fn front_arcs(&self, entries: &[Entry]) -> &[RawArc]
        requires front { IsFrontWithin (length self.now.arcs.items) entries.now }
        requires run { self.now.run ≤ length self.now.arcs.items }
        ensures { result.now ≡ spec_front self.now.arcs.items entries.now self.now.run }
    {
        match entries.first() {
            Some(entry) => self.arcs_before(*entry),
            None => &self.arcs.as_slice()[self.run as usize..],
        }
    }
}

/// The records of a file that are left to be given, in file order: the arcs that come next, and the entries
/// whose records come behind them. Contracts see the list of them.
#[derive(Drop)]
pub struct RecordViews<'r> {
    state: &'r State,
    front: &'r [RawArc],
    entries: &'r [Entry],
}

impl<'r> Model for RecordViews<'r> {
    ghost use Rattle.std.specs.Prelude.{List};
    ghost use Rattle.gp_base.specs.declared.records.Rec.{Rec};

    ghost Value = { List Rec };

    ghost use Rattle.gmon_gnu.specs.Viewed.{recs_left, IsWalk};

    ghost view = { recs_left };

    ghost invariant = { IsWalk };
}

impl<'r> RecordViews<'r> {
    /// The records of what was read.
    pub(crate) fn new(state: &'r State) -> RecordViews<'r>
        requires held { AreWithin state.now }
        requires run { state.now.run ≤ length state.now.arcs.items }
        ensures { result ≡ recs_of state.now }
    {
        let entries = state.entries.as_slice();
        RecordViews {
            state,
            front: state.front_arcs(entries),
            entries,
        }
    }

    /// The next one.
    pub fn next(&mut self) -> Option<RecView<'r>>
        ensures first { IfSome result (λ view. self.old ≡ rec_viewed view ∷ self.new) }
        ensures ended { result ≡ None → self.old ≡ [] }
        ensures stays_ended { result ≡ None → self.new ≡ [] }
    {
        let front = self.front;
        if let Some((arc, behind)) = front.split_first() {
            self.front = behind;
            return Some(RecView::Arc(*arc));
        }
        let state = self.state;
        let entries = self.entries;
        match entries.split_first() {
            Some((entry, behind)) => {
                self.entries = behind;
                self.front = state.front_arcs(behind);
                Some(state.view(entry.body))
            }
            None => None,
        }
    }
}
