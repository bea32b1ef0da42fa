//! The records of a file, made from what was read of it.

ghost use Rattle.std.specs.Prelude.{◌≡◌, ◌≤◌, ◌++◌, length, IfOk, OnOk};
ghost use Rattle.gmon_cells.specs.Views.{rec_viewed};
ghost use Rattle.gmon_gnu.specs.Going.{resume};
ghost use Rattle.gmon_gnu.specs.Held.{IsHeld, IsEntryHeld, AreWithin, recs_of, held_recs, open_of, rest_of};
ghost use Rattle.gmon_gnu.specs.Ending.{ending_result};

use crate::state::{Entry, Part, State};
use gmon_cells::{RecView, push_arcs};
use gp_base::{BlockList, Counts, GmonRefusal, RawHist, Rec, RecList};
use std::alloc::{AllocError, Global};

impl State {
    /// What is wrong with a file of `len` bytes that ends here.
    pub(crate) fn end_fault(&self, len: u32) -> Option<GmonRefusal>
        requires { IsHeld self.now }
        ensures { resume len (open_of self.now.part self.now.counters.cells.items
            self.now.pairs.cells.items) (rest_of self.now.part self.now.torn self.now.counters.torn
            self.now.pairs.torn) ≡ ending_result result }
    {
        match self.part {
            Part::Between => {
                if self.torn.len() == 0 {
                    None
                } else {
                    Some(GmonRefusal::Short { at: len })
                }
            }
            Part::Refused(refusal) => Some(refusal),
            _ => Some(GmonRefusal::Short { at: len }),
        }
    }

    /// The records, each with a list of its own. Room for them is taken once.
    pub(crate) fn build(&self, alloc: Global) -> Result<RecList, AllocError>
        requires held { AreWithin self.now }
        requires run { self.now.run ≤ length self.now.arcs.items }
        ensures { IfOk result (λ recs. recs ≡ recs_of self.now) }
    {
        let arcs = self.arcs.as_slice();
        let entries = self.entries.as_slice();
        let mut recs = Vec::with_capacity(alloc, entries.len() + arcs.len())?;
        for i in 0..entries.len() {
            self.push_entry(alloc, &mut recs, entries[i])?;
        }
        push_arcs(&mut recs, &arcs[self.run as usize..])?;
        Ok(RecList::from(recs))
    }

    /// Adds the records of an entry: the arcs before it, and what it stands for.
    fn push_entry(&self, alloc: Global, recs: &mut Vec<Rec>, entry: Entry) -> Result<(), AllocError>
        requires { IsEntryHeld self.now entry }
        ensures { OnOk result (recs.new.items ≡ recs.old.items ++ held_recs self.now entry) }
    {
        push_arcs(recs, self.arcs_before(entry))?;
        recs.push(owned(alloc, self.view(entry.body))?)?;
        Ok(())
    }
}

/// A record with lists of its own.
fn owned(alloc: Global, view: RecView<'_>) -> Result<Rec, AllocError>
    ensures { IfOk result (λ rec. rec ≡ rec_viewed view.entry) }
{
    match view {
        RecView::Hist(hist) => Ok(Rec::Hist(RawHist {
            low: hist.low,
            high: hist.high,
            unit: hist.unit,
            counters: Counts::from(Vec::from_slice(alloc, hist.counters)?),
        })),
        RecView::Arc(arc) => Ok(Rec::Arc(arc)),
        RecView::Blocks(blocks) => {
            Ok(Rec::Blocks(BlockList::from(Vec::from_slice(alloc, blocks)?)))
        }
    }
}
