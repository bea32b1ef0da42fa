//! The records of a file, one after the other, as its reader keeps them. Nothing here takes memory.

ghost use Rattle.std.specs.Prelude.{◌≡◌, [], ◌∷◌, map, None, IfSome};
ghost use Rattle.gp_base.specs.declared.records.Rec.TheVariants.{Hist, Arc};
ghost use Rattle.gmon_cells.specs.Views.{hist_viewed, rec_viewed};

use gmon_cells::{HistView, RecView};
use gp_base::RawArc;
use std::marker::Model;

/// The records of a file that are left to be given: its histogram, and then its arcs. Contracts see the list
/// of them.
#[derive(Drop)]
pub struct RecordViews<'r> {
    hist: Option<HistView<'r>>,
    arcs: &'r [RawArc],
}

impl<'r> Model for RecordViews<'r> {
    ghost use Rattle.std.specs.Prelude.{List};
    ghost use Rattle.gp_base.specs.declared.records.Rec.{Rec};

    ghost Value = { List Rec };

    ghost use Rattle.gmon_bsd.specs.Viewed.{recs_left};

    ghost view = { recs_left };
}

impl<'r> RecordViews<'r> {
    /// A histogram, and the arcs behind it.
    pub(crate) fn new(hist: HistView<'r>, arcs: &'r [RawArc]) -> RecordViews<'r>
        ensures { result ≡ Hist (hist_viewed hist.entry) ∷ map Arc arcs.now }
    {
        RecordViews {
            hist: Some(hist),
            arcs,
        }
    }

    /// The next one.
    pub fn next(&mut self) -> Option<RecView<'r>>
        ensures first { IfSome result (λ view. self.old ≡ rec_viewed view ∷ self.new) }
        ensures ended { result ≡ None → self.old ≡ [] }
        ensures stays_ended { result ≡ None → self.new ≡ [] }
    {
        if let Some(hist) = self.hist {
            self.hist = None;
            return Some(RecView::Hist(hist));
        }
        let arcs = self.arcs;
        match arcs.split_first() {
            Some((arc, behind)) => {
                self.arcs = behind;
                Some(RecView::Arc(*arc))
            }
            None => None,
        }
    }
}
