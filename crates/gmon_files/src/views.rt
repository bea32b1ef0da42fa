//! The records of a file of either form, one after the other, as its reader keeps them.

ghost use Rattle.std.specs.Prelude.{◌≡◌, [], ◌∷◌, None, IfSome};
ghost use Rattle.gmon_cells.specs.Views.{rec_viewed};
ghost use Rattle.gmon_files.specs.Viewed.{form_viewed, recs_left};

use gmon_cells::RecView;
use gp_base::Form;

/// The records of a file that are left to be given, in file order. Takes no memory.
#[derive(Drop)]
pub enum RecordViews<'r> {
    Bsd(gmon_bsd::RecordViews<'r>),
    Gnu(gmon_gnu::RecordViews<'r>),
}

impl<'r> RecordViews<'r> {
    /// The form of the file.
    pub fn form(&self) -> Form
        ensures { result ≡ form_viewed self.now }
    {
        match self {
            RecordViews::Bsd(_) => Form::Bsd,
            RecordViews::Gnu(_) => Form::Gnu,
        }
    }

    /// The next one.
    pub fn next(&mut self) -> Option<RecView<'r>>
        ensures first { IfSome result (λ view.
            recs_left self.old ≡ rec_viewed view ∷ recs_left self.new) }
        ensures ended { result ≡ None → recs_left self.old ≡ [] }
        ensures stays_ended { result ≡ None → recs_left self.new ≡ [] }
    {
        match self {
            RecordViews::Bsd(views) => views.next(),
            RecordViews::Gnu(views) => views.next(),
        }
    }
}
