//! Reading in pieces.

ghost use Rattle.std.specs.Prelude.{◌≡◌, ℕ, List, [], ◌+◌, ◌^◌, ◌<◌, ◌++◌, length, None, Some, Err, IfOk, OnOk, OnErr, IfErr, IfSome};
ghost use Rattle.gp_base.specs.Refusal.{IsRefusal};
ghost use Rattle.gmon_data.specs.Content.{conflict_of, content_of, empty_content};
ghost use Rattle.gmon_data.specs.Refusals.{IsReadRefusal};
ghost use Rattle.gmon_data.specs.declared.refusal.AddRefusal.TheVariants.{Unlike};
ghost use Rattle.gmon_data.specs.declared.refusal.ReadRefusal.TheVariants as read_refusal;
ghost use Rattle.gmon_gnu.specs.Adding.{spelled_records, FitsProfile};
ghost use Rattle.gmon_gnu.specs.Grammar.{GnuSpells};
ghost use Rattle.gmon_gnu.specs.Reading.{gnu_refusal, gnu_records};
ghost use Rattle.gmon_gnu.specs.Fed.{StandsFor};
ghost use Rattle.gmon_gnu.specs.FirstHists.{conflict_among_first};

use crate::state::State;
use crate::views::RecordViews;
use gmon_data::{Profile, ReadRefusal};
use gp_base::{Form, GmonRefusal, Records};
use std::alloc::{AllocError, Global};
use std::marker::Model;

/// A reader of a file that comes in pieces. It keeps the records so far, but not the file. It stands for the
/// bytes that were fed to it.
#[derive(Drop)]
pub struct Reader {
    alloc: Global,
    len: u32,
    state: State,
}

impl Model for Reader {
    ghost use Rattle.gmon_gnu.specs.Fed.{Kept};

    ghost Value = { Kept };

    ghost use Rattle.gmon_gnu.specs.Shown.{view_of, IsKept};

    ghost view = { view_of };

    ghost invariant = { IsKept };
}

impl Reader {
    /// A reader to which nothing was fed. Takes no memory yet.
    pub fn new(alloc: Global) -> Reader
        ensures stands { StandsFor [] result }
        ensures len { result.len ≡ 0 }
    {
        Reader {
            alloc,
            len: 0,
            state: State::new(alloc),
        }
    }

    /// Takes the next piece of the file. Where memory runs out the reader is unchanged. All pieces together
    /// have fewer than 2^32 bytes. A refusal is kept until `finish`.
    pub fn feed(&mut self, piece: &[u8]) -> Result<(), AllocError>
        requires { self.old.len + length piece.now < 2 ^ 32 }
        ensures stands { OnOk result ((bytes : List ℕ) → StandsFor bytes self.old
            → StandsFor (bytes ++ piece.now) self.new) }
        ensures len { OnOk result (self.new.len ≡ self.old.len + length piece.now) }
        ensures unchanged { OnErr result (self.new ≡ self.old) }
    {
        self.state.reserve(piece.len())?;
        let total = self.len + piece.len() as u32;
        self.state.take(total, piece);
        self.len = total;
        Ok(())
    }

    /// What the bytes that were fed are: the records that they spell, or their first refusal, in the order
    /// of `read`. A refusal takes no memory, so that want of it doesn't stand in for one.
    pub fn finish(self) -> Result<Records, GmonRefusal>
        ensures refused { (bytes : List ℕ) → StandsFor bytes self
            → IfSome (gnu_refusal bytes) (λ refusal. result ≡ Err refusal) }
        ensures refusal { (bytes : List ℕ) → StandsFor bytes self
            → IfErr result (λ refusal. IsRefusal refusal (gnu_refusal bytes)) }
        ensures accepted { (bytes : List ℕ) → StandsFor bytes self
            → OnOk result (gnu_refusal bytes ≡ None) }
        ensures records { (bytes : List ℕ) → StandsFor bytes self
            → IfOk result (λ records. records ≡ gnu_records bytes) }
        ensures spelled { (bytes : List ℕ) → StandsFor bytes self
            → IfOk result (λ records. GnuSpells bytes records) }
    {
        let Reader { alloc, len, state } = self;
        match state.end_fault(len) {
            Some(refusal) => Err(refusal),
            None => {
                let recs = state.build(alloc)?;
                Ok(Records {
                    form: Form::Gnu,
                    recs,
                })
            }
        }
    }

    /// The records that the bytes spell, one after the other, as the reader keeps them, or their first refusal.
    /// Takes no memory.
    pub fn records(&self) -> Result<RecordViews<'_>, GmonRefusal>
        ensures refused { (bytes : List ℕ) → StandsFor bytes self.now
            → IfErr result (λ refusal. gnu_refusal bytes ≡ Some refusal) }
        ensures accepted { (bytes : List ℕ) → StandsFor bytes self.now
            → OnOk result (gnu_refusal bytes ≡ None) }
        ensures records { (bytes : List ℕ) → StandsFor bytes self.now
            → IfOk result (λ views. views ≡ (gnu_records bytes).recs) }
    {
        match self.state.end_fault(self.len) {
            Some(refusal) => Err(refusal),
            None => Ok(RecordViews::new(&self.state)),
        }
    }

    /// The profile of the records that the bytes spell, without a list of them. It answers the file's first refusal,
    /// before memory is taken, or else the first refusal of `Profile::add_records` in the order of the file. A
    /// conflict among the first 64 histograms with counters is told, and never want of memory.
    pub fn into_profile(self) -> Result<Profile, ReadRefusal>
        requires { FitsProfile self }
        ensures accepted { (bytes : List ℕ) → StandsFor bytes self
            → OnOk result (gnu_refusal bytes ≡ None) }
        ensures like { (bytes : List ℕ) → StandsFor bytes self
            → OnOk result (conflict_of empty_content (spelled_records bytes) ≡ None) }
        ensures content { (bytes : List ℕ) → StandsFor bytes self
            → IfOk result (λ profile. profile ≡ content_of (spelled_records bytes)) }
        ensures refusal { (bytes : List ℕ) → StandsFor bytes self
            → IfErr result (λ refusal. IsReadRefusal refusal (gnu_refusal bytes)
            (conflict_of empty_content (spelled_records bytes))) }
        ensures told { (bytes : List ℕ) → StandsFor bytes self → gnu_refusal bytes ≡ None
            → IfSome (conflict_among_first 64 (spelled_records bytes))
            (λ unlike. result ≡ Err (read_refusal.Profile (Unlike unlike))) }
    {
        let Reader { alloc, len, state } = self;
        if let Some(refusal) = state.end_fault(len) {
            return Err(ReadRefusal::File(refusal));
        }
        Ok(state.into_profile(alloc)?)
    }
}
