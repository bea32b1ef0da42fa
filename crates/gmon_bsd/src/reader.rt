//! Reading in pieces.

ghost use Rattle.std.specs.Prelude.{◌≡◌, ℕ, List, [], ◌+◌, ◌^◌, ◌<◌, ◌≤◌, ◌++◌, length, None, Some, Err, IfOk, OnOk, OnErr, IfErr, IfSome};
ghost use Rattle.gp_base.specs.Refusal.{IsRefusal};
ghost use Rattle.gmon_data.specs.Content.{conflict_of, content_of, empty_content, with_records, IsAdded, IsStopped, IsWithin};
ghost use Rattle.gmon_data.specs.Refusals.{IsReadRefusal};
ghost use Rattle.gmon_bsd.specs.Adding.{spelled_records, hist_and_arcs, FitsProfile};
ghost use Rattle.gmon_bsd.specs.Grammar.{BsdSpells};
ghost use Rattle.gmon_bsd.specs.Reading.{bsd_refusal, bsd_records};
ghost use Rattle.gmon_bsd.specs.Fed.{StandsFor, counter_part, arc_part};

use crate::file::{HEADER, Header, SECONDS, header_fault, read_header};
use crate::views::RecordViews;
use gmon_cells::{Column, HistView, Remnant, push_arcs};
use gmon_data::{AddRefusal, Profile, ReadRefusal};
use gp_base::{Counts, Form, GmonRefusal, RawArc, RawHist, Rec, RecList, Records, Unit, word};
use std::alloc::{AllocError, Global};
use std::marker::Model;

/// A reader of a file that comes in pieces. It keeps the header, and the counters and arcs so far, but not
/// the file. It stands for the bytes that were fed to it.
#[derive(Drop)]
pub struct Reader {
    alloc: Global,
    len: u32,
    header: Remnant,
    counters: Column<u16>,
    arcs: Column<RawArc>,
}

impl Model for Reader {
    ghost use Rattle.gmon_bsd.specs.Fed.{Kept};

    ghost Value = { Kept };

    ghost use Rattle.gmon_bsd.specs.Held.{view_of, IsHeld};

    ghost view = { view_of };

    ghost invariant = { IsHeld };
}

impl Reader {
    /// A reader to which nothing was fed. Takes no memory yet.
    pub fn new(alloc: Global) -> Reader
        ensures stands { StandsFor [] result }
        ensures len { result.len ≡ 0 }
    {
        Reader {
            alloc,
            len: 0,
            header: Remnant::new(),
            counters: Column::new(alloc),
            arcs: Column::new(alloc),
        }
    }

    /// Takes the next piece of the file. Where memory runs out the reader is unchanged. All pieces together
    /// have fewer than 2^32 bytes. A refusal is kept until `finish`.
    pub fn feed(&mut self, piece: &[u8]) -> Result<(), AllocError>
        requires { self.old.len + length piece.now < 2 ^ 32 }
        ensures stands { OnOk result ((bytes : List ℕ) → StandsFor bytes self.old
            → StandsFor (bytes ++ piece.now) self.new) }
        ensures len { OnOk result (self.new.len ≡ self.old.len + length piece.now) }
        ensures unchanged { OnErr result (self.new ≡ self.old) }
    {
        let mut header = Remnant::new();
        header.put(self.header.as_slice());
        let body = header.fill(HEADER, piece);
        let at = self.len.max(HEADER as u32);
        let (counters, arcs) = parts(header.as_slice(), at, body);
        self.counters.reserve(counters.len())?;
        self.arcs.reserve(arcs.len())?;
        self.counters.feed(counters);
        self.arcs.feed(arcs);
        self.header = header;
        self.len += piece.len() as u32;
        Ok(())
    }

    /// What the bytes that were fed are: the records that they spell, or their first refusal, in the order
    /// of `read`. A refusal takes no memory, so that want of it doesn't stand in for one.
    pub fn finish(self) -> Result<Records, GmonRefusal>
        ensures refused { (bytes : List ℕ) → StandsFor bytes self
            → IfSome (bsd_refusal bytes) (λ refusal. result ≡ Err refusal) }
        ensures refusal { (bytes : List ℕ) → StandsFor bytes self
            → IfErr result (λ refusal. IsRefusal refusal (bsd_refusal bytes)) }
        ensures accepted { (bytes : List ℕ) → StandsFor bytes self
            → OnOk result (bsd_refusal bytes ≡ None) }
        ensures records { (bytes : List ℕ) → StandsFor bytes self
            → IfOk result (λ records. records ≡ bsd_records bytes) }
        ensures spelled { (bytes : List ℕ) → StandsFor bytes self
            → IfOk result (λ records. BsdSpells bytes records) }
    {
        let Reader {
            alloc,
            len,
            header,
            counters,
            arcs,
        } = self;
        let header = read_header(header.as_slice(), len)?;
        let mut recs = Vec::with_capacity(alloc, arcs.cells.len() + 1)?;
        recs.push_reserved(Rec::Hist(RawHist {
            low: header.low,
            high: header.high,
            unit: Unit {
                rate: header.rate,
                dim: SECONDS,
                abbrev: b's',
            },
            counters: Counts::from(counters.cells),
        }));
        push_arcs(&mut recs, arcs.cells.as_slice())?;
        Ok(Records {
            form: Form::Bsd,
            recs: RecList::from(recs),
        })
    }

    /// The records that the bytes spell, one after the other, as the reader keeps them, or their first refusal.
    /// Takes no memory.
    pub fn records(&self) -> Result<RecordViews<'_>, GmonRefusal>
        ensures refused { (bytes : List ℕ) → StandsFor bytes self.now
            → IfErr result (λ refusal. bsd_refusal bytes ≡ Some refusal) }
        ensures accepted { (bytes : List ℕ) → StandsFor bytes self.now
            → OnOk result (bsd_refusal bytes ≡ None) }
        ensures records { (bytes : List ℕ) → StandsFor bytes self.now
            → IfOk result (λ views. views ≡ (bsd_records bytes).recs) }
    {
        let header = match read_header(self.header.as_slice(), self.len) {
            Ok(header) => header,
            Err(refusal) => return Err(refusal),
        };
        let hist = HistView {
            low: header.low,
            high: header.high,
            unit: Unit {
                rate: header.rate,
                dim: SECONDS,
                abbrev: b's',
            },
            counters: self.counters.cells.as_slice(),
        };
        Ok(RecordViews::new(hist, self.arcs.cells.as_slice()))
    }

    /// The profile of the records that the bytes spell, without a list of them. It answers the file's first refusal,
    /// before memory is taken, or else the first refusal of `Profile::add_records`.
    pub fn into_profile(self) -> Result<Profile, ReadRefusal>
        requires { FitsProfile self }
        ensures accepted { (bytes : List ℕ) → StandsFor bytes self
            → OnOk result (bsd_refusal bytes ≡ None) }
        ensures like { (bytes : List ℕ) → StandsFor bytes self
            → OnOk result (conflict_of empty_content (spelled_records bytes) ≡ None) }
        ensures content { (bytes : List ℕ) → StandsFor bytes self
            → IfOk result (λ profile. profile ≡ content_of (spelled_records bytes)) }
        ensures refusal { (bytes : List ℕ) → StandsFor bytes self
            → IfErr result (λ refusal. IsReadRefusal refusal (bsd_refusal bytes)
            (conflict_of empty_content (spelled_records bytes))) }
    {
        let Reader {
            alloc,
            len,
            header,
            counters,
            arcs,
        } = self;
        let header = read_header(header.as_slice(), len)?;
        let counters = counters.cells.as_slice();
        let mut profile = Profile::new(alloc);
        add_parts(&mut profile, header, counters, arcs.cells.as_slice())?;
        Ok(profile)
    }
}

/// Adds a histogram, and then arcs.
fn add_parts(
    profile: &mut Profile,
    header: Header,
    counters: &[u16],
    arcs: &[RawArc],
) -> Result<(), AddRefusal>
    requires range { 0 < length counters.now → header.low < header.high }
    requires within { IsWithin (with_records
        (hist_and_arcs header.low header.high header.rate counters.now arcs.now) profile.old) }
    ensures added { OnOk result (IsAdded
        (hist_and_arcs header.low header.high header.rate counters.now arcs.now) profile.old
        profile.new) }
    ensures stopped { IfErr result (λ refusal. IsStopped refusal
        (hist_and_arcs header.low header.high header.rate counters.now arcs.now) profile.old
        profile.new) }
{
    let unit = Unit {
        rate: header.rate,
        dim: SECONDS,
        abbrev: b's',
    };
    profile.add_counts(header.low, header.high, unit, counters)?;
    profile.expect_records(arcs, &[]);
    profile.add_arcs(arcs)?;
    Ok(())
}

/// What of the bytes that stand at `at` are counters, and what are arcs; neither where the header isn't
/// whole or is refused.
fn parts<'b>(header: &[u8], at: u32, body: &'b [u8]) -> (&'b [u8], &'b [u8])
    ensures counters { result.0.now ≡ counter_part header.now at body.now }
    ensures arcs { result.1.now ≡ arc_part header.now at body.now }
{
    if header.len() < HEADER || header_fault(header).is_some() {
        let none = body.split_at(0).0;
        return (none, none);
    }
    let due = word(header, 8).saturating_sub(at) as usize;
    body.split_at(due.min(body.len()))
}
