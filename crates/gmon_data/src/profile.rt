//! A profile, and what is added to it.

ghost use Rattle.std.specs.Prelude.{◌≡◌, ◌↔◌, ◌^◌, ◌<◌, ℕ, List, ◌++◌, ◌∷◌, [], ◌≤◌, true, false, nat_le, length, map, count_by, slice_get, Some, None, IfOk, IfErr, OnOk, OnErr};
ghost use Rattle.std.specs.List.{All};
ghost use Rattle.std.specs.List.Sorted.{IsPartitionPoint};
ghost use Rattle.gp_base.specs.Spans.{HasRange};
ghost use Rattle.gmon_data.specs.Content.{hist_over, HistNumbersFit, IsProfile, WideRec, WideHist, WideArc, WideBlock, empty_content, with_hist, with_arc, hist_conflict, is_arc, with_block, content_of, IsWithin, IsAdded, IsStopped, conflict_of, runs_at, wide_arc, wide_block, wide_hist, wide_record, wide_records, with_records};
ghost use Rattle.gmon_data.specs.Hists.{IsKept, IsUnlike, conflict_with, kept_unit, range_of, samples_of, unlike_in};
ghost use Rattle.gmon_data.specs.Tally.{tally_total};
ghost use Rattle.gmon_data.specs.declared.refusal.AddRefusal.TheVariants.{OutOfMemory};

use crate::arcs::Arcs;
use crate::chunks::ChunkedList;
use crate::hist::{Hist, HistRange, clone_hists, samples, widened};
use crate::hists::{conflict, count_ended, normal_unit, put};
use crate::refusal::{AddRefusal, Unlike};
use crate::tally::Tally;
use gp_base::{RawArc, RawBlock, RawHist, Rec, Records, Unit};
use std::alloc::{AllocError, Global};
use std::marker::Model;

/// The sum of profiles. Contracts see its content.
#[derive(Drop)]
pub struct Profile {
    alloc: Global,
    hists: ChunkedList<Hist>,
    arcs: Arcs,
    blocks: Tally<u32>,
    unit: Option<Unit>,
}

impl Model for Profile {
    ghost use Rattle.gmon_data.specs.Content.{Content, IsProfile};

    ghost Value = { Content };

    ghost view = { λ a. record { hists = a.hists; arcs = a.arcs; blocks = a.blocks; «unit» = a.«unit» } };

    ghost invariant = { λ a. IsProfile (record { hists = a.hists; arcs = a.arcs; blocks = a.blocks; «unit» = a.«unit» }) };
}

impl Profile {
    /// The empty profile, which takes no memory yet.
    #[tactic(auto, unfolding(crate::specs::Content::content_of))]
    pub fn new(alloc: Global) -> Profile
        ensures content { result ≡ empty_content }
        ensures stands { result ≡ content_of [] }
    {
        Profile {
            alloc,
            hists: ChunkedList::new(alloc),
            arcs: Arcs::new(alloc),
            blocks: Tally::new(alloc),
            unit: None,
        }
    }

    /// A profile of the same content.
    #[tactic(auto, using(std::proofs::lemmas::List::Elements::same_from_all_zip))]
    pub fn try_clone(&self) -> Result<Profile, AllocError>
        ensures { IfOk result (λ p. p ≡ self.now) }
    {
        Ok(Profile {
            alloc: self.alloc,
            hists: clone_hists(self.alloc, &self.hists)?,
            arcs: self.arcs.try_clone()?,
            blocks: self.blocks.try_clone()?,
            unit: self.unit,
        })
    }

    /// Adds a histogram of a file. One without counters gives nothing and is accepted, whatever its other
    /// fields. A rate of 0 stands for 100. The refusals are those of `add_wide`.
    pub fn add_hist(&mut self, h: &RawHist) -> Result<(), AddRefusal>
        requires range { 0 < length h.now.counters → h.now.low < h.now.high }
        requires count { length h.now.counters < 2 ^ 32 }
        requires within { hist_conflict self.old (wide_hist h.now) h.now.«unit» ≡ None
            → IsWithin (with_hist (wide_hist h.now) h.now.«unit» self.old) }
        ensures refusal { IfErr result (λ refusal. hist_conflict self.old (wide_hist h.now)
            h.now.«unit» ≡ unlike_in refusal) }
        ensures accepted { OnOk result (hist_conflict self.old (wide_hist h.now) h.now.«unit»
            ≡ None) }
        ensures added { OnOk result (self.new ≡ with_hist (wide_hist h.now) h.now.«unit» self.old) }
        ensures stands { OnOk result ((recs : List WideRec) → self.old ≡ content_of recs
            → self.new ≡ content_of (recs ++ WideHist (wide_hist h.now) h.now.«unit» ∷ [])) }
        ensures unchanged { OnErr result (self.new ≡ self.old) }
    {
        self.add_counts(h.low, h.high, h.unit, h.counters.as_slice())
    }

    /// Adds a histogram of a file by its fields and its counters, as `add_hist` does.
    pub fn add_counts(
        &mut self,
        low: u32,
        high: u32,
        unit: Unit,
        counts: &[u16],
    ) -> Result<(), AddRefusal>
        requires range { 0 < length counts.now → low < high }
        requires count { length counts.now < 2 ^ 32 }
        requires within { hist_conflict self.old (hist_over low high counts.now) «unit» ≡ None
            → IsWithin (with_hist (hist_over low high counts.now) «unit» self.old) }
        ensures refusal { IfErr result (λ refusal. hist_conflict self.old
            (hist_over low high counts.now) «unit» ≡ unlike_in refusal) }
        ensures accepted { OnOk result (hist_conflict self.old (hist_over low high counts.now)
            «unit» ≡ None) }
        ensures added { OnOk result (self.new
            ≡ with_hist (hist_over low high counts.now) «unit» self.old) }
        ensures stands { OnOk result ((recs : List WideRec) → self.old ≡ content_of recs
            → self.new ≡ content_of
            (recs ++ WideHist (hist_over low high counts.now) «unit» ∷ [])) }
        ensures unchanged { OnErr result (self.new ≡ self.old) }
    {
        if counts.is_empty() {
            return Ok(());
        }
        let count = counts.len() as u32;
        self.compare(HistRange { low, high, count }, unit)?;
        let hist = widened(self.alloc, low, high, counts)?;
        self.keep(hist, unit)?;
        Ok(())
    }

    /// Adds a histogram. One without counters gives nothing and is accepted, whatever its other fields.
    /// A rate of 0 stands for 100.
    ///
    /// Refusals, in this order: `Range` where a kept histogram overlaps this one and differs from it in
    /// range or number of counters; `Rate` where the kept rate differs; `Dimension` where the kept
    /// dimension or abbreviation differs. After a refusal the profile is unchanged; memory runs out only
    /// where there is no other refusal. Where there is none, what the profile holds then must stay within
    /// its limits.
    pub fn add_wide(&mut self, h: &Hist, unit: Unit) -> Result<(), AddRefusal>
        requires range { 0 < length h.now.counters → h.now.low < h.now.high }
        requires count { length h.now.counters < 2 ^ 32 }
        requires within { hist_conflict self.old h.now «unit» ≡ None
            → IsWithin (with_hist h.now «unit» self.old) }
        ensures refusal { IfErr result (λ refusal. hist_conflict self.old h.now «unit»
            ≡ unlike_in refusal) }
        ensures accepted { OnOk result (hist_conflict self.old h.now «unit» ≡ None) }
        ensures added { OnOk result (self.new ≡ with_hist h.now «unit» self.old) }
        ensures stands { OnOk result ((recs : List WideRec) → self.old ≡ content_of recs
            → self.new ≡ content_of (recs ++ WideHist h.now «unit» ∷ [])) }
        ensures unchanged { OnErr result (self.new ≡ self.old) }
    {
        if h.counters.as_slice().is_empty() {
            return Ok(());
        }
        self.compare(h.range(), unit)?;
        let hist = h.try_clone()?;
        self.keep(hist, unit)?;
        Ok(())
    }

    /// Why a histogram with counters can't be added: the first refusal of `add_wide` but want of memory.
    /// Takes no memory.
    pub fn conflict(&self, range: HistRange, unit: Unit) -> Option<Unlike>
        ensures { result ≡ conflict_with self.now.hists self.now.«unit» range (kept_unit «unit») }
    {
        conflict(&self.hists, self.unit, range, normal_unit(unit))
    }

    /// Refuses a histogram with counters that is unlike those that are kept.
    fn compare(&self, range: HistRange, unit: Unit) -> Result<(), AddRefusal>
        ensures unlike { IfErr result (λ refusal. conflict_with self.now.hists self.now.«unit»
            range (kept_unit «unit») ≡ unlike_in refusal) }
        ensures like { OnOk result (conflict_with self.now.hists self.now.«unit» range
            (kept_unit «unit») ≡ None) }
    {
        match self.conflict(range, unit) {
            Some(unlike) => Err(AddRefusal::Unlike(unlike)),
            None => Ok(()),
        }
    }

    /// Keeps a histogram with counters that is like those that are kept.
    fn keep(&mut self, hist: Hist, unit: Unit) -> Result<(), AllocError>
        requires kept { IsKept hist }
        requires numbers { HistNumbersFit hist }
        requires like { conflict_with self.old.hists self.old.«unit» (range_of hist)
            (kept_unit «unit») ≡ None }
        requires within { IsWithin (with_hist hist «unit» self.old) }
        ensures added { OnOk result (self.new ≡ with_hist hist «unit» self.old) }
        ensures unchanged { OnErr result (self.new ≡ self.old) }
    {
        put(&mut self.hists, hist)?;
        self.unit = Some(self.unit.unwrap_or(normal_unit(unit)));
        Ok(())
    }

    /// Adds the calls of an arc, as `add_calls` does; an arc of count 0 is kept.
    pub fn add_arc(&mut self, a: RawArc) -> Result<(), AllocError>
        requires { IsWithin (with_arc a.from a.to a.count self.old) }
        ensures added { OnOk result (self.new ≡ with_arc a.from a.to a.count self.old) }
        ensures stands { OnOk result ((recs : List WideRec) → self.old ≡ content_of recs
            → self.new ≡ content_of (recs ++ WideArc a.from a.to a.count ∷ [])) }
        ensures unchanged { OnErr result (self.new ≡ self.old) }
    {
        self.add_calls(a.from, a.to, u64::from(a.count))
    }

    /// Adds calls to those of their pair: of call site and callee. What the profile holds then must stay
    /// within its limits. After want of memory it is unchanged.
    pub fn add_calls(&mut self, from: u32, to: u32, count: u64) -> Result<(), AllocError>
        requires { IsWithin (with_arc from to count self.old) }
        ensures added { OnOk result (self.new ≡ with_arc from to count self.old) }
        ensures stands { OnOk result ((recs : List WideRec) → self.old ≡ content_of recs
            → self.new ≡ content_of (recs ++ WideArc from to count ∷ [])) }
        ensures unchanged { OnErr result (self.new ≡ self.old) }
    {
        self.arcs.add((from, to), count)
    }

    /// Adds the executions of a basic block, as `add_runs` does.
    pub fn add_block(&mut self, b: RawBlock) -> Result<(), AllocError>
        requires { IsWithin (with_block b.addr b.count self.old) }
        ensures added { OnOk result (self.new ≡ with_block b.addr b.count self.old) }
        ensures stands { OnOk result ((recs : List WideRec) → self.old ≡ content_of recs
            → self.new ≡ content_of (recs ++ WideBlock b.addr b.count ∷ [])) }
        ensures unchanged { OnErr result (self.new ≡ self.old) }
    {
        self.add_runs(b.addr, u64::from(b.count))
    }

    /// Adds executions to those of their address. What the profile holds then must stay within its limits.
    /// After want of memory it is unchanged.
    pub fn add_runs(&mut self, addr: u32, count: u64) -> Result<(), AllocError>
        requires { IsWithin (with_block addr count self.old) }
        ensures added { OnOk result (self.new ≡ with_block addr count self.old) }
        ensures stands { OnOk result ((recs : List WideRec) → self.old ≡ content_of recs
            → self.new ≡ content_of (recs ++ WideBlock addr count ∷ [])) }
        ensures unchanged { OnErr result (self.new ≡ self.old) }
    {
        self.blocks.add(addr, count)
    }

    /// Takes room for what records are about to add, so that their pairs and addresses don't crowd in the tables; where
    /// there is none, adding takes it. The content is the same.
    pub fn expect_records(&mut self, arcs: &[RawArc], blocks: &[RawBlock])
        ensures { self.new ≡ self.old }
    {
        self.arcs.expect(arcs);
        self.blocks.expect(blocks);
    }

    /// Takes room for what a profile is about to add, as `expect_records` does.
    pub fn expect_profile(&mut self, more: &Profile)
        ensures { self.new ≡ self.old }
    {
        self.arcs.expect_others(&more.arcs);
        self.blocks.expect_tally(&more.blocks);
    }

    /// Adds the records of a file in order.
    ///
    /// Refusals: those of `add_hist` for the first refused histogram. After a refusal the records before
    /// the refused one are added, and none after it; after want of memory some first records are added,
    /// of a blocks record a prefix, and the next one has no other refusal.
    #[tactic(auto, using(crate::proofs::RecordLemmas::stopped_conflict))]
    pub fn add_records(&mut self, r: &Records) -> Result<(), AddRefusal>
        requires ranges { All HasRange r.now.recs }
        requires within { IsWithin (with_records (wide_records r.now.recs) self.old) }
        ensures refusal { IfErr result (λ refusal. IsUnlike refusal
            (conflict_of self.old (wide_records r.now.recs))) }
        ensures accepted { OnOk result (conflict_of self.old (wide_records r.now.recs) ≡ None) }
        ensures added { OnOk result (self.new ≡ with_records (wide_records r.now.recs) self.old) }
        ensures stands { OnOk result ((recs : List WideRec) → self.old ≡ content_of recs
            → self.new ≡ content_of (recs ++ wide_records r.now.recs)) }
        ensures stopped { IfErr result (λ refusal. IsStopped refusal (wide_records r.now.recs)
            self.old self.new) }
    {
        self.add_each(r.recs.as_slice())
    }

    fn add_each(&mut self, recs: &[Rec]) -> Result<(), AddRefusal>
        requires ranges { All HasRange recs.now }
        requires within { IsWithin (with_records (wide_records recs.now) self.old) }
        ensures added { OnOk result (IsAdded (wide_records recs.now) self.old self.new) }
        ensures stopped { IfErr result (λ refusal. IsStopped refusal (wide_records recs.now)
            self.old self.new) }
    {
        for rec in recs {
            self.add_record(rec)?;
        }
        Ok(())
    }

    #[tactic(auto, using(crate::proofs::NumberLemmas::few_of_record, crate::proofs::RecordLemmas::blocks_accepted))]
    fn add_record(&mut self, rec: &Rec) -> Result<(), AddRefusal>
        requires range { HasRange rec.now }
        requires within { IsWithin (with_records (wide_record rec.now) self.old) }
        ensures added { OnOk result (IsAdded (wide_record rec.now) self.old self.new) }
        ensures stopped { IfErr result (λ refusal. IsStopped refusal (wide_record rec.now) self.old
            self.new) }
    {
        match rec {
            Rec::Hist(hist) => self.add_hist(hist),
            Rec::Arc(arc) => Ok(self.add_arc(*arc)?),
            Rec::Blocks(blocks) => Ok(self.add_blocks(blocks.as_slice())?),
        }
    }

    /// Adds arcs in order, as `add_arc` does. After want of memory some first ones are added.
    pub fn add_arcs(&mut self, arcs: &[RawArc]) -> Result<(), AllocError>
        requires { IsWithin (with_records (map wide_arc arcs.now) self.old) }
        ensures added { OnOk result (self.new ≡ with_records (map wide_arc arcs.now) self.old) }
        ensures stands { OnOk result ((recs : List WideRec) → self.old ≡ content_of recs
            → self.new ≡ content_of (recs ++ map wide_arc arcs.now)) }
        ensures stopped { OnErr result (IsStopped OutOfMemory (map wide_arc arcs.now) self.old
            self.new) }
    {
        self.arcs.add_all(arcs)
    }

    /// Adds executions of basic blocks in order, as `add_block` does. Room for all of them is taken first,
    /// where there is some. After want of memory some first ones are added.
    pub fn add_blocks(&mut self, blocks: &[RawBlock]) -> Result<(), AllocError>
        requires { IsWithin (with_records (map wide_block blocks.now) self.old) }
        ensures added { OnOk result (self.new ≡ with_records (map wide_block blocks.now) self.old) }
        ensures stands { OnOk result ((recs : List WideRec) → self.old ≡ content_of recs
            → self.new ≡ content_of (recs ++ map wide_block blocks.now)) }
        ensures stopped { OnErr result (IsStopped OutOfMemory (map wide_block blocks.now) self.old
            self.new) }
    {
        self.blocks.add_all(blocks)
    }

    /// What holds of each profile. Does nothing.
    pub fn holds(&self)
        ensures { IsProfile self.now }
    {
        let _ = &self.unit;
    }

    /// The unit of the histograms: None exactly where there is no histogram.
    #[tactic(auto, using(crate::proofs::HistLemmas::unit_none))]
    pub fn unit(&self) -> Option<Unit>
        ensures unit { result ≡ self.now.«unit» }
        ensures none { (result ≡ None) ↔ (self.now.hists ≡ []) }
        ensures profile { IsProfile self.now }
    {
        self.unit
    }

    /// The number of histograms.
    pub fn hist_count(&self) -> usize
        ensures value { result ≡ length self.now.hists }
        ensures profile { IsProfile self.now }
    {
        self.hists.len()
    }

    /// The histogram with the given number.
    pub fn hist(&self, i: usize) -> &Hist
        requires { i < length self.now.hists }
        ensures { slice_get self.now.hists i ≡ Some result.now }
    {
        self.hists.get(i)
    }

    /// How many histograms end at or below an address: they are the first ones. Takes time in the
    /// logarithm of the number of histograms.
    pub fn ended_hists(&self, address: u32) -> usize
        ensures inside { result ≤ length self.now.hists }
        ensures point { IsPartitionPoint (λ h. nat_le h.high address ≡ true)
            (λ h. nat_le h.high address ≡ false) self.now.hists result }
        ensures profile { IsProfile self.now }
    {
        count_ended(&self.hists, address)
    }

    /// The samples of all histograms.
    pub fn samples(&self) -> u64
        ensures value { result ≡ samples_of self.now.hists }
        ensures profile { IsProfile self.now }
    {
        samples(&self.hists)
    }

    /// The number of pairs.
    pub fn arc_count(&self) -> usize
        ensures value { result ≡ length self.now.arcs }
        ensures profile { IsProfile self.now }
    {
        self.arcs.len()
    }

    /// The pair with the given number, and its calls.
    pub fn arc(&self, i: usize) -> (u32, u32, u64)
        requires { i < length self.now.arcs }
        ensures { slice_get self.now.arcs i ≡ Some ((result.0, result.1), result.2) }
    {
        let ((from, to), count) = self.arcs.get(i);
        (from, to, count)
    }

    /// The calls of all pairs.
    pub fn calls(&self) -> u64
        ensures { result ≡ tally_total self.now.arcs }
    {
        self.arcs.total()
    }

    /// The number of block addresses.
    pub fn block_count(&self) -> usize
        ensures value { result ≡ length self.now.blocks }
        ensures profile { IsProfile self.now }
    {
        self.blocks.len()
    }

    /// The block address with the given number, and its executions.
    pub fn block(&self, i: usize) -> (u32, u64)
        requires { i < length self.now.blocks }
        ensures { slice_get self.now.blocks i ≡ Some (result.0, result.1) }
    {
        self.blocks.get(i)
    }

    /// The executions at an address, 0 where it has none. Takes no memory.
    pub fn block_of(&self, addr: u32) -> u64
        ensures { result ≡ runs_at addr self.now.blocks }
    {
        self.blocks.number_of(addr)
    }

    /// The executions of all basic blocks.
    pub fn blocks(&self) -> u64
        ensures { result ≡ tally_total self.now.blocks }
    {
        self.blocks.total()
    }
}
