//! Taking the next bytes of a file.

ghost use Rattle.std.specs.Prelude.{◌≡◌, ℕ, List, [], ◌+◌, ◌-◌, ◌*◌, ◌^◌, ◌<◌, ◌≤◌, ◌++◌, length, drop, OnOk, slice_index, vec_len, vec_capacity};
ghost use Rattle.gmon_gnu.specs.Held.{width_of, AreFew, IsFront, IsHeld, HasRoom, Goes, recs_of, hist_with};
ghost use Rattle.gmon_gnu.specs.Begun.{begun_on, cost_of, fields_of, arcs_of, Follows};
ghost use Rattle.gmon_gnu.specs.Going.{InHist, InBlocks, Reads, records_on};
ghost use Rattle.gmon_gnu.specs.Taking.{AddsEntry, AreTold, AwaitsCounters, AwaitsPairs, Begins, CanTake, EndsOrGoesOn, HasPlaceFor, HoldsNoFront, HoldsSame, IsInBlocks, IsInHist, TakesSome};
ghost use Rattle.gmon_gnu.specs.declared.state.Part.TheVariants as part;

use crate::file::{HEADER, VERSION};
use crate::state::{Begun, Body, Entry, HistFields, Part, State};
use gmon_cells::{Column, Remnant};
use gp_base::{GmonRefusal, RawArc, Unit, word};
use std::alloc::{AllocError, Global};

/// Bytes of an arc with its tag.
const ARC_FRONT: usize = 13;

/// Bytes of a histogram up to its counters.
const HIST_FRONT: usize = 33;

impl State {
    /// Nothing has come yet.
    pub(crate) fn new(alloc: Global) -> State
        ensures held { IsHeld result }
        ensures goes { Goes [] result [] }
        ensures few { AreFew 0 0 result }
    {
        State {
            part: Part::Header,
            torn: Remnant::new(),
            counters: Column::new(alloc),
            pairs: Column::new(alloc),
            arcs: Vec::new(alloc),
            fields: Vec::new(alloc),
            entries: Vec::new(alloc),
            run: 0,
        }
    }

    /// Takes room for what `len` bytes more can make whole. Nothing else changes.
    pub(crate) fn reserve(&mut self, len: usize) -> Result<(), AllocError>
        requires { len < 2 ^ 32 }
        ensures room { OnOk result (HasRoom len self.new) }
        ensures same { HoldsSame self.old self.new }
    {
        self.counters.reserve(len)?;
        self.pairs.reserve(len)?;
        self.arcs.reserve((self.torn.len() + len) / ARC_FRONT)?;
        self.fields
            .reserve(1 + (self.torn.len() + len) / HIST_FRONT)?;
        self.entries.reserve(1 + (self.torn.len() + len) / 5)
    }

    /// Takes a piece. `total` is how many bytes the file has with it.
    pub(crate) fn take(&mut self, total: u32, piece: &[u8])
        requires { CanTake total piece.now self.old }
        ensures held { IsHeld self.new }
        ensures goes { (whole : List ℕ) → length whole ≡ total
            → Goes whole self.old piece.now → Goes whole self.new [] }
        ensures few { AreFew total 0 self.new }
    {
        let mut rest = piece;
        while !rest.is_empty() {
            rest = self.take_some(total, rest);
        }
    }

    /// Takes some of the piece: one item, or as much of the counters or pairs as there is. The rest of it.
    fn take_some<'p>(&mut self, total: u32, piece: &'p [u8]) -> &'p [u8]
        requires can { CanTake total piece.now self.old }
        requires some { 0 < length piece.now }
        ensures { TakesSome total piece.now result.now self.old self.new }
    {
        match self.part {
            Part::Header => self.take_header(total, piece),
            Part::Between => self.take_front(total, piece),
            Part::Hist {
                fields,
                start,
                left,
            } => self.take_counters(total, fields, start, left, piece),
            Part::Blocks { start, left } => self.take_pairs(total, start, left, piece),
            Part::Refused(_) => piece.split_at(piece.len()).1,
        }
    }

    fn take_header<'p>(&mut self, total: u32, piece: &'p [u8]) -> &'p [u8]
        requires can { CanTake total piece.now self.old }
        requires some { 0 < length piece.now }
        requires part { self.old.part ≡ part.Header }
        ensures { TakesSome total piece.now result.now self.old self.new }
    {
        let rest = self.torn.fill(HEADER, piece);
        if self.torn.len() < HEADER {
            return rest;
        }
        let version = word(self.torn.as_slice(), 4);
        self.torn.clear();
        self.part = if version == VERSION {
            Part::Between
        } else {
            Part::Refused(GmonRefusal::Version { value: version })
        };
        rest
    }

    fn take_front<'p>(&mut self, total: u32, piece: &'p [u8]) -> &'p [u8]
        requires can { CanTake total piece.now self.old }
        requires some { 0 < length piece.now }
        requires part { self.old.part ≡ part.Between }
        ensures { TakesSome total piece.now result.now self.old self.new }
    {
        if self.torn.len() == 0 {
            let width = width_of(piece[0]);
            if piece.len() >= width {
                let (front, rest) = piece.split_at(width);
                self.begin(front_of(total - piece.len() as u32, front));
                return rest;
            }
            self.torn.put(piece);
            return piece.split_at(piece.len()).1;
        }
        let width = width_of(self.torn.as_slice()[0]);
        let rest = self.torn.fill(width, piece);
        if self.torn.len() < width {
            return rest;
        }
        let begun = front_of(
            total - width as u32 - rest.len() as u32,
            self.torn.as_slice(),
        );
        self.torn.clear();
        self.begin(begun);
        rest
    }

    /// Goes on behind the front of a record, of which nothing is held any more.
    fn begin(&mut self, begun: Begun)
        requires part { self.old.part ≡ part.Between }
        requires front { HoldsNoFront self.old }
        requires told { AreTold self.old }
        requires room { HasPlaceFor begun self.old }
        ensures held { IsHeld self.new }
        ensures goes { (whole rest : List ℕ) → Follows whole (recs_of self.old) begun rest
            → Goes whole self.new rest }
        ensures begins { Begins begun self.old self.new }
    {
        match begun {
            Begun::Hist { fields, count } => {
                self.counters.torn.clear();
                let start = self.counters.cells.len() as u32;
                self.go_on_hist(fields, start, count);
            }
            Begun::Arc(arc) => self.arcs.push_reserved(arc),
            Begun::Blocks { count } => {
                self.pairs.torn.clear();
                let start = self.pairs.cells.len() as u32;
                self.go_on_blocks(start, count);
            }
            Begun::Refused(refusal) => self.part = Part::Refused(refusal),
        }
    }

    /// Goes on with the histogram whose counters begin at `start`; it ends where no counter is still to come.
    fn go_on_hist(&mut self, fields: HistFields, start: u32, left: u32)
        requires front { HoldsNoFront self.old }
        requires counters { AwaitsCounters start left self.old }
        requires told { AreTold self.old }
        requires place { vec_len self.old.fields + 1 ≤ vec_capacity self.old.fields }
        requires room { vec_len self.old.entries + 1 ≤ vec_capacity self.old.entries }
        ensures held { IsHeld self.new }
        ensures goes { (whole rest : List ℕ)
            → Reads whole (recs_of self.old)
            (InHist (hist_with fields (drop start self.old.counters.cells.items)) left)
            (self.old.counters.torn ++ rest) → Goes whole self.new rest }
        ensures ends { EndsOrGoesOn 1 self.old self.new }
    {
        if left > 0 {
            self.part = Part::Hist {
                fields,
                start,
                left,
            };
            return;
        }
        let end = self.counters.cells.len() as u32;
        let number = self.fields.len() as u32;
        self.fields.push_reserved(fields);
        self.add(Body::Hist {
            fields: number,
            start,
            end,
        });
        self.part = Part::Between;
    }

    /// The same with counts of blocks.
    fn go_on_blocks(&mut self, start: u32, left: u32)
        requires front { HoldsNoFront self.old }
        requires pairs { AwaitsPairs start left self.old }
        requires told { AreTold self.old }
        requires room { vec_len self.old.entries + 1 ≤ vec_capacity self.old.entries }
        ensures held { IsHeld self.new }
        ensures goes { (whole rest : List ℕ)
            → Reads whole (recs_of self.old) (InBlocks (drop start self.old.pairs.cells.items) left)
            (self.old.pairs.torn ++ rest) → Goes whole self.new rest }
        ensures ends { EndsOrGoesOn 0 self.old self.new }
    {
        if left > 0 {
            self.part = Part::Blocks { start, left };
            return;
        }
        let end = self.pairs.cells.len() as u32;
        self.add(Body::Blocks { start, end });
        self.part = Part::Between;
    }

    /// Adds a record behind the arcs that have come since the last one.
    fn add(&mut self, body: Body)
        requires told { vec_len self.old.arcs < 2 ^ 32 }
        requires room { vec_len self.old.entries < vec_capacity self.old.entries }
        ensures adds { AddsEntry
            (record { first = self.old.run; last = length self.old.arcs.items; body = body })
            self.old self.new }
        ensures run { self.new.run ≡ length self.old.arcs.items }
    {
        let last = self.arcs.len() as u32;
        self.entries.push_reserved(Entry {
            first: self.run,
            last,
            body,
        });
        self.run = last;
    }

    fn take_counters<'p>(
        &mut self,
        total: u32,
        fields: HistFields,
        start: u32,
        left: u32,
        piece: &'p [u8],
    ) -> &'p [u8]
        requires can { CanTake total piece.now self.old }
        requires some { 0 < length piece.now }
        requires part { IsInHist fields start left self.old }
        ensures { TakesSome total piece.now result.now self.old self.new }
    {
        let (came, rest) = self.counters.feed_due(left, piece);
        self.go_on_hist(fields, start, left - came);
        rest
    }

    fn take_pairs<'p>(&mut self, total: u32, start: u32, left: u32, piece: &'p [u8]) -> &'p [u8]
        requires can { CanTake total piece.now self.old }
        requires some { 0 < length piece.now }
        requires part { IsInBlocks start left self.old }
        ensures { TakesSome total piece.now result.now self.old self.new }
    {
        let (came, rest) = self.pairs.feed_due(left, piece);
        self.go_on_blocks(start, left - came);
        rest
    }
}

/// How many bytes a record takes up to its counters or pairs, by its tag; of one that is none only the tag
/// is read.
pub(crate) fn width_of(tag: u8) -> usize
    ensures width { result ≡ width_of tag }
    ensures some { 0 < result }
    ensures fits { result ≤ 33 }
{
    match tag {
        0 => 33,
        1 => 13,
        2 => 5,
        _ => 1,
    }
}

/// What the front of a record that stands at `at` says.
#[tactic(auto, using(crate::proofs::GoingLemmas::arc_begun, crate::proofs::GoingLemmas::blocks_begun))]
pub(crate) fn front_of(at: u32, front: &[u8]) -> Begun
    requires { IsFront front.now }
    ensures says { (len : ℕ) (rest : List ℕ) → at ≡ len - length (front.now ++ rest)
        → records_on len (front.now ++ rest) ≡ begun_on len result rest }
    ensures cost { 5 * cost_of result ≤ length front.now }
    ensures fields { 33 * fields_of result ≤ length front.now }
    ensures arcs { 13 * arcs_of result ≤ length front.now }
{
    match front[0] {
        0 => hist_front(at, front),
        1 => Begun::Arc(RawArc {
            from: word(front, 1),
            to: word(front, 5),
            count: word(front, 9),
        }),
        2 => Begun::Blocks {
            count: word(front, 1),
        },
        tag => Begun::Refused(GmonRefusal::Tag { at, value: tag }),
    }
}

/// What the front of a histogram says.
#[tactic(auto, using(crate::proofs::GoingLemmas::hist_refused, crate::proofs::GoingLemmas::hist_begun, crate::proofs::HistLemmas::ranged))]
fn hist_front(at: u32, front: &[u8]) -> Begun
    requires width { length front.now ≡ 33 }
    requires tag { slice_index front.now 0 ≡ 0 }
    ensures says { (len : ℕ) (rest : List ℕ) → at ≡ len - length (front.now ++ rest)
        → records_on len (front.now ++ rest) ≡ begun_on len result rest }
    ensures cost { cost_of result ≤ 1 }
    ensures fields { fields_of result ≤ 1 }
    ensures arcs { arcs_of result ≡ 0 }
{
    let low = word(front, 1);
    let high = word(front, 5);
    let count = word(front, 9);
    if count > 0 && high <= low {
        return Begun::Refused(GmonRefusal::Range { at, low, high });
    }
    let mut dim = [0; 15];
    dim.copy_from_slice(&front[17..32]);
    Begun::Hist {
        fields: HistFields {
            low,
            high,
            unit: Unit {
                rate: word(front, 13),
                dim,
                abbrev: front[32],
            },
        },
        count,
    }
}
