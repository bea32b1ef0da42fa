//! The calls of pairs of call site and callee.

ghost use Rattle.std.specs.Prelude.{◌≡◌, ◌+◌, ◌^◌, ◌<◌, [], Some, true, length, slice_get, IfOk, OnOk, OnErr};
ghost use Rattle.std.specs.List.{AllByRecursion, IsDistinct};
ghost use Rattle.std.specs.Map.{keys_of};
ghost use Rattle.gmon_data.specs.Content.{PairFits, same_ends};
ghost use Rattle.gmon_data.specs.Tally.{tally, tally_all, tally_total, IsTalliedPartly};
ghost use Rattle.gmon_data.specs.Arcs.{entries_of, IsBehind, IsBySite};

use crate::tally::{Counted, Tally};
use gp_base::RawArc;
use std::alloc::{AllocError, Global};
use std::marker::Model;

/// How many callees of one call site may stand in a list, where each is compared with those before it.
const CALLEES: usize = 16;

/// The calls of pairs, in the order in which the pairs came first. Pairs that come by ascending call site, as mcount
/// writes them, are a list, in which none can come again; any others are in a table. Contracts see the list of the pairs
/// and their calls.
#[derive(Drop)]
pub(crate) struct Arcs {
    alloc: Global,
    list: Vec<RawArc>,
    table: Option<Tally<(u32, u32)>>,
}

impl Model for Arcs {
    ghost use Rattle.std.specs.Prelude.{ℕ, List, unwrap_or};
    ghost use Rattle.gmon_data.specs.Arcs.{entries_of, IsInOrder};

    ghost Value = { List ((ℕ × ℕ) × ℕ) };

    ghost view = { λ a. unwrap_or a.table (entries_of a.list.items) };

    ghost invariant = { λ a. IsInOrder (entries_of a.list.items) };
}

impl Arcs {
    /// No pairs, which take no memory yet.
    #[tactic(auto, using(crate::proofs::ArcLemmas::none_in_order))]
    pub fn new(alloc: Global) -> Self
        ensures { result ≡ [] }
    {
        Arcs {
            alloc,
            list: Vec::new(alloc),
            table: None,
        }
    }

    /// Adds calls to those of a pair; a new pair goes last. After want of memory the pairs are unchanged.
    pub fn add(&mut self, pair: (u32, u32), count: u64) -> Result<(), AllocError>
        requires { tally_total self.old + count < 2 ^ 64 }
        ensures added { OnOk result (self.new ≡ tally same_ends pair count self.old) }
        ensures distinct { IsDistinct same_ends (keys_of self.new) }
        ensures unchanged { OnErr result (self.new ≡ self.old) }
    {
        if let Some(table) = &mut self.table {
            return table.add(pair, count);
        }
        if count <= u64::from(u32::MAX) && is_behind(self.list.as_slice(), pair) {
            self.list.push(RawArc {
                from: pair.0,
                to: pair.1,
                count: count as u32,
            })?;
            return Ok(());
        }
        let mut table = table_of(self.alloc, self.list.as_slice())?;
        table.add(pair, count)?;
        self.put(table);
        Ok(())
    }

    /// Adds the calls of arcs, in their order. After want of memory some first ones are added.
    pub fn add_all(&mut self, arcs: &[RawArc]) -> Result<(), AllocError>
        requires { tally_total self.old + tally_total (entries_of arcs.now) < 2 ^ 64 }
        ensures added { OnOk result (self.new ≡ tally_all same_ends (entries_of arcs.now) self.old) }
        ensures distinct { IsDistinct same_ends (keys_of self.new) }
        ensures fit { AllByRecursion PairFits self.old → AllByRecursion PairFits self.new }
        ensures stopped { OnErr result (IsTalliedPartly same_ends (entries_of arcs.now) self.old
            self.new) }
    {
        if let Some(table) = &mut self.table {
            return table.add_all(arcs);
        }
        for arc in arcs {
            let (pair, count) = arc.entry();
            self.add(pair, count)?;
        }
        Ok(())
    }

    /// Takes room for what arcs are about to add, so that their pairs don't crowd in a table; where there is none, adding
    /// takes it.
    pub fn expect(&mut self, arcs: &[RawArc])
        requires { tally_total self.old < 2 ^ 64 }
        ensures { self.new ≡ self.old }
    {
        if arcs.is_empty() || (self.is_unused() && are_in_order(arcs)) {
            let _ = self.list.reserve(arcs.len());
            return;
        }
        self.tabulate();
        if let Some(table) = &mut self.table {
            table.expect(arcs);
        }
    }

    /// Takes room for what others are about to add, as `expect` does.
    pub fn expect_others(&mut self, more: &Arcs)
        requires { tally_total self.old < 2 ^ 64 }
        ensures { self.new ≡ self.old }
    {
        match &more.table {
            None => self.expect(more.list.as_slice()),
            Some(others) => {
                self.tabulate();
                if let Some(table) = &mut self.table {
                    table.expect_tally(others);
                }
            }
        }
    }

    /// Whether nothing was added, nor any table made.
    fn is_unused(&self) -> bool {
        self.table.is_none() && self.list.is_empty()
    }

    /// Makes a table of the list, where there is memory.
    fn tabulate(&mut self)
        requires { tally_total self.old < 2 ^ 64 }
        ensures { self.new ≡ self.old }
    {
        if self.table.is_none() {
            if let Ok(table) = table_of(self.alloc, self.list.as_slice()) {
                self.put(table);
            }
        }
    }

    /// Has a table in place of what was there.
    #[tactic(auto, using(crate::proofs::ArcLemmas::none_in_order))]
    fn put(&mut self, table: Tally<(u32, u32)>)
        ensures { self.new ≡ table }
    {
        self.table = Some(table);
        self.list = Vec::new(self.alloc);
    }

    /// The same pairs.
    pub fn try_clone(&self) -> Result<Self, AllocError>
        ensures { IfOk result (λ copy. copy ≡ self.now) }
    {
        let table = match &self.table {
            None => None,
            Some(table) => Some(table.try_clone()?),
        };
        Ok(Arcs {
            alloc: self.alloc,
            list: self.list.clone()?,
            table,
        })
    }

    /// The number of pairs.
    pub fn len(&self) -> usize
        ensures { result ≡ length self.now }
    {
        match &self.table {
            None => self.list.len(),
            Some(table) => table.len(),
        }
    }

    /// The pair with the given place, and its calls.
    pub fn get(&self, i: usize) -> ((u32, u32), u64)
        requires { i < length self.now }
        ensures { slice_get self.now i ≡ Some result }
    {
        match &self.table {
            None => self.list[i].entry(),
            Some(table) => table.get(i),
        }
    }

    /// The calls of all pairs.
    pub fn total(&self) -> u64
        requires { tally_total self.now < 2 ^ 64 }
        ensures { result ≡ tally_total self.now }
    {
        let mut sum = 0;
        for i in 0..self.len() {
            sum += self.get(i).1;
        }
        sum
    }
}

/// Whether a pair can stand behind arcs by ascending call site: its call site is above theirs, or that of the last few
/// of them, which call others.
fn is_behind(arcs: &[RawArc], pair: (u32, u32)) -> bool
    ensures { IsBySite (entries_of arcs.now) → result ≡ true → IsBehind pair (entries_of arcs.now) }
{
    let first = arcs.len().saturating_sub(CALLEES);
    for i in (first..arcs.len()).rev() {
        let arc = arcs[i];
        if arc.from < pair.0 {
            return true;
        }
        if arc.from > pair.0 || arc.to == pair.1 {
            return false;
        }
    }
    arcs.len() < CALLEES
}

/// Whether each of the arcs can stand behind those before it.
fn are_in_order(arcs: &[RawArc]) -> bool {
    for i in 0..arcs.len() {
        let arc = arcs[i];
        if !is_behind(&arcs[..i], (arc.from, arc.to)) {
            return false;
        }
    }
    true
}

/// A table of a list.
fn table_of(alloc: Global, list: &[RawArc]) -> Result<Tally<(u32, u32)>, AllocError>
    requires distinct { IsDistinct same_ends (keys_of (entries_of list.now)) }
    requires few { tally_total (entries_of list.now) < 2 ^ 64 }
    ensures { IfOk result (λ table. table ≡ entries_of list.now) }
{
    let mut table = Tally::new(alloc);
    table.expect(list);
    table.add_all(list)?;
    Ok(table)
}
