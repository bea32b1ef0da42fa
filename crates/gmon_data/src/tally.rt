//! Numbers by key, in the order in which the keys came first.

ghost use Rattle.std.specs.Prelude.{◌≡◌, ◌+◌, ◌^◌, ◌<◌, ℕ, [], Some, length, map, slice_get, unwrap_or, IfOk, OnOk, OnErr};
ghost use Rattle.std.specs.List.{AllByRecursion, AllZip, IsDistinct};
ghost use Rattle.std.specs.Map.{keys_of, lookup};
ghost use Rattle.gmon_data.specs.Tally.{tally, tally_all, tally_total, IsTalliedPartly};

use crate::keyed::{Keyed, Keys, make_room};
use gp_base::{RawArc, RawBlock};
use indexmap::IndexMap;
use std::alloc::{AllocError, Global};
use std::hash::Hash;
use std::marker::Model;

/// A record that counts something for a key.
pub(crate) trait Counted<K>: Copy {
    /// The key, and the number that is counted for it.
    ghost entry_of: { Self → K × ℕ };

    /// What holds of each key, whose numbers have so many bits.
    ghost key_fits: { K → Type 0 };

    fn entry(self) -> (K, u64)
        ensures entry { result ≡ entry_of self }
        ensures fits { key_fits result.0 };
}

/// Calls of a pair.
impl Counted<(u32, u32)> for RawArc {
    ghost entry_of = { λ arc. ((arc.from, arc.to), arc.count) };

    ghost key_fits = { λ pair. (pair.0 < 2 ^ 32) × (pair.1 < 2 ^ 32) };

    #[inline(always)]
    fn entry(self) -> ((u32, u32), u64) {
        ((self.from, self.to), u64::from(self.count))
    }
}

/// Executions at an address.
impl Counted<u32> for RawBlock {
    ghost entry_of = { λ block. (block.addr, block.count) };

    ghost key_fits = { λ address. address < 2 ^ 32 };

    #[inline(always)]
    fn entry(self) -> (u32, u64) {
        (self.addr, u64::from(self.count))
    }
}

/// The keys of records.
#[derive(Drop)]
struct KeysOf<'a, R> {
    records: &'a [R],
}

impl<'a, K, R: Counted<K>> Keys<K> for KeysOf<'a, R> {
    fn count(&self) -> usize {
        self.records.len()
    }

    fn key(&self, i: usize) -> Option<K> {
        let (key, _) = self.records.get(i)?.entry();
        Some(key)
    }
}

/// How many keys are looked up before the first one is added.
const BATCH: usize = 16;

/// Numbers by key, in a table under a key that is chosen where the keys would crowd in it. Contracts see the list of the
/// keys and their numbers.
#[derive(Drop)]
pub(crate) struct Tally<K: Eq + Hash> {
    alloc: Global,
    numbers: IndexMap<K, u64, Keyed>,
    /// How many keys belong into each group of the table, where they were counted.
    groups: Vec<u32>,
}

impl<K: Eq + Hash> Model for Tally<K> {
    ghost use Rattle.std.specs.Prelude.{ℕ, List};

    ghost Value = { List (K × ℕ) };

    ghost view = { λ t. t.numbers.entries };
}

impl<K: Eq + Ord + Hash + Copy + Drop> Tally<K> {
    /// No numbers, which take no memory yet.
    pub fn new(alloc: Global) -> Self
        ensures { result ≡ [] }
    {
        Tally {
            alloc,
            numbers: IndexMap::with_hasher(alloc, Keyed::new(0)),
            groups: Vec::new(alloc),
        }
    }

    /// Adds `n` to the number of a key; a new key goes last. After want of memory the numbers are unchanged.
    pub fn add(&mut self, key: K, n: u64) -> Result<(), AllocError>
        requires { tally_total self.old + n < 2 ^ 64 }
        ensures added { OnOk result (self.new ≡ tally K.eq key n self.old) }
        ensures distinct { IsDistinct K.eq (keys_of self.new) }
        ensures unchanged { OnErr result (self.new ≡ self.old) }
    {
        let number = self.numbers.entry(key)?.or_insert(0);
        *number += n;
        Ok(())
    }

    /// Adds what records count, in their order. Room for all of them is taken first, where there is some, and the keys of
    /// some are looked up one behind the other before the first of these is added, so that the waits for memory overlap.
    /// After want of memory some first ones are added.
    #[tactic(auto, using(crate::proofs::TallyLemmas::next_fits, crate::proofs::TallyLemmas::tallied_partly))]
    pub fn add_all<R: Counted<K>>(&mut self, records: &[R]) -> Result<(), AllocError>
        requires { tally_total self.old + tally_total (map R.entry_of records.now) < 2 ^ 64 }
        ensures added { OnOk result (self.new
            ≡ tally_all K.eq (map R.entry_of records.now) self.old) }
        ensures distinct { IsDistinct K.eq (keys_of self.new) }
        ensures fit { AllByRecursion (λ e. R.key_fits e.0) self.old
            → AllByRecursion (λ e. R.key_fits e.0) self.new }
        ensures stopped { OnErr result (IsTalliedPartly K.eq (map R.entry_of records.now) self.old
            self.new) }
    {
        let _ = self.numbers.reserve(records.len());
        for i in 0..records.len() {
            if i % BATCH == 0 {
                self.look_up(&records[i..]);
            }
            let (key, n) = records[i].entry();
            self.add(key, n)?;
        }
        Ok(())
    }

    /// Looks up the keys of the next records, and takes room for those that aren't there, where there is some.
    fn look_up<R: Counted<K>>(&mut self, records: &[R])
        ensures { self.new ≡ self.old }
    {
        let numbers = &self.numbers;
        let new = records[..records.len().min(BATCH)]
            .iter()
            .filter(|record| !numbers.contains_key(&record.entry().0))
            .count();
        let _ = self.numbers.reserve(new);
    }

    /// Takes room for what records are about to add, so that their keys don't crowd in the table; where there is none,
    /// adding takes it.
    pub fn expect<R: Counted<K>>(&mut self, records: &[R])
        ensures { self.new ≡ self.old }
    {
        self.expect_keys(&KeysOf { records });
    }

    /// Takes room for what another tally is about to add, as `expect` does.
    pub fn expect_tally(&mut self, more: &Self)
        ensures { self.new ≡ self.old }
    {
        self.expect_keys(&more.numbers);
    }

    fn expect_keys<N: Keys<K>>(&mut self, keys: &N)
        ensures { self.new ≡ self.old }
    {
        let _ = make_room(self.alloc, &mut self.numbers, &mut self.groups, keys);
    }

    /// The same numbers.
    pub fn try_clone(&self) -> Result<Self, AllocError>
        ensures { IfOk result (AllZip (λ e copy. K.is_clone e.0 copy.0 × (copy.1 ≡ e.1)) self.now) }
    {
        Ok(Tally {
            alloc: self.alloc,
            numbers: self.numbers.clone()?,
            groups: Vec::new(self.alloc),
        })
    }

    /// The number of keys.
    pub fn len(&self) -> usize
        ensures { result ≡ length self.now }
    {
        self.numbers.len()
    }

    /// The key with the given place, and its number.
    pub fn get(&self, i: usize) -> (K, u64)
        requires { i < length self.now }
        ensures { slice_get self.now i ≡ Some result }
    {
        let (key, n) = self.numbers.get_index(i).unwrap();
        (*key, *n)
    }

    /// The number of a key, 0 where it isn't there. Takes no memory.
    pub fn number_of(&self, key: K) -> u64
        ensures { result ≡ unwrap_or (lookup (K.eq key) self.now) 0 }
    {
        self.numbers.get(&key).copied().unwrap_or(0)
    }

    /// The sum of all numbers.
    pub fn total(&self) -> u64
        requires { tally_total self.now < 2 ^ 64 }
        ensures { result ≡ tally_total self.now }
    {
        let mut sum = 0;
        for i in 0..self.numbers.len() {
            sum += self.get(i).1;
        }
        sum
    }
}
