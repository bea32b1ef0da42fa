//! Hashes under a key that is chosen, so that nobody who makes up the keys of a table crowds it.
//!
//! The table of `indexmap` has groups of twelve places, and a group for every nine keys that it has room for. A key
//! belongs into one group by its hash; where that is full it goes on to the next one, and so does each search for it.
//! Keys that were made up to belong into few groups would take time in the square of their number, and so would one
//! key that is looked up again and again behind many full groups. Under a key that is chosen here, keys go on by no
//! more than a group each, and no search goes over more than 64 full groups.

ghost use Rattle.std.specs.Prelude.{◌≡◌, IfOk};

use indexmap::IndexMap;
use std::alloc::{AllocError, Global};
use std::hash::{BuildHasher, DefaultHasher, FoldHasher, Hash, Hasher};

/// Makes hashers that begin with a key.
#[derive(Clone, Copy)]
pub(crate) struct Keyed {
    initial: FoldHasher,
}

impl Keyed {
    pub(crate) fn new(key: u64) -> Keyed {
        let mut initial = FoldHasher::default();
        initial.write_u64(key);
        Keyed { initial }
    }
}

impl BuildHasher for Keyed {
    type Hasher = FoldHasher;

    ghost build_hasher = { λ s. s.initial };

    #[inline(always)]
    fn build_hasher(&self) -> FoldHasher {
        self.initial
    }
}

/// Keys by number, where a number may stand for none.
pub(crate) trait Keys<K> {
    fn count(&self) -> usize;

    fn key(&self, i: usize) -> Option<K>;
}

impl<K: Copy> Keys<K> for Vec<K> {
    fn count(&self) -> usize {
        self.len()
    }

    fn key(&self, i: usize) -> Option<K> {
        self.get(i).copied()
    }
}

impl<K: Eq + Hash + Copy> Keys<K> for IndexMap<K, u64, Keyed> {
    fn count(&self) -> usize {
        self.len()
    }

    fn key(&self, i: usize) -> Option<K> {
        let (key, _) = self.get_index(i)?;
        Some(*key)
    }
}

/// Tables of fewer keys aren't crowded for long.
const SMALL: usize = 4_096;

/// How many keys are tried.
const TRIES: u64 = 64;

/// How many places a group has. Nothing that `indexmap` has for others tells it, nor which bits of a hash choose a group.
const PLACES: u64 = 12;

/// How many full groups in a row may be gone over. Random keys have 23 in a row at most in the largest table.
const ROW: u64 = 64;

/// How many keys a group is made for. The capacity of a table tells it, and that the groups double.
const LOAD: usize = 9;

/// How many groups a table has with room for so many keys.
fn groups_for(keys: usize) -> usize {
    for bits in 0..28u32 {
        if LOAD << bits >= keys {
            return 1 << bits;
        }
    }
    1 << 28
}

/// Counts the keys that belong into each group.
fn count_keys<K: Hash + Copy + Drop, N: Keys<K>>(counts: &mut [u32], keyed: Keyed, keys: &N) {
    let last = counts.len().saturating_sub(1);
    for i in 0..keys.count() {
        if let Some(key) = keys.key(i) {
            let hash = keyed.hash_one(key);
            let group = (hash ^ (hash >> 32)) as usize & last;
            if let Some(n) = counts.get_mut(group) {
                *n = n.saturating_add(1);
            }
        }
    }
}

/// How far keys go on from the groups into which they belong.
#[derive(Clone, Copy)]
struct Overflow {
    /// How many keys go on behind the last group.
    last: u64,
    /// How many steps they all go.
    steps: u64,
    /// How many groups in a row are gone over at most.
    row: u64,
}

/// How far the keys that are counted go on, where so many come on to the first group.
fn counted_overflow(counts: &[u32], before: u64) -> Overflow {
    let mut on = before;
    let mut steps: u64 = 0;
    let mut row: u64 = 0;
    let mut longest: u64 = 0;
    for n in counts {
        on = on.saturating_add(u64::from(*n)).saturating_sub(PLACES);
        steps = steps.saturating_add(on);
        row = if on > 0 { row.saturating_add(1) } else { 0 };
        longest = longest.max(row);
    }
    Overflow {
        last: on,
        steps,
        row: longest,
    }
}

/// Whether so many keys, which are counted, would go on by more than a group each, or one of them over many.
fn is_crowded(counts: &[u32], keys: usize) -> bool {
    let before = counted_overflow(counts, 0).last;
    let overflow = counted_overflow(counts, before);
    overflow.steps > keys as u64 || overflow.row > ROW
}

/// Counts the keys that are there, and more keys, in a table with room for all of them.
fn count_anew<K: Eq + Hash + Copy + Drop, N: Keys<K>>(
    counts: &mut Vec<u32>,
    keyed: Keyed,
    kept: &IndexMap<K, u64, Keyed>,
    more: &N,
) -> Result<(), AllocError> {
    counts.clear();
    counts.resize(groups_for(kept.len().saturating_add(more.count())), 0)?;
    count_keys(counts.as_mut_slice(), keyed, kept);
    count_keys(counts.as_mut_slice(), keyed, more);
    Ok(())
}

/// Whether more keys would crowd beside those that are there. These are counted only where they weren't before for a
/// table of that size, or would crowd: what was counted may have come several times.
fn would_crowd<K: Eq + Hash + Copy + Drop, N: Keys<K>>(
    kept: &IndexMap<K, u64, Keyed>,
    counts: &mut Vec<u32>,
    more: &N,
) -> Result<bool, AllocError> {
    let keys = kept.len().saturating_add(more.count());
    if counts.len() == groups_for(keys) {
        count_keys(counts.as_mut_slice(), *kept.hasher(), more);
        if !is_crowded(counts.as_slice(), keys) {
            return Ok(false);
        }
    }
    count_anew(counts, *kept.hasher(), kept, more)?;
    Ok(is_crowded(counts.as_slice(), keys))
}

/// A digest of all keys, which the hasher of std makes: one that is made for keys that others make up.
fn digest<K: Hash + Copy, N: Keys<K>>(hasher: DefaultHasher, keys: &N) -> DefaultHasher {
    let mut state = hasher;
    for i in 0..keys.count() {
        if let Some(key) = keys.key(i) {
            key.hash(&mut state);
        }
    }
    state
}

/// A key under which the keys don't crowd: that of the table, or one of a row that begins with a digest of them. The
/// last of the row where they crowd under each.
fn choose<K: Eq + Hash + Copy + Drop, N: Keys<K>>(
    alloc: Global,
    kept: &IndexMap<K, u64, Keyed>,
    more: &N,
) -> Result<Keyed, AllocError> {
    let keys = kept.len().saturating_add(more.count());
    let mut keyed = *kept.hasher();
    let mut counts = Vec::new(alloc);
    let state = digest(digest(DefaultHasher::new(), kept), more);
    for t in 0..TRIES {
        count_anew(&mut counts, keyed, kept, more)?;
        if !is_crowded(counts.as_slice(), keys) {
            return Ok(keyed);
        }
        let mut next = state;
        next.write_u64(t);
        keyed = Keyed::new(next.finish());
    }
    Ok(keyed)
}

/// Takes room for more keys. Where they would crowd beside those that are there, another key is chosen before, and the
/// table is made anew. `counts` has how many keys belong into each group, where they were counted.
pub(crate) fn make_room<K: Eq + Ord + Hash + Copy + Drop, N: Keys<K>>(
    alloc: Global,
    numbers: &mut IndexMap<K, u64, Keyed>,
    counts: &mut Vec<u32>,
    more: &N,
) -> Result<(), AllocError>
    ensures { numbers.new.entries ≡ numbers.old.entries }
{
    let room = numbers.len().saturating_add(more.count());
    if room >= SMALL && would_crowd(numbers, counts, more)? {
        counts.clear();
        let keys = distinct(alloc, more)?;
        let keyed = choose(alloc, numbers, &keys)?;
        *numbers = rebuilt(alloc, numbers, keyed, room)?;
    }
    numbers.reserve(more.count())
}

/// Each key once.
fn distinct<K: Eq + Ord + Copy + Drop, N: Keys<K>>(
    alloc: Global,
    keys: &N,
) -> Result<Vec<K>, AllocError> {
    let mut once = Vec::with_capacity(alloc, keys.count())?;
    for i in 0..keys.count() {
        if let Some(key) = keys.key(i) {
            once.push(key)?;
        }
    }
    once.sort_unstable();
    once.dedup();
    Ok(once)
}

/// The same numbers in a table under another key, with room for so many keys.
fn rebuilt<K: Eq + Hash + Copy + Drop>(
    alloc: Global,
    numbers: &IndexMap<K, u64, Keyed>,
    keyed: Keyed,
    room: usize,
) -> Result<IndexMap<K, u64, Keyed>, AllocError>
    ensures { IfOk result (λ copy. copy.entries ≡ numbers.now.entries) }
{
    let mut copy = IndexMap::with_hasher(alloc, keyed);
    copy.reserve(room)?;
    for i in 0..numbers.len() {
        let (key, n) = numbers.get_index(i).unwrap();
        copy.insert(*key, *n)?;
    }
    Ok(copy)
}
