//! A list in chunks: an item that is inserted moves those of its chunk alone.

ghost use Rattle.std.specs.Prelude.{◌≡◌, ◌+◌, ◌^◌, ◌<◌, ◌≤◌, ℕ, Bool, [], ◌∷◌, ◌++◌, Some, length, insert, slice_get, slice_index, slice_set, true, false, OnOk, OnErr};
ghost use Rattle.std.specs.Fn.{ComputesKey};
ghost use Rattle.std.specs.List.Sorted.{IsNonDecreasing, IsPartitionedBy, IsPartitionPoint};
ghost use Rattle.gmon_data.specs.Chunks.{items_of, IsChunked, IsChunkOf};
ghost use Rattle.gmon_data.specs.ChunkSteps.{starts_with_one_more, HasRoom};

use std::alloc::{AllocError, Global};
use std::marker::Model;

/// The most items of a chunk.
const CHUNK: usize = 1024;

/// A list in chunks of at most `CHUNK` items. Contracts see the list of its items.
#[derive(Drop)]
pub struct ChunkedList<T> {
    alloc: Global,
    chunks: Vec<Vec<T>>,
    starts: Vec<usize>,
    len: usize,
}

impl<T> Model for ChunkedList<T> {
    ghost use Rattle.std.specs.Prelude.{List};
    ghost use Rattle.gmon_data.specs.Chunks.{items_of, IsChunked};

    ghost Value = { List T };

    ghost view = { λ a. items_of a.chunks.items };

    ghost invariant = { λ a. IsChunked a.chunks.items a.starts.items a.len };
}

impl<T> ChunkedList<T> {
    /// The empty list, which takes no memory yet.
    pub fn new(alloc: Global) -> Self
        ensures { result ≡ [] }
    {
        ChunkedList {
            alloc,
            chunks: Vec::new(alloc),
            starts: Vec::new(alloc),
            len: 0,
        }
    }

    /// The number of items.
    pub fn len(&self) -> usize
        ensures { result ≡ length self.now }
    {
        self.len
    }

    /// Item `i`. Takes time in the logarithm of the number of chunks.
    pub fn get(&self, i: usize) -> &T
        requires { i < length self.now }
        ensures { slice_get self.now i ≡ Some result.now }
    {
        let c = chunk_of(self.starts.as_slice(), i);
        let chunk = &self.chunks[c];
        &chunk[i - self.starts[c]]
    }

    /// How many items pass a test that none passes behind one that fails it: they are the first ones.
    /// Takes time in the logarithm of the number of items.
    pub fn partition_point<P: FnMut(&T) -> bool>(&self, mut pred: P) -> usize
        requires { P.IsAlwaysCallable pred }
        ensures bound { result ≤ length self.now }
        ensures partitioned { (p : T → Bool) → ComputesKey P.FnMut p pred
            → IsPartitionedBy p self.now
            → IsPartitionPoint (λ y. p y ≡ true) (λ y. p y ≡ false) self.now result }
    {
        if self.len == 0 {
            return 0;
        }
        let mut base = 0;
        let mut size = self.chunks.len();
        while size > 1 {
            let half = size / 2;
            let mid = base + half;
            let chunk = &self.chunks[mid];
            if pred(&chunk[0]) {
                base = mid;
            }
            size -= half;
        }
        let chunk = &self.chunks[base];
        self.starts[base] + chunk.partition_point(pred)
    }

    /// Changes item `i` alone.
    pub fn set(&mut self, i: usize, item: T)
    where
        T: Drop,
        requires { i < length self.old }
        ensures { self.new ≡ slice_set self.old i item }
    {
        let c = chunk_of(self.starts.as_slice(), i);
        let at = i - self.starts[c];
        let chunk = &mut self.chunks[c];
        chunk[at] = item;
    }

    /// Inserts an item before item `i`, or at the end. Moves items of one chunk, which is split before where
    /// it is full, and counts up the starts of those behind it. After want of memory the list is unchanged.
    pub fn insert(&mut self, i: usize, item: T) -> Result<(), AllocError>
    where
        T: Drop,
        requires inside { i ≤ length self.old }
        requires fits { length self.old + 1 < 2 ^ 64 }
        ensures added { OnOk result (self.new ≡ insert self.old i item) }
        ensures unchanged { OnErr result (self.new ≡ self.old) }
    {
        if i == self.len {
            push(self.alloc, &mut self.chunks, &mut self.starts, i, item)?;
        } else {
            insert_before(&mut self.chunks, &mut self.starts, i, item)?;
        }
        self.len += 1;
        Ok(())
    }
}

/// The chunk that has item `i`.
fn chunk_of(starts: &[usize], i: usize) -> usize
    requires first { slice_get starts.now 0 ≡ Some 0 }
    requires rising { IsNonDecreasing starts.now }
    ensures { IsChunkOf starts.now i result }
{
    starts.partition_point(|start| *start <= i) - 1
}

/// Adds an item at the end: to the last chunk, or, where that is full, as a chunk of its own.
#[tactic(auto, using(crate::proofs::ChunkLemmas::chunked_same, crate::proofs::ChunkLemmas::last_longer))]
fn push<T: Drop>(
    alloc: Global,
    chunks: &mut Vec<Vec<T>>,
    starts: &mut Vec<usize>,
    len: usize,
    item: T,
) -> Result<(), AllocError>
    requires chunked { IsChunked chunks.old.items starts.old.items len }
    requires fits { len + 1 < 2 ^ 64 }
    ensures chunked { OnOk result (IsChunked chunks.new.items starts.new.items (len + 1)) }
    ensures added { OnOk result (items_of chunks.new.items
        ≡ items_of chunks.old.items ++ item ∷ []) }
    ensures still { OnErr result (IsChunked chunks.new.items starts.new.items len) }
    ensures unchanged { OnErr result (items_of chunks.new.items ≡ items_of chunks.old.items) }
{
    let count = chunks.len();
    if count > 0 && chunks[count - 1].len() < CHUNK {
        chunks[count - 1].push(item)?;
        return Ok(());
    }
    push_chunk(alloc, chunks, starts, len, item)
}

/// Adds a chunk of one item at the end.
fn push_chunk<T: Drop>(
    alloc: Global,
    chunks: &mut Vec<Vec<T>>,
    starts: &mut Vec<usize>,
    len: usize,
    item: T,
) -> Result<(), AllocError>
    requires { IsChunked chunks.old.items starts.old.items len }
    ensures chunked { OnOk result (IsChunked chunks.new.items starts.new.items (len + 1)) }
    ensures added { OnOk result (items_of chunks.new.items
        ≡ items_of chunks.old.items ++ item ∷ []) }
    ensures still { OnErr result (IsChunked chunks.new.items starts.new.items len) }
    ensures unchanged { OnErr result (items_of chunks.new.items ≡ items_of chunks.old.items) }
{
    let mut chunk = Vec::new(alloc);
    chunk.push(item)?;
    chunks.reserve(1)?;
    starts.push(len)?;
    chunks.push(chunk)?;
    Ok(())
}

/// Inserts an item before item `i`, into a chunk that is not full then.
fn insert_before<T: Drop>(
    chunks: &mut Vec<Vec<T>>,
    starts: &mut Vec<usize>,
    i: usize,
    item: T,
) -> Result<(), AllocError>
    requires chunked { IsChunked chunks.old.items starts.old.items
        (length (items_of chunks.old.items)) }
    requires inside { i < length (items_of chunks.old.items) }
    requires fits { length (items_of chunks.old.items) + 1 < 2 ^ 64 }
    ensures chunked { OnOk result (IsChunked chunks.new.items starts.new.items
        (length (items_of chunks.old.items) + 1)) }
    ensures added { OnOk result (items_of chunks.new.items
        ≡ insert (items_of chunks.old.items) i item) }
    ensures still { OnErr result (IsChunked chunks.new.items starts.new.items
        (length (items_of chunks.old.items))) }
    ensures unchanged { OnErr result (items_of chunks.new.items ≡ items_of chunks.old.items) }
{
    let c = chunk_of(starts.as_slice(), i);
    split_full(chunks, starts, c)?;
    insert_in_chunk(chunks, starts, i, item)
}

/// Inserts an item before item `i`, into its chunk.
fn insert_in_chunk<T: Drop>(
    chunks: &mut Vec<Vec<T>>,
    starts: &mut Vec<usize>,
    i: usize,
    item: T,
) -> Result<(), AllocError>
    requires chunked { IsChunked chunks.old.items starts.old.items
        (length (items_of chunks.old.items)) }
    requires inside { i < length (items_of chunks.old.items) }
    requires room { HasRoom chunks.old.items starts.old.items i }
    requires fits { length (items_of chunks.old.items) + 1 < 2 ^ 64 }
    ensures chunked { OnOk result (IsChunked chunks.new.items starts.new.items
        (length (items_of chunks.old.items) + 1)) }
    ensures added { OnOk result (items_of chunks.new.items
        ≡ insert (items_of chunks.old.items) i item) }
    ensures still { OnErr result (IsChunked chunks.new.items starts.new.items
        (length (items_of chunks.old.items))) }
    ensures unchanged { OnErr result (items_of chunks.new.items ≡ items_of chunks.old.items) }
{
    let c = chunk_of(starts.as_slice(), i);
    let at = i - starts[c];
    chunks[c].insert(at, item)?;
    bump(starts, c + 1);
    Ok(())
}

/// Splits a chunk that is full into two.
fn split_full<T: Drop>(
    chunks: &mut Vec<Vec<T>>,
    starts: &mut Vec<usize>,
    c: usize,
) -> Result<(), AllocError>
    requires chunked { IsChunked chunks.old.items starts.old.items
        (length (items_of chunks.old.items)) }
    requires inside { c < length chunks.old.items }
    requires fits { length (items_of chunks.old.items) < 2 ^ 64 }
    ensures chunked { IsChunked chunks.new.items starts.new.items
        (length (items_of chunks.old.items)) }
    ensures unchanged { items_of chunks.new.items ≡ items_of chunks.old.items }
    ensures room { OnOk result ((i : ℕ) → IsChunkOf starts.old.items i c
        → HasRoom chunks.new.items starts.new.items i) }
{
    let len = chunks[c].len();
    if len < CHUNK {
        return Ok(());
    }
    let half = len / 2;
    let start = starts[c] + half;
    chunks.reserve(1)?;
    starts.reserve(1)?;
    let tail = chunks[c].split_off(half)?;
    chunks.insert(c + 1, tail)?;
    starts.insert(c + 1, start)?;
    Ok(())
}

/// One item more stands before each chunk from `c` on.
#[tactic(auto, using(std::proofs::lemmas::List::with_items_is))]
fn bump(starts: &mut Vec<usize>, c: usize)
    requires { (k : ℕ) → k < length starts.old.items → slice_index starts.old.items k + 1 < 2 ^ 64 }
    ensures { starts.new.items ≡ starts_with_one_more c starts.old.items }
{
    count_up(starts.as_mut_slice(), c);
}

/// Counts up the numbers from number `c` on: of a slice, so that several are counted up at a time.
#[tactic(auto, using(std::proofs::lemmas::List::get_or_default, crate::proofs::ChunkLemmas::one_more_bumped))]
fn count_up(starts: &mut [usize], c: usize)
    requires { (k : ℕ) → k < length starts.old → slice_index starts.old k + 1 < 2 ^ 64 }
    ensures { starts.new ≡ starts_with_one_more c starts.old }
{
    for k in c..starts.len() {
        starts[k] += 1;
    }
}
