//! The lists of the public surface.

ghost use Rattle.std.specs.Prelude.{◌≡◌, ◌<◌, List, [], ◌∷◌, ◌++◌, length, OnOk, OnErr, slice_set};

use crate::records::{RawBlock, Rec};
use std::alloc::{AllocError, Global};
use std::marker::Model;

/// A list that grows at its end. Contracts see the list of its items.
#[derive(Drop)]
pub struct Items<T> {
    items: Vec<T>,
}

impl<T> Model for Items<T> {
    ghost use Rattle.std.specs.Prelude.{List};

    ghost Value = { List T };

    ghost view = { λ a. a.items.items };
}

impl<T> Items<T> {
    /// The empty list, which takes no memory yet.
    pub fn new(alloc: Global) -> Self
        ensures { result ≡ [] }
    {
        Items {
            items: Vec::new(alloc),
        }
    }

    /// Adds an item at the end. After running out of memory the list is unchanged.
    pub fn push(&mut self, item: T) -> Result<(), AllocError>
    where
        T: Drop,
        ensures added { OnOk result (self.new ≡ self.old ++ item ∷ []) }
        ensures unchanged { OnErr result (self.new ≡ self.old) }
    {
        self.items.push(item)?;
        Ok(())
    }

    /// The items, from first to last.
    pub fn as_slice(&self) -> &[T]
        ensures { result.now ≡ self.now }
    {
        self.items.as_slice()
    }
}

impl<T> From<Vec<T>> for Items<T> {
    ghost from_gives = { λ items list. list ≡ items.items };

    /// The items of a vector, with its memory.
    fn from(items: Vec<T>) -> Items<T> {
        Items { items }
    }
}

impl<T: Copy> Clone for Items<T> {
    ghost is_clone = { λ list copy. copy ≡ list };

    /// The same items, in memory of their own.
    fn clone(&self) -> Result<Items<T>, AllocError> {
        let items = Vec::from_slice(*self.items.allocator(), &self.items)?;
        Ok(Items { items })
    }
}

impl Items<u64> {
    /// Changes item `i` alone.
    pub fn set(&mut self, i: usize, n: u64)
        requires { i < length self.old }
        ensures { self.new ≡ slice_set self.old i n }
    {
        self.items[i] = n;
    }
}

/// The bytes of a name.
pub type Name = Items<u8>;

/// Counters of 16 bits, as a histogram of a file has them.
pub type Counts = Items<u16>;

/// Counters of 64 bits, as a sum of histograms has them.
pub type Totals = Items<u64>;

/// Execution counts of basic blocks.
pub type BlockList = Items<RawBlock>;

/// The records of a profile file, in file order.
pub type RecList = Items<Rec>;
