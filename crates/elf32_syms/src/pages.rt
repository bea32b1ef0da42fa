//! Look-ups of the symbols that many addresses lie in.

ghost use Rattle.std.specs.Prelude.{◌≡◌, ◌<◌, ◌↔◌, IsTrue, Some};
ghost use Rattle.elf32_syms.specs.Owners.{IsAscending, owner_of};

use crate::image::Symbol;
use crate::owners::{owner, symbol_count};
use std::alloc::{AllocError, Global};

/// For each page of a text, where its first symbol stands. A page is a power of two of bytes, so that
/// a text has about two pages for each symbol.
///
/// What a table says is where a look-up begins, and no more: whether an address lies in a symbol is
/// told by the symbol.
#[derive(Drop)]
pub struct OwnerPages {
    firsts: Vec<u32>,
    low: u32,
    shift: u32,
    ghost short: { shift < 32 },
}

/// Whether an address lies in the symbol of this number, if there is such a symbol.
#[tactic(auto, using(crate::proofs::OwnerLemmas::owner_by_end, crate::proofs::OwnerLemmas::no_owner_before))]
fn is_owner(symbols: &[Symbol], i: u32, address: u32) -> bool
    requires ordered { IsAscending symbols.now }
    ensures { IsTrue result ↔ owner_of symbols.now address ≡ Some i }
{
    let i = i as usize;
    if i >= symbols.len() {
        return false;
    }
    let symbol = &symbols[i];
    symbol.addr <= address && address < symbol.end
}

/// The logarithm of the bytes of a page, where so many bytes have about two pages for each of `count` symbols.
fn page_shift(bytes: u32, count: u32) -> u32
    ensures { result < 32 }
{
    for shift in 0..31 {
        if (bytes >> shift) / 2 <= count {
            return shift;
        }
    }
    31
}

impl OwnerPages {
    /// The pages of these symbols, which are in order as those of an image are.
    pub fn new(alloc: Global, symbols: &[Symbol]) -> Result<OwnerPages, AllocError>
        requires { IsAscending symbols.now }
    {
        let count = symbol_count(symbols);
        let mut firsts = Vec::new(alloc);
        if symbols.is_empty() {
            return Ok(OwnerPages {
                firsts,
                low: 0,
                shift: 0,
            });
        }
        let low = symbols[0].addr;
        let bytes = symbols[symbols.len() - 1].end.saturating_sub(low);
        let shift = page_shift(bytes, count);
        for page in 0..u64::from(bytes >> shift) + 2 {
            let begin = u64::from(low).saturating_add(page << shift);
            let first = symbols.partition_point(|symbol| u64::from(symbol.end) <= begin);
            firsts.push(first as u32)?;
        }
        Ok(OwnerPages { firsts, low, shift })
    }

    /// The first symbol of a page, or 0.
    fn first(&self, page: usize) -> u32 {
        match self.firsts.get(page) {
            Some(first) => *first,
            None => 0,
        }
    }

    /// A symbol in whose page an address lies, if there is one.
    fn near(&self, symbols: &[Symbol], address: u32) -> u32 {
        let page = (address.saturating_sub(self.low) >> self.shift) as usize;
        let first = self.first(page);
        let last = self.first(page + 1);
        if first > last || last as usize > symbols.len() {
            return first;
        }
        let within = &symbols[first as usize..last as usize];
        first + within.partition_point(|symbol| symbol.end <= address) as u32
    }

    /// The symbol in which an address lies, as `owner` tells it. The symbols are in order, as those of an
    /// image are; the fastest where they are those of the table. Takes no memory.
    pub fn owner(&self, symbols: &[Symbol], address: u32) -> Option<u32>
        requires { IsAscending symbols.now }
        ensures { result ≡ owner_of symbols.now address }
    {
        let near = self.near(symbols, address);
        if is_owner(symbols, near, address) {
            return Some(near);
        }
        owner(symbols, address)
    }

    /// The same: the fastest where it is the symbol of the given number, or the one behind it.
    pub fn owner_near(&self, symbols: &[Symbol], near: u32, address: u32) -> Option<u32>
        requires { IsAscending symbols.now }
        ensures { result ≡ owner_of symbols.now address }
    {
        if is_owner(symbols, near, address) {
            return Some(near);
        }
        let next = near.wrapping_add(1);
        if is_owner(symbols, next, address) {
            return Some(next);
        }
        self.owner(symbols, address)
    }
}
