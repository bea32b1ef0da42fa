//! The block that 4.4BSD's `monstartup` takes: `tos`, `kcount` and `froms` of `struct gmonparam` in
//! `gmon.h`, one after another.

ghost use Rattle.std.specs.Prelude.{◌≡◌, ◌+◌, ◌*◌, ◌≤◌, ◌<◌, length, slice_get, slice_set, replicate, IfOk, Some};
ghost use Rattle.gmon_block.specs.Layout.{no_entry};

use crate::entry::{ENTRY_BYTES, Tos, read_entry, read_word, spell_entry};
use crate::raw::RawBytes;
use gp_base::le2;
use std::alloc::{AllocError, Global};
use std::marker::Model;

// Bytes of a counter, and of a slot.
const WORD_BYTES: usize = 2;

/// The memory of the profiling runtime: entries, counters and slots, in one allocation that is freed
/// once, at the block's end. Contracts see the three lists.
#[derive(Drop)]
pub struct Block {
    raw: RawBytes,
    tos: u32,
    counters: u32,
    froms: u32,
}

impl Model for Block {
    ghost use Rattle.gmon_block.specs.Layout.{Parts};

    ghost Value = { Parts };

    ghost use Rattle.gmon_block.specs.Held.{view_of, IsHeld};

    ghost view = { view_of };

    ghost invariant = { IsHeld };
}

impl Block {
    ghost use Rattle.gmon_block.specs.Layout.{layout_of, Fits};

    /// A block of `tos` entries, `counters` counters and `froms` slots, all 0: one allocation of
    /// `12 * tos + 2 * counters + 2 * froms` bytes. There is at least one of each, and there are at
    /// most 65,534 entries and 4,194,312 counters and slots. Running out of memory is the only other answer.
    pub fn new(alloc: Global, tos: u32, counters: u32, froms: u32) -> Result<Block, AllocError>
        requires tos { (1 ≤ tos) × (tos ≤ 65534) }
        requires counters { (1 ≤ counters) × (counters ≤ 4194312) }
        requires froms { (1 ≤ froms) × (froms ≤ 4194312) }
        ensures tos { IfOk result (λ b. b.tos ≡ replicate tos no_entry) }
        ensures counters { IfOk result (λ b. b.counters ≡ replicate counters 0) }
        ensures froms { IfOk result (λ b. b.froms ≡ replicate froms 0) }
    {
        let entries = tos as usize * ENTRY_BYTES;
        let words = (counters as usize + froms as usize) * WORD_BYTES;
        let raw = RawBytes::zeroed(alloc, entries + words)?;
        Ok(Block {
            raw,
            tos,
            counters,
            froms,
        })
    }

    // Where entry `i` begins.
    fn entry_at(&self, i: u32) -> usize
        requires { i < length self.now.tos }
        ensures { result ≡ 12 * i }
    {
        i as usize * ENTRY_BYTES
    }

    // Where counter `i` begins.
    fn counter_at(&self, i: u32) -> usize
        requires { i < length self.now.counters }
        ensures { result ≡ 12 * length self.now.tos + 2 * i }
    {
        self.tos as usize * ENTRY_BYTES + i as usize * WORD_BYTES
    }

    // Where slot `i` begins.
    fn slot_at(&self, i: u32) -> usize
        requires { i < length self.now.froms }
        ensures { result ≡ 12 * length self.now.tos + 2 * length self.now.counters + 2 * i }
    {
        let words = self.counters as usize + i as usize;
        self.tos as usize * ENTRY_BYTES + words * WORD_BYTES
    }

    /// Entry `i`, counted from 0.
    pub fn tos(&self, i: u32) -> Tos
        requires { i < length self.now.tos }
        ensures { slice_get self.now.tos i ≡ Some result }
    {
        read_entry(self.raw.part(self.entry_at(i), ENTRY_BYTES))
    }

    /// Changes entry `i`, and nothing else.
    pub fn set_tos(&mut self, i: u32, t: Tos)
        requires { i < length self.old.tos }
        ensures { self.new ≡ record self.old { tos = slice_set self.old.tos i t } }
    {
        let at = self.entry_at(i);
        self.raw.put(at, &spell_entry(t));
    }

    /// Counter `i`, counted from 0: a number of samples.
    pub fn kcount(&self, i: u32) -> u16
        requires { i < length self.now.counters }
        ensures { slice_get self.now.counters i ≡ Some result }
    {
        read_word(self.raw.part(self.counter_at(i), WORD_BYTES))
    }

    /// Changes counter `i`, and nothing else.
    pub fn set_kcount(&mut self, i: u32, n: u16)
        requires { i < length self.old.counters }
        ensures { self.new ≡ record self.old { counters = slice_set self.old.counters i n } }
    {
        let at = self.counter_at(i);
        self.raw.put(at, &le2(n));
    }

    /// Slot `i`, counted from 0: the index of its first entry, or 0.
    pub fn froms(&self, i: u32) -> u16
        requires { i < length self.now.froms }
        ensures { slice_get self.now.froms i ≡ Some result }
    {
        read_word(self.raw.part(self.slot_at(i), WORD_BYTES))
    }

    /// Changes slot `i`, and nothing else.
    pub fn set_froms(&mut self, i: u32, n: u16)
        requires { i < length self.old.froms }
        ensures { self.new ≡ record self.old { froms = slice_set self.old.froms i n } }
    {
        let at = self.slot_at(i);
        self.raw.put(at, &le2(n));
    }

    /// The whole block: the entries, of 12 bytes each, then the counters and the slots, of 2 bytes
    /// each. Numbers have their lowest byte first; the last two bytes of an entry are 0.
    pub fn bytes(&self) -> &[u8]
        ensures layout { result.now ≡ layout_of self.now }
        ensures size { length result.now ≡ 12 * length self.now.tos + 2 * length self.now.counters
            + 2 * length self.now.froms }
        ensures fits { Fits self.now }
    {
        self.raw.as_slice()
    }
}
