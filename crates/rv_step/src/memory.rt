//! The memory of a machine.

ghost use Rattle.std.specs.Prelude.{◌≡◌, ◌⊎◌, ℕ, List, slice_get, ◌+◌, ◌-◌, ◌^◌, ◌<◌, ◌≤◌, ◌↔◌, length, replicate, IfOk, IfSome, IsSome, IsNone, All, if◌then◌else◌};
ghost use Rattle.rv_step.specs.Memory.{IsInside, Memory, byte_at, is_inside, read_at, value_at, write_at};
ghost use Rattle.rv_step.specs.Loading.{CanLoad, with_segments, segment_bytes};

use byteorder::{ByteOrder, LittleEndian};
use elf32_syms::{Image, Segment};
use std::alloc::{AllocError, Global};
use std::marker::Model;

/// Memory: one range of addresses. Contracts see its first address and its bytes.
#[derive(Drop)]
pub struct Ram {
    base: u32,
    bytes: Vec<u8>,
}

impl Model for Ram {
    ghost use Rattle.std.specs.Prelude.{◌+◌, ◌^◌, ◌≤◌, length};
    ghost use Rattle.rv_step.specs.Memory.{Memory};

    ghost Value = { Memory };

    ghost view = { λ a. record { base = a.base; bytes = a.bytes.items } };

    ghost invariant = { λ a. a.base + length a.bytes.items ≤ 2 ^ 32 };
}

impl Ram {
    /// `size` zeroed bytes from address `base` on, which end at 2^32 at the latest.
    pub fn new(alloc: Global, base: u32, size: u32) -> Result<Ram, AllocError>
        requires { base + size ≤ 2 ^ 32 }
        ensures base { IfOk result (λ ram. ram.base ≡ base) }
        ensures zeros { IfOk result (λ ram. ram.bytes ≡ replicate size 0) }
        ensures size { IfOk result (λ ram. length ram.bytes ≡ size) }
    {
        let bytes = vec![in alloc; 0; size as usize]?;
        Ok(Ram { base, bytes })
    }

    /// Loads the segments of a program's file, in table order: a later one overwrites an earlier
    /// one. Takes no memory.
    pub fn load_image(&mut self, image: &Image, bytes: &[u8])
        requires { All (CanLoad self.old bytes.now) image.now.segments }
        ensures loaded { self.new ≡ with_segments image.now.segments bytes.now self.old }
        ensures base { self.new.base ≡ self.old.base }
        ensures size { length self.new.bytes ≡ length self.old.bytes }
    {
        for segment in image.segments.as_slice() {
            self.load_segment(*segment, bytes);
        }
    }

    fn load_segment(&mut self, segment: Segment, bytes: &[u8])
        requires { CanLoad self.old bytes.now segment }
        ensures loaded { self.new ≡ write_at self.old segment.addr
            (segment_bytes bytes.now segment) }
        ensures base { self.new.base ≡ self.old.base }
        ensures size { length self.new.bytes ≡ length self.old.bytes }
    {
        let (_, from_offset) = bytes.split_at(segment.offset as usize);
        let (piece, _) = from_offset.split_at(segment.filesz.min(segment.memsz) as usize);
        let at = (segment.addr - self.base) as usize;
        self.write(at, piece);
    }

    /// The `len` bytes from `addr` on, at least one, and None exactly where they aren't all in
    /// memory. Takes no memory.
    pub fn slice(&self, addr: u32, len: u32) -> Option<&[u8]>
        requires { 1 ≤ len }
        ensures bytes { IfSome result (λ bytes. bytes.now ≡ read_at self.now addr len) }
        ensures inside { IsSome result ↔ IsInside self.now addr len }
        ensures outside { IsNone result ↔ ¬ IsInside self.now addr len }
    {
        let at = self.place(addr, len)?;
        let (_, from_addr) = self.bytes.as_slice().split_at(at);
        let (bytes, _) = from_addr.split_at(len as usize);
        Some(bytes)
    }

    /// Where the byte of an address stands, if it and all up to `len` bytes are in memory.
    pub(crate) fn place(&self, addr: u32, len: u32) -> Option<usize>
        ensures { result ≡ (if is_inside self.now addr len then Some
            (addr - self.now.base) else None) }
    {
        if addr < self.base {
            return None;
        }
        let at = (addr - self.base) as usize;
        if at + len as usize <= self.bytes.len() {
            Some(at)
        } else {
            None
        }
    }

    /// The byte at a place.
    pub(crate) fn byte(&self, at: usize) -> u8
        requires { at + 1 ≤ length self.now.bytes }
        ensures { result ≡ value_at self.now (self.now.base + at) 1 }
    {
        self.bytes[at]
    }

    /// The number in the two bytes at a place.
    #[tactic(auto, using(crate::proofs::Places::value_is))]
    pub(crate) fn half(&self, at: usize) -> u16
        requires { at + 2 ≤ length self.now.bytes }
        ensures { result ≡ value_at self.now (self.now.base + at) 2 }
    {
        LittleEndian::read_u16(self.bytes.as_slice().split_at(at).1)
    }

    /// The number in the four bytes at a place.
    #[tactic(auto, using(crate::proofs::Places::value_is))]
    pub(crate) fn word(&self, at: usize) -> u32
        requires { at + 4 ≤ length self.now.bytes }
        ensures { result ≡ value_at self.now (self.now.base + at) 4 }
    {
        LittleEndian::read_u32(self.bytes.as_slice().split_at(at).1)
    }

    /// Writes bytes from a place on.
    pub(crate) fn write(&mut self, at: usize, piece: &[u8])
        requires { at + length piece.now ≤ length self.old.bytes }
        ensures written { self.new ≡ write_at self.old (self.old.base + at) piece.now }
        ensures base { self.new.base ≡ self.old.base }
        ensures size { length self.new.bytes ≡ length self.old.bytes }
    {
        self.bytes[at..at + piece.len()].copy_from_slice(piece);
    }
}

/// Memory is a map from addresses to bytes. To read is to look up one address after the other; to
/// write changes the addresses that are written, and no other.
pub fn memory_map()
    ensures read { (m : Memory) (a n k : ℕ) → IsInside m a n → k < n
        → slice_get (read_at m a n) k ≡ byte_at m (a + k) }
    ensures written { (m : Memory) (a : ℕ) (bs : List ℕ) (k : ℕ)
        → IsInside m a (length bs) → k < length bs
        → byte_at (write_at m a bs) (a + k) ≡ slice_get bs k }
    ensures kept { (m : Memory) (a : ℕ) (bs : List ℕ) (p : ℕ) → IsInside m a (length bs)
        → (p < a) ⊎ (a + length bs ≤ p)
        → byte_at (write_at m a bs) p ≡ byte_at m p }
{}
