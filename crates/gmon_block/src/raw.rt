//! The memory of the block, by raw pointers: one allocation is taken, filled with zeros, lent as one
//! slice, and given back. Only this file has a pointer; the rest is safe code over the slices.

ghost use Rattle.std.specs.Prelude.{◌≡◌, ℕ, ◌+◌, ◌*◌, ◌^◌, ◌<◌, ◌≤◌, ◌++◌, List, length, take, drop, replicate, IfOk};
ghost use Rattle.std.specs.Borrow.{sem};
ghost use denote.RawPtr.{Ptr};
ghost use Rattle.gmon_block.specs.Memory.{block_of, room_of, bytes_owned, bytes_lent};

use std::alloc::{AllocError, Allocator, Global};
use std::marker::{Model, PhantomData};
use std::slice;

// `len` bytes from `start` on, to which nothing has been written.
struct Room {
    start: *mut u8,
    len: usize,
    ghost small: { len < 2 ^ 63 },
}

impl Model for Room {
    ghost also_owns = { λ r. room_of r.start r.len };
}

// `len` bytes from `start` on.
struct Bytes {
    start: *mut u8,
    len: usize,
    ghost items: { List ℕ },
    ghost ok: { (len ≡ length items) × (len < 2 ^ 63) },
}

impl Model for Bytes {
    ghost also_owns = { λ b. bytes_owned b.start b.len b.items };

    ghost also_shares = { λ b _ κ. bytes_lent b.start b.len b.items κ };
}

// The right to give `len` bytes from `start` on back to `alloc`, once. It takes no space. Neither it
// nor `Bytes` may be dropped, so whoever has them has to call `free`.
struct Lease<A: Allocator> {
    by: PhantomData<A>,
    ghost alloc: { A },
    ghost start: { Ptr },
    ghost len: { ℕ },
}

impl<A: Allocator> Model for Lease<A> {
    ghost also_owns = { λ l. A.dealloc_token l.alloc (block_of l.len) l.start };
}

impl Room {
    fn new<A: Allocator>(alloc: &A, len: usize) -> Result<(Room, Lease<A>), AllocError>
        requires { len < 2 ^ 63 }
        ensures { IfOk result (λ r. (r.0.len ≡ len) × (r.1.alloc ≡ alloc.now)
            × (r.1.start ≡ r.0.start) × (r.1.len ≡ len)) }
    {
        match alloc.allocate(len, 1) {
            Ok(start) => {
                let by = PhantomData;
                Ok((Room { start, len }, Lease { by }))
            }
            Err(error) => Err(error),
        }
    }

    // Each byte is written once.
    fn zeroed(self) -> Bytes
        ensures { (result.start ≡ self.start) × (result.len ≡ self.len)
            × (result.items ≡ replicate self.len 0) }
    {
        let Room { start, len } = self;
        let mut i = 0;
        while i < len {
            unsafe { *start.add(i) = 0 };
            i += 1;
        }
        Bytes { start, len }
    }
}

impl Bytes {
    ghost use Rattle.gmon_block.specs.Lends.{lends_items};

    fn as_slice(&self) -> &[u8]
        ensures { result.now ≡ self.now.items }
    {
        unsafe { slice::from_raw_parts(self.start, self.len) }
    }

    fn as_mut_slice(&mut self) -> &mut [u8]
        ensures* writes_back { sem 𝓛 (lends_items self.entry result) }
        ensures value { result.now ≡ self.old.items }
    {
        unsafe { slice::from_raw_parts_mut(self.start, self.len) }
    }

    fn free<A: Allocator>(self, lease: Lease<A>, alloc: &A)
        requires { (lease.alloc ≡ alloc.now) × (lease.start ≡ self.start) × (lease.len ≡ self.len) }
    {
        let Bytes { start, len } = self;
        let Lease { by: _ } = lease;
        unsafe { alloc.deallocate(start, len, 1) }
    }
}

// Bytes in one allocation, which is given back at their end. Contracts see them as a list.
pub(crate) struct RawBytes {
    bytes: Bytes,
    lease: Lease<Global>,
    alloc: Global,
}

impl Model for RawBytes {
    ghost use Rattle.std.specs.Prelude.{◌≡◌, ℕ, List};

    ghost Value = { List ℕ };

    ghost view = { λ r. r.bytes.items };

    ghost invariant = { λ r. (r.lease.alloc ≡ r.alloc) × (r.lease.start ≡ r.bytes.start)
        × (r.lease.len ≡ r.bytes.len) };
}

impl Drop for RawBytes {
    fn drop(self) {
        let RawBytes {
            bytes,
            lease,
            alloc,
        } = self;
        bytes.free(lease, &alloc);
    }
}

impl RawBytes {
    ghost use Rattle.gp_base.specs.Bytes.{with_piece_at};

    // `len` bytes that are 0, in one allocation.
    pub(crate) fn zeroed(alloc: Global, len: usize) -> Result<RawBytes, AllocError>
        requires { len < 2 ^ 63 }
        ensures { IfOk result (λ r. r ≡ replicate len 0) }
    {
        let (room, lease) = Room::new(&alloc, len)?;
        Ok(RawBytes {
            bytes: room.zeroed(),
            lease,
            alloc,
        })
    }

    // The bytes, lent for reading.
    pub(crate) fn as_slice(&self) -> &[u8]
        ensures { result.now ≡ self.now }
    {
        self.bytes.as_slice()
    }

    // The `len` bytes from `at` on.
    pub(crate) fn part(&self, at: usize, len: usize) -> &[u8]
        requires { at + len ≤ length self.now }
        ensures { result.now ≡ take len (drop at self.now) }
    {
        self.as_slice().split_at(at).1.split_at(len).0
    }

    // Writes `piece` over the bytes from `at` on.
    pub(crate) fn put(&mut self, at: usize, piece: &[u8])
        requires { at + length piece.now ≤ length self.old }
        ensures { self.new ≡ with_piece_at at piece.now self.old }
    {
        let bytes = self.bytes.as_mut_slice();
        bytes[at..at + piece.len()].copy_from_slice(piece);
    }
}
