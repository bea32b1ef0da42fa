//! What has come of an item that isn't whole yet.

ghost use Rattle.std.specs.Prelude.{◌≡◌, ◌+◌, ◌≤◌, [], ◌++◌, length, take, drop, min, ◌-◌, true, ◌↔◌};

use std::marker::Model;

/// How many bytes there is room for: the longest front of a record takes as many.
const ROOM: usize = 33;

/// The first bytes of an item, at most 33. Contracts see the list of them. Takes no memory.
#[derive(Drop)]
pub struct Remnant {
    bytes: [u8; ROOM],
    len: usize,
}

impl Model for Remnant {
    ghost use Rattle.std.specs.Prelude.{ℕ, ◌≤◌, List, take};

    ghost Value = { List ℕ };

    ghost view = { λ a. take a.len a.bytes };

    ghost invariant = { λ a. a.len ≤ 33 };
}

impl Remnant {
    /// Nothing has come yet.
    pub fn new() -> Remnant
        ensures { result ≡ [] }
    {
        Remnant {
            bytes: [0; ROOM],
            len: 0,
        }
    }

    /// How many bytes there are.
    pub fn len(&self) -> usize
        ensures len { result ≡ length self.now }
        ensures room { result ≤ 33 }
    {
        self.len
    }

    /// The bytes.
    pub fn as_slice(&self) -> &[u8]
        ensures { result.now ≡ self.now }
    {
        &self.bytes[..self.len]
    }

    /// Puts bytes behind the others. They need to fit.
    pub fn put(&mut self, bytes: &[u8])
        requires { length self.old + length bytes.now ≤ 33 }
        ensures { self.new ≡ self.old ++ bytes.now }
    {
        let start = self.len;
        let end = start + bytes.len();
        self.bytes[start..end].copy_from_slice(bytes);
        self.len = end;
    }

    /// Moves bytes from the front of a piece behind the others, until there are `width` or the piece ends.
    /// The rest of the piece.
    pub fn fill<'p>(&mut self, width: usize, piece: &'p [u8]) -> &'p [u8]
        requires within { length self.old ≤ width }
        requires fits { width ≤ 33 }
        ensures filled { self.new ≡ self.old ++ take (width - length self.old) piece.now }
        ensures rest { result.now ≡ drop (width - length self.old) piece.now }
    {
        let due = width - self.len();
        let (front, rest) = piece.split_at(due.min(piece.len()));
        self.put(front);
        rest
    }

    /// Forgets the bytes.
    pub fn clear(&mut self)
        ensures { self.new ≡ [] }
    {
        self.len = 0;
    }
}
