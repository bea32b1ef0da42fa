//! Bytes that are collected on their way out.

ghost use Rattle.std.specs.Prelude.{◌≡◌, ◌+◌, ◌≤◌, [], ◌++◌, Ok, true, length};
ghost use Rattle.host_port.specs.Buffered.{Adds, IsReady};

use crate::host::{Failed, Host};
use crate::pieces::put_all;
use crate::side::Side;
use std::marker::Model;

/// How many bytes may be pending.
const ROOM: usize = 4_096;

/// Bytes on their way to the file that is being written: at most 4,096 are pending, and go out together.
/// Contracts see the list of the pending bytes. Takes no memory.
#[derive(Drop)]
pub struct OutBuf {
    pending: Pending,
}

impl Model for OutBuf {
    ghost use Rattle.std.specs.Prelude.{ℕ, List};

    ghost Value = { List ℕ };

    ghost view = { λ a. a.pending };
}

impl OutBuf {
    /// Nothing is pending.
    pub fn new() -> OutBuf
        ensures { result ≡ [] }
    {
        OutBuf {
            pending: Pending::new(),
        }
    }

    /// Puts bytes behind those that are pending. No call is made on the host while all of them fit. After
    /// `Failed` nothing is pending, and what was written is a prefix of what it would be, and not the whole.
    // Inlined, since most bytes come in a few at a time, whose number is known where they are put.
    #[inline(always)]
    pub fn put<H: Host>(&mut self, host: &mut H, bytes: &[u8]) -> Result<(), Failed>
        requires { (H.outside host.old).is_writing ≡ true }
        ensures adds { Adds Side.File bytes.now self.old self.new (H.outside host.old)
            (H.outside host.new) result }
        ensures fits { length self.old + length bytes.now ≤ 4096
            → self.new ≡ self.old ++ bytes.now }
        ensures idle { length self.old + length bytes.now ≤ 4096 → host.new ≡ host.old }
        ensures within { length self.new ≤ 4096 }
    {
        self.pending.put(Side::File, host, bytes)
    }

    /// Writes the pending bytes. After `Failed` too nothing is pending.
    pub fn flush<H: Host>(&mut self, host: &mut H) -> Result<(), Failed>
        requires { (H.outside host.old).is_writing ≡ true }
        ensures adds { Adds Side.File [] self.old self.new (H.outside host.old)
            (H.outside host.new) result }
        ensures emptied { self.new ≡ [] }
        ensures idle { self.old ≡ [] → host.new ≡ host.old }
    {
        self.pending.flush(Side::File, host)
    }
}

/// The same on the way to the output.
#[derive(Drop)]
pub struct PrintBuf {
    pending: Pending,
}

impl Model for PrintBuf {
    ghost use Rattle.std.specs.Prelude.{ℕ, List};

    ghost Value = { List ℕ };

    ghost view = { λ a. a.pending };
}

impl PrintBuf {
    /// Nothing is pending.
    pub fn new() -> PrintBuf
        ensures { result ≡ [] }
    {
        PrintBuf {
            pending: Pending::new(),
        }
    }

    /// Puts bytes behind those that are pending. No call is made on the host while all of them fit. After
    /// `Failed` nothing is pending, and what was printed is a prefix of what it would be, and not the whole.
    pub fn put<H: Host>(&mut self, host: &mut H, bytes: &[u8]) -> Result<(), Failed>
        ensures adds { Adds Side.Output bytes.now self.old self.new (H.outside host.old)
            (H.outside host.new) result }
        ensures fits { length self.old + length bytes.now ≤ 4096
            → self.new ≡ self.old ++ bytes.now }
        ensures idle { length self.old + length bytes.now ≤ 4096 → host.new ≡ host.old }
        ensures within { length self.new ≤ 4096 }
    {
        self.pending.put(Side::Output, host, bytes)
    }

    /// Prints the pending bytes. After `Failed` too nothing is pending.
    pub fn flush<H: Host>(&mut self, host: &mut H) -> Result<(), Failed>
        ensures adds { Adds Side.Output [] self.old self.new (H.outside host.old)
            (H.outside host.new) result }
        ensures emptied { self.new ≡ [] }
        ensures idle { self.old ≡ [] → host.new ≡ host.old }
    {
        self.pending.flush(Side::Output, host)
    }
}

/// Bytes that are pending, whatever side they go to.
#[derive(Drop)]
struct Pending {
    bytes: [u8; ROOM],
    len: usize,
}

impl Model for Pending {
    ghost use Rattle.std.specs.Prelude.{ℕ, ◌≤◌, List, take};

    ghost Value = { List ℕ };

    ghost view = { λ a. take a.len a.bytes };

    ghost invariant = { λ a. a.len ≤ 4096 };
}

impl Pending {
    fn new() -> Pending
        ensures { result ≡ [] }
    {
        Pending {
            bytes: [0; ROOM],
            len: 0,
        }
    }

    #[inline(always)]
    fn put<H: Host>(&mut self, side: Side, host: &mut H, bytes: &[u8]) -> Result<(), Failed>
        requires { IsReady side (H.outside host.old) }
        ensures adds { Adds side bytes.now self.old self.new (H.outside host.old)
            (H.outside host.new) result }
        ensures fits { length self.old + length bytes.now ≤ 4096
            → self.new ≡ self.old ++ bytes.now }
        ensures idle { length self.old + length bytes.now ≤ 4096 → host.new ≡ host.old }
        ensures within { length self.new ≤ 4096 }
    {
        if bytes.len() <= self.room() {
            self.keep(bytes);
            return Ok(());
        }
        self.flush(side, host)?;
        if bytes.len() > ROOM {
            return put_all(side, host, bytes);
        }
        self.keep(bytes);
        Ok(())
    }

    #[inline(never)]
    fn flush<H: Host>(&mut self, side: Side, host: &mut H) -> Result<(), Failed>
        requires { IsReady side (H.outside host.old) }
        ensures adds { Adds side [] self.old self.new (H.outside host.old)
            (H.outside host.new) result }
        ensures emptied { self.new ≡ [] }
        ensures idle { self.old ≡ [] → host.new ≡ host.old }
    {
        let len = self.len;
        self.len = 0;
        put_all(side, host, &self.bytes[..len])
    }

    /// How many bytes still fit.
    fn room(&self) -> usize
        ensures { result + length self.now ≡ 4096 }
    {
        ROOM - self.len
    }

    /// Holds bytes back. They need to fit.
    #[inline(always)]
    fn keep(&mut self, bytes: &[u8])
        requires { length self.old + length bytes.now ≤ 4096 }
        ensures { self.new ≡ self.old ++ bytes.now }
    {
        let start = self.len;
        let end = start + bytes.len();
        self.bytes[start..end].copy_from_slice(bytes);
        self.len = end;
    }
}
