//! Reading a whole file piece by piece.

ghost use Rattle.std.specs.Prelude.{◌≡◌, ℕ, ◌+◌, ◌^◌, ◌<◌, ◌≤◌, ◌++◌, true, false, List, [], length, IfOk};
ghost use Rattle.host_port.specs.Host.{Moves, Reads};
ghost use Rattle.host_port.specs.Load.{Loads, ReadsAll};
ghost use Rattle.host_port.specs.declared.whole_file.LoadRefusal.TheVariants.{ReadFault, OutOfMemory};

use crate::host::{Failed, Host};
use std::alloc::{AllocError, AllocFailed, Global};

/// Why a file was not loaded.
#[derive(Clone, Copy, Debug, PartialEq, Eq)]
pub enum LoadRefusal {
    /// A call on the host failed.
    ReadFault,
    /// The file has more bytes than the limit.
    TooLarge,
    OutOfMemory,
}

impl From<Failed> for LoadRefusal {
    ghost from_gives = { λ _ e. e ≡ ReadFault };

    fn from(_e: Failed) -> LoadRefusal {
        LoadRefusal::ReadFault
    }
}

impl From<AllocError> for LoadRefusal {
    ghost from_gives = { λ _ e. e ≡ OutOfMemory };

    fn from(_e: AllocError) -> LoadRefusal {
        LoadRefusal::OutOfMemory
    }
}

impl<T: Drop> From<AllocFailed<T>> for LoadRefusal {
    ghost from_gives = { λ _ e. e ≡ OutOfMemory };

    fn from(_e: AllocFailed<T>) -> LoadRefusal {
        LoadRefusal::OutOfMemory
    }
}

/// What takes the bytes of a file piece by piece.
pub trait TakesPieces: Drop {
    /// What it is once it has taken these bytes.
    ghost holds: { List ℕ → Self → Type 0 };

    /// Takes the next piece. All pieces together have fewer than 2^32 bytes.
    fn take(self, alloc: Global, piece: &[u8]) -> Result<Self, AllocError>
        requires { (bytes : List ℕ) × holds bytes self × (length bytes + length piece.now < 2 ^ 32) }
        ensures { IfOk result (λ now. (bytes : List ℕ) → holds bytes self
            → holds (bytes ++ piece.now) now) };
}

/// The bytes themselves.
impl TakesPieces for Vec<u8> {
    ghost holds = { λ bytes taken. taken.items ≡ bytes };

    fn take(self, _alloc: Global, piece: &[u8]) -> Result<Vec<u8>, AllocError> {
        let mut bytes = self;
        bytes.extend_from_slice(piece)?;
        Ok(bytes)
    }
}

/// How many bytes are asked for at a time.
const PIECE: usize = 4_096;

/// The bytes of the named file, which are at most `limit`; all of the input was read. It reads no further than
/// one byte beyond the limit. After a refusal part of the input may be read.
pub fn load<H: Host>(
    alloc: Global,
    host: &mut H,
    name: &str,
    limit: u32,
) -> Result<Vec<u8>, LoadRefusal>
    requires { (H.outside host.old).is_writing ≡ false }
    ensures { Loads name.now limit (H.outside host.old) (H.outside host.new) result }
{
    let (bytes, _) = read_all(alloc, host, name, limit, Vec::new(alloc))?;
    Ok(bytes)
}

/// Reads the named file, which has at most `limit` bytes, in pieces of at most 4,096: what has taken all of its
/// bytes, and how many they are. It reads no further than one byte beyond the limit.
pub fn read_all<H: Host, T: TakesPieces>(
    alloc: Global,
    host: &mut H,
    name: &str,
    limit: u32,
    taker: T,
) -> Result<(T, u32), LoadRefusal>
    requires idle { (H.outside host.old).is_writing ≡ false }
    requires empty { T.holds [] taker }
    ensures { ReadsAll T.holds name.now limit (H.outside host.old) (H.outside host.new) result }
{
    host.open_input(name)?;
    let mut taker = taker;
    let mut len: u32 = 0;
    let mut piece = [0; PIECE];
    loop {
        let left = (limit - len) as usize;
        let n = read_front(host, &mut piece, PIECE.min(left + 1))?;
        if n == 0 {
            return Ok((taker, len));
        }
        if n > left {
            return Err(LoadRefusal::TooLarge);
        }
        taker = taker.take(alloc, piece.split_at(n).0)?;
        len += n as u32;
    }
}

/// Moves at most `most` bytes of the input to the front of a piece, and answers how many.
pub fn read_front<H: Host>(host: &mut H, piece: &mut [u8], most: usize) -> Result<usize, Failed>
    requires is_open { (H.outside host.old).is_open ≡ true }
    requires going { (H.outside host.old).at_end ≡ false }
    requires some { 0 < most }
    requires room { most ≤ length piece.old }
    ensures moves { Moves piece.old piece.new (H.outside host.old) (H.outside host.new) result }
    ensures few { IfOk result (λ n. n ≤ most) }
    ensures counts { Reads (H.outside host.old) (H.outside host.new) result }
    ensures room { length piece.new ≡ length piece.old }
{
    let (front, _) = piece.split_at_mut(most);
    host.read(front)
}
