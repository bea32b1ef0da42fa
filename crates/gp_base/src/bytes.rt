//! Numbers as bytes and at offsets of bytes, the lowest byte first: the order of ELF files for RISC-V and
//! of gmon.out.

ghost use Rattle.std.specs.Prelude.{◌≡◌, ℕ, ◌+◌, ◌^◌, ◌<◌, ◌≤◌, List, length};
ghost use Rattle.gp_base.specs.Bytes.{le, value_of, half_at, word_at, IsBytes};
ghost use Rattle.gp_base.specs.Fields.{arc_bytes};

use crate::records::RawArc;
use byteorder::{ByteOrder, LittleEndian};

/// The two bytes of a number, the lowest first.
pub fn le2(n: u16) -> [u8; 2]
    ensures { result ≡ le n 2 }
{
    let mut bytes = [0; 2];
    LittleEndian::write_u16(&mut bytes, n);
    bytes
}

/// The four bytes of a number, the lowest first.
pub fn le4(n: u32) -> [u8; 4]
    ensures { result ≡ le n 4 }
{
    let mut bytes = [0; 4];
    LittleEndian::write_u32(&mut bytes, n);
    bytes
}

/// The number in the two bytes at an offset.
pub fn half(bytes: &[u8], at: usize) -> u16
    requires { at + 2 ≤ length bytes.now }
    ensures { result ≡ half_at bytes.now at }
{
    LittleEndian::read_u16(bytes.split_at(at).1)
}

/// The number in the four bytes at an offset.
pub fn word(bytes: &[u8], at: usize) -> u32
    requires { at + 4 ≤ length bytes.now }
    ensures { result ≡ word_at bytes.now at }
{
    LittleEndian::read_u32(bytes.split_at(at).1)
}

/// An arc as both forms of gmon.out have it: the call site, the callee and the count, four bytes each.
pub fn arc_text(arc: RawArc) -> [u8; 12]
    ensures { result ≡ arc_bytes arc }
{
    let mut bytes = [0; 12];
    LittleEndian::write_u32_into(&[arc.from, arc.to, arc.count], &mut bytes);
    bytes
}

/// Bytes and numbers stand for each other: k bytes for each number below 256 ^ k.
pub fn little_endian()
    ensures length { (n k : ℕ) → length (le n k) ≡ k }
    ensures bytes { (n k : ℕ) → IsBytes (le n k) }
    ensures reads_back { (n k : ℕ) → n < 256 ^ k → value_of (le n k) ≡ n }
    ensures one_spelling { (bs : List ℕ) → IsBytes bs → le (value_of bs) (length bs) ≡ bs }
    ensures below { (bs : List ℕ) → IsBytes bs → value_of bs < 256 ^ length bs }
{}
