//! An entry of the block, and its twelve bytes.

ghost use Rattle.std.specs.Prelude.{◌≡◌, length};
ghost use Rattle.gp_base.specs.Bytes.{value_of};
ghost use Rattle.gmon_block.specs.Layout.{entry_bytes, EntryFits};
ghost use Rattle.gmon_block.specs.View.{entry_of};

use byteorder::{ByteOrder, LittleEndian};
use gp_base::{le2, le4};

/// Bytes of an entry in the block.
pub(crate) const ENTRY_BYTES: usize = 12;

/// A called function and how often one call site called it: `struct tostruct` of 4.4BSD `gmon.h`,
/// without its padding.
#[derive(Clone, Copy, Debug, PartialEq, Eq)]
pub struct Tos {
    /// The callee's address.
    pub selfpc: u32,
    /// The number of calls.
    pub count: u32,
    /// The index of the next entry of the same call site, or 0.
    pub link: u16,
}

// The twelve bytes of an entry: its fields, the lowest byte of each first, and two bytes that are 0.
pub(crate) fn spell_entry(t: Tos) -> [u8; 12]
    ensures value { result ≡ entry_bytes t }
    ensures fits { EntryFits t }
{
    let [s0, s1, s2, s3] = le4(t.selfpc);
    let [c0, c1, c2, c3] = le4(t.count);
    let [l0, l1] = le2(t.link);
    [s0, s1, s2, s3, c0, c1, c2, c3, l0, l1, 0, 0]
}

// The entry that twelve bytes spell.
pub(crate) fn read_entry(bytes: &[u8]) -> Tos
    requires { length bytes.now ≡ 12 }
    ensures { result ≡ entry_of bytes.now }
{
    Tos {
        selfpc: LittleEndian::read_u32(bytes),
        count: LittleEndian::read_u32(&bytes[4..]),
        link: LittleEndian::read_u16(&bytes[8..]),
    }
}

// The number that two bytes spell.
pub(crate) fn read_word(bytes: &[u8]) -> u16
    requires { length bytes.now ≡ 2 }
    ensures { result ≡ value_of bytes.now }
{
    LittleEndian::read_u16(bytes)
}
