//! What a program's file loads into memory.

ghost use Rattle.std.specs.Prelude.{◌≡◌, ◌+◌, ◌-◌, ◌^◌, ◌<◌, ◌≤◌, if◌then◌else◌, Some, length, true, reverse};
ghost use Rattle.std.specs.List.{All, find, list_any};
ghost use Rattle.annotate.specs.Loaded.{byte_of as byte_from, covers, fills, loaded_byte, loaded_word};

use byteorder::{ByteOrder, LittleEndian};
use elf32_syms::Segment;

/// Whether an address is one of those that get the segment's bytes of the file.
fn is_filled(segment: &Segment, address: u64) -> bool
    ensures { result ≡ fills address segment.now }
{
    let low = u64::from(segment.addr);
    low <= address && address < low + u64::from(segment.filesz)
}

/// Whether it is one of all the segment's addresses.
fn is_covered(segment: &Segment, address: u64) -> bool
    ensures { result ≡ covers address segment.now }
{
    let low = u64::from(segment.addr);
    low <= address && address < low + u64::from(segment.memsz)
}

/// The last segment in table order whose bytes of the file an address gets.
fn last_filled(segments: &[Segment], address: u64) -> Option<Segment>
    ensures { result ≡ find (fills address) (reverse segments.now) }
{
    let mut last = None;
    for segment in segments {
        last = later(segment, address, last);
    }
    last
}

/// A segment, where an address gets its bytes, and else the one before.
fn later(segment: &Segment, address: u64, before: Option<Segment>) -> Option<Segment>
    ensures { result ≡ (if fills address segment.now then Some segment.now else before) }
{
    if is_filled(segment, address) {
        Some(*segment)
    } else {
        before
    }
}

/// The byte that a segment puts at an address.
fn byte_of(segment: &Segment, bytes: &[u8], address: u64) -> u8
    requires inside { segment.now.offset + segment.now.filesz ≤ length bytes.now }
    requires filled { fills address segment.now ≡ true }
    ensures { result ≡ byte_from bytes.now address segment.now }
{
    bytes[segment.offset as usize + (address - u64::from(segment.addr)) as usize]
}

/// Whether a segment covers an address.
fn is_loaded(segments: &[Segment], address: u64) -> bool
    ensures { result ≡ list_any (covers address) segments.now }
{
    segments.iter().any(|segment| is_covered(segment, address))
}

/// The byte that is loaded at an address, and 0 where a segment has no byte of the file for it.
#[tactic(auto, unfolding(crate::specs::Loaded::loaded_byte))]
fn byte_at(segments: &[Segment], bytes: &[u8], address: u64) -> Option<u8>
    requires { All (λ s. s.offset + s.filesz ≤ length bytes.now) segments.now }
    ensures { result ≡ loaded_byte segments.now bytes.now address }
{
    if let Some(segment) = last_filled(segments, address) {
        return Some(byte_of(&segment, bytes, address));
    }
    if is_loaded(segments, address) {
        return Some(0);
    }
    None
}

/// The word at an address, where its four bytes are loaded.
#[tactic(auto, unfolding(crate::specs::Loaded::loaded_word))]
pub(crate) fn word_at(segments: &[Segment], bytes: &[u8], address: u32) -> Option<u32>
    requires { All (λ s. s.offset + s.filesz ≤ length bytes.now) segments.now }
    ensures { result ≡ loaded_word segments.now bytes.now address }
{
    let address = u64::from(address);
    let first = byte_at(segments, bytes, address)?;
    let second = byte_at(segments, bytes, address + 1)?;
    let third = byte_at(segments, bytes, address + 2)?;
    let fourth = byte_at(segments, bytes, address + 3)?;
    Some(LittleEndian::read_u32(&[first, second, third, fourth]))
}
