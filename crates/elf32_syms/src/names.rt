//! Names in a string section (System V ABI, "String Table").

ghost use Rattle.std.specs.Prelude.{◌≡◌, ℕ, ◌+◌, ◌<◌, ◌≤◌, take, drop, length, nat_lt, IfOk, IsTrue};
ghost use Rattle.std.specs.List.{position_or_len};
ghost use Rattle.std.specs.Str.{bytes_eq};
ghost use Rattle.elf32_syms.specs.Names.{is_zero, name_ends, name_at as name_at_of};

use gp_base::Name;
use gp_base::limits::MAX_NAME_BYTES;
use memchr::memchr;
use std::alloc::{AllocError, Global};

/// One more than the place of the last zero byte, or 0. So a zero byte follows an offset exactly
/// where the offset is below this.
#[tactic(auto, using(crate::proofs::NameEnds::name_ends_below))]
pub(crate) fn names_end(strings: &[u8]) -> usize
    ensures inside { result ≤ length strings.now }
    ensures ends { (at : ℕ) → name_ends strings.now at ≡ nat_lt at result }
{
    let mut end = strings.len();
    while end > 0 && strings[end - 1] != 0 {
        end -= 1;
    }
    end
}

/// The place of the first zero byte, and the length where there is none.
#[tactic(auto, using(crate::proofs::NameEnds::first_zero))]
fn zero_or_len(bytes: &[u8]) -> usize
    ensures is { result ≡ position_or_len is_zero bytes.now }
    ensures inside { result ≤ length bytes.now }
{
    match memchr(0, bytes) {
        Some(place) => place,
        None => bytes.len(),
    }
}

/// The bytes from an offset on, and at most `limit` of them.
#[tactic(auto, using(crate::proofs::NameEnds::cut_past, std::proofs::lemmas::List::take_min))]
fn cut(strings: &[u8], at: usize, limit: usize) -> &[u8]
    ensures { result.now ≡ take limit (drop at strings.now) }
{
    if at >= strings.len() {
        return &strings[..0];
    }
    let rest = strings.split_at(at).1;
    rest.split_at(limit.min(rest.len())).0
}

/// The bytes from an offset to the next zero byte, and at most `limit` of them.
#[tactic(auto, using(crate::proofs::NameEnds::front_is))]
fn front(strings: &[u8], at: usize, limit: usize) -> &[u8]
    requires { limit ≤ 4095 }
    ensures { result.now ≡ take limit (name_at_of strings.now at) }
{
    let cut = cut(strings, at, limit);
    cut.split_at(zero_or_len(cut)).0
}

/// The name at an offset.
#[tactic(auto, using(crate::proofs::NameEnds::whole_name))]
pub(crate) fn name_at(strings: &[u8], at: usize) -> &[u8]
    ensures { result.now ≡ name_at_of strings.now at }
{
    front(strings, at, MAX_NAME_BYTES as usize)
}

/// Whether the same bytes stand at two offsets, as far as a name reaches: then the same name does.
pub(crate) fn have_same_bytes(strings: &[u8], one: usize, other: usize) -> bool
    ensures { IsTrue result → name_at_of strings.now one ≡ name_at_of strings.now other }
{
    let limit = MAX_NAME_BYTES as usize;
    cut(strings, one, limit) == cut(strings, other, limit)
}

/// Whether the name at an offset is this one, of at most 10 bytes.
pub(crate) fn is_named(strings: &[u8], at: usize, name: &[u8]) -> bool
    requires { length name.now ≤ 10 }
    ensures { result ≡ bytes_eq (name_at_of strings.now at) name.now }
{
    // The first 11 bytes tell it from any other.
    front(strings, at, 11) == name
}

/// A copy of a name.
pub(crate) fn copied(alloc: Global, name: &[u8]) -> Result<Name, AllocError>
    ensures { IfOk result (λ copy. copy ≡ name.now) }
{
    let mut copy = Name::new(alloc);
    for b in name {
        copy.push(*b)?;
    }
    Ok(copy)
}
