//! The symbols of a program (System V ABI, "Symbol Table").

ghost use Rattle.std.specs.Prelude.{◌≡◌, ◌+◌, ◌*◌, ◌≤◌, ◌<◌, length, option_map, find, filter, OnOk, IfOk, All};
ghost use Rattle.std.specs.Ordering.{nat_cmp};
ghost use Rattle.std.specs.Cmp.Lexicographic.{slice_cmp};
ghost use Rattle.elf32_syms.specs.Symbols.{entry_at as entry_at_of, is_candidate as fits_of, may_be_function as may_be_function_of, fitting_entries as fitting_of, symbol_name, ranks_before as comes_before_of, binding_rank as binding_rank_of, type_rank as type_rank_of};

use crate::names::{have_same_bytes, name_at};
use crate::sections::Section;
use gp_base::{half, word};
use std::alloc::{AllocError, Global};
use std::cmp::Ordering;

/// Bytes of a symbol.
const SYMBOL_BYTES: usize = 16;

/// Bindings and types of symbols.
const GLOBAL: u8 = 1;

const WEAK: u8 = 2;

const NOTYPE: u8 = 0;

const FUNC: u8 = 2;

/// A symbol of the table.
#[derive(Clone, Copy, Drop)]
pub(crate) struct Entry {
    pub(crate) number: u32,
    pub(crate) addr: u32,
    pub(crate) binding: u8,
    pub(crate) kind: u8,
    pub(crate) section: u16,
    /// The offset of its name in the strings.
    pub(crate) name: u32,
}

/// The symbol of a number.
#[tactic(auto, unfolding(crate::specs::Symbols::entry_at))]
fn entry_at(table: &[u8], number: u32) -> Entry
    requires { 16 * number + 16 ≤ length table.now }
    ensures { result ≡ entry_at_of table.now number }
{
    let at = SYMBOL_BYTES * number as usize;
    let info = table[at + 12];
    Entry {
        number,
        addr: word(table, at + 4),
        binding: info / 16,
        kind: info % 16,
        section: half(table, at + 14),
        name: word(table, at),
    }
}

/// Whether a symbol is a function, or a global or weak symbol of no type.
fn may_be_function(entry: Entry) -> bool
    ensures { result ≡ may_be_function_of entry }
{
    let is_visible = entry.binding == GLOBAL || entry.binding == WEAK;
    entry.kind == FUNC || (entry.kind == NOTYPE && is_visible)
}

/// Whether a symbol is one of the text: its section is executable and has its address. Symbol 0 is
/// none.
#[tactic(auto, unfolding(crate::specs::Symbols::is_candidate))]
fn fits(sections: &[Section], entry: Entry) -> bool
    ensures { result ≡ fits_of sections.now entry }
{
    if entry.number == 0 || !may_be_function(entry) {
        return false;
    }
    match sections.get(usize::from(entry.section)) {
        Some(s) => s.is_executable() && s.addr <= entry.addr && u64::from(entry.addr) < s.end(),
        None => false,
    }
}

/// The symbols of the text.
pub(crate) fn fitting(
    alloc: Global,
    sections: &[Section],
    table: &[u8],
) -> Result<Vec<Entry>, AllocError>
    requires { length table.now ≤ 67108864 }
    ensures { IfOk result (λ entries. entries.items ≡ fitting_of sections.now table.now) }
{
    let mut entries = Vec::new(alloc);
    for number in 0..(table.len() / SYMBOL_BYTES) as u32 {
        let entry = entry_at(table, number);
        if fits(sections, entry) {
            entries.push(entry)?;
        }
    }
    Ok(entries)
}

/// A symbol's rank by its binding: global, weak, any other.
fn binding_rank(entry: Entry) -> u8
    ensures { result ≡ binding_rank_of entry }
{
    match entry.binding {
        GLOBAL => 0,
        WEAK => 1,
        _ => 2,
    }
}

/// A symbol's rank by its type: function, any other.
fn type_rank(entry: Entry) -> u8
    ensures { result ≡ type_rank_of entry }
{
    if entry.kind == FUNC { 0 } else { 1 }
}

/// The order of two symbols' names.
#[tactic(auto, using(crate::proofs::NameEnds::same_name))]
fn by_name(strings: &[u8], one: Entry, other: Entry) -> Ordering
    ensures { result ≡ slice_cmp nat_cmp (symbol_name strings.now one)
        (symbol_name strings.now other) }
{
    // The same bytes of the file are the same name.
    if one.name == other.name {
        return Ordering::Equal;
    }
    // So are names of the same bytes, which are compared faster than names are found.
    if have_same_bytes(strings, one.name as usize, other.name as usize) {
        return Ordering::Equal;
    }
    let name = name_at(strings, one.name as usize);
    name.cmp(&name_at(strings, other.name as usize))
}

/// Whether one symbol is kept rather than another at the same address.
#[tactic(auto, unfolding(crate::specs::Symbols::ranks_before))]
pub(crate) fn comes_before(strings: &[u8], one: Entry, other: Entry) -> bool
    ensures { result ≡ comes_before_of strings.now one other }
{
    let by_binding = binding_rank(one).cmp(&binding_rank(other));
    let by_rank = by_binding.then(type_rank(one).cmp(&type_rank(other)));
    if by_rank != Ordering::Equal {
        return by_rank == Ordering::Less;
    }
    let by_name = by_name(strings, one, other);
    by_name.then(one.number.cmp(&other.number)) == Ordering::Less
}
