//! Which symbols are kept, and where the functions of the profiling runtime are.

ghost use Rattle.std.specs.Prelude.{◌≡◌, ℕ, ◌∷◌, [], ◌++◌, ◌-◌, ◌≤◌, length, nat_le, find, option_map, true, None, OnOk, IfOk, IfErr, All, codes};
ghost use Rattle.std.specs.Option.{option_map_or};
ghost use Rattle.std.specs.Ordering.{nat_cmp};
ghost use Rattle.std.specs.BTreeMap.{get, values as values_of_map, IsOrdered};
ghost use Rattle.elf32_syms.specs.declared.refusal.ElfRefusal.TheVariants.{Link};
ghost use Rattle.elf32_syms.specs.Sections.{text_low, text_high};
ghost use Rattle.elf32_syms.specs.Symbols.{fitting_entries as fitting_of, candidates as candidates_of, has_name as has_name_of, IsInText, ranks_before as comes_before_of, kept_at, kept_entries as kept_of, hook_of};
ghost use Rattle.elf32_syms.specs.Refusals.{IsRefusal, text_refusal, names_refusal, count_refusal, symbols_refusal};
ghost use Rattle.elf32_syms.specs.Image.{in_a_row as in_a_row_of, AreFunctions};

use crate::image::{Symbol, SymbolList};
use crate::names::{copied, is_named, name_at, names_end};
use crate::refusal::ElfRefusal;
use crate::sections::Section;
use crate::symbols::{Entry, comes_before, fitting};
use gp_base::limits::MAX_SYMBOLS;
use std::alloc::{AllocError, Global};
use std::collections::BTreeMap;

/// The functions of a program: its kept symbols, and where the profiling runtime begins.
#[derive(Drop)]
pub(crate) struct Functions {
    pub(crate) symbols: SymbolList,
    pub(crate) mcount: Option<u32>,
    pub(crate) moncontrol: Option<u32>,
}

/// The first symbol whose name begins at `end` or behind it.
fn first_behind(entries: &[Entry], end: usize) -> Option<ElfRefusal>
    ensures { result ≡ option_map (λ e. Link e.number) (find (λ e. nat_le end e.name) entries.now) }
{
    entries
        .iter()
        .find(|e| e.name as usize >= end)
        .map(|e| ElfRefusal::Link { index: e.number })
}

/// The first symbol whose name has no end.
#[tactic(auto, unfolding(crate::specs::Refusals::names_refusal))]
fn first_unnamed(strings: &[u8], entries: &[Entry]) -> Option<ElfRefusal>
    ensures { result ≡ names_refusal strings.now entries.now }
{
    first_behind(entries, names_end(strings))
}

/// Whether a symbol has a name of at least one byte.
#[tactic(auto, using(crate::proofs::NameEnds::name_starts, crate::proofs::NameEnds::name_past))]
fn has_name(strings: &[u8], entry: Entry) -> bool
    ensures { result ≡ has_name_of strings.now entry }
{
    let at = entry.name as usize;
    if at >= strings.len() {
        return false;
    }
    strings[at] != 0
}

/// The symbols with a name of at least one byte.
fn candidates(alloc: Global, strings: &[u8], entries: &[Entry]) -> Result<Vec<Entry>, AllocError>
    ensures { IfOk result (λ v. v.items ≡ candidates_of strings.now entries.now) }
{
    entries
        .iter()
        .copied()
        .filter(|e| has_name(strings, *e))
        .collect(alloc)
}

/// The address of the first candidate of a name of at most 10 bytes.
fn hook(strings: &[u8], candidates: &[Entry], name: &[u8]) -> Option<u32>
    requires { length name.now ≤ 10 }
    ensures { result ≡ hook_of strings.now candidates.now name.now }
{
    candidates
        .iter()
        .find(|e| is_named(strings, e.name as usize, name))
        .map(|e| e.addr)
}

/// Whether a candidate comes before the one that is kept at its address so far.
fn is_first(first: &BTreeMap<u32, Entry>, strings: &[u8], entry: Entry) -> bool
    ensures { result ≡ option_map_or (comes_before_of strings.now entry)
        (get nat_cmp first.now entry.addr) true }
{
    match first.get(&entry.addr) {
        Some(best) => comes_before(strings, entry, *best),
        None => true,
    }
}

/// The first candidate at each address.
#[tactic(auto, using(std::proofs::lemmas::List::take_more, std::proofs::lemmas::List::take_all, crate::proofs::KeptLemmas::first_none, crate::proofs::KeptLemmas::first_stays, crate::proofs::KeptLemmas::first_changes))]
fn first_at_each(
    alloc: Global,
    strings: &[u8],
    candidates: &[Entry],
) -> Result<BTreeMap<u32, Entry>, AllocError>
    ensures { IfOk result (λ first. (addr : ℕ) → get nat_cmp first addr
        ≡ kept_at strings.now candidates.now addr) }
{
    let mut first = BTreeMap::new(alloc);
    for entry in candidates {
        if is_first(&first, strings, *entry) {
            first.insert(entry.addr, *entry)?;
        }
    }
    Ok(first)
}

/// The symbols that a map has, in the order of its keys.
fn values(alloc: Global, first: &BTreeMap<u32, Entry>) -> Result<Vec<Entry>, AllocError>
    ensures all { IfOk result (λ v. v.items ≡ values_of_map first.now) }
    ensures ordered { IsOrdered nat_cmp first.now }
{
    first.values().copied().collect(alloc)
}

/// The kept symbols, in the order of their addresses.
#[tactic(auto, using(crate::proofs::KeptLemmas::values_kept))]
fn kept(
    alloc: Global,
    sections: &[Section],
    strings: &[u8],
    candidates: &[Entry],
) -> Result<Vec<Entry>, AllocError>
    requires { All (IsInText sections.now) candidates.now }
    ensures { IfOk result (λ kept. kept.items ≡ kept_of sections.now strings.now candidates.now) }
{
    let first = first_at_each(alloc, strings, candidates)?;
    values(alloc, &first)
}

/// These symbols, of which each reaches to the next and the last to `high`.
#[tactic(auto, using(crate::proofs::RowLemmas::row_more, crate::proofs::RowLemmas::row_all, crate::proofs::RowLemmas::end_inside, crate::proofs::RowLemmas::end_last))]
fn in_a_row(
    alloc: Global,
    strings: &[u8],
    entries: &[Entry],
    high: u32,
) -> Result<SymbolList, AllocError>
    ensures { IfOk result (λ symbols. symbols ≡ in_a_row_of strings.now high entries.now) }
{
    let mut symbols = SymbolList::new(alloc);
    for (i, entry) in entries.iter().enumerate() {
        let end = if i + 1 < entries.len() {
            entries[i + 1].addr
        } else {
            high
        };
        let name = copied(alloc, name_at(strings, entry.name as usize))?;
        symbols.push(Symbol {
            addr: entry.addr,
            end,
            name,
        })?;
    }
    Ok(symbols)
}

/// The functions of a program, by the bytes of its symbol table and of its strings.
#[tactic(auto, using(crate::proofs::KeptLemmas::candidates_in_text, crate::proofs::KeptLemmas::length_kept, crate::proofs::RefusalLemmas::symbols_judged, crate::proofs::RefusalLemmas::too_many, crate::proofs::RefusalLemmas::few), unfolding(crate::specs::Refusals::symbols_refusal))]
pub(crate) fn read_functions(
    alloc: Global,
    sections: &[Section],
    table: &[u8],
    strings: &[u8],
    high: u32,
) -> Result<Functions, ElfRefusal>
    requires table { length table.now ≤ 67108864 }
    requires text { text_refusal sections.now ≡ None }
    requires high { high ≡ text_high sections.now }
    ensures refusal { IfErr result (λ e.
        IsRefusal e (symbols_refusal sections.now table.now strings.now)) }
    ensures accepted { OnOk result (symbols_refusal sections.now table.now strings.now ≡ None) }
    ensures functions { IfOk result (λ f. AreFunctions sections.now strings.now
        (candidates_of strings.now (fitting_of sections.now table.now)) f) }
{
    let entries = fitting(alloc, sections, table)?;
    match first_unnamed(strings, &entries) {
        Some(refusal) => return Err(refusal),
        None => {}
    }
    let candidates = candidates(alloc, strings, &entries)?;
    let kept = kept(alloc, sections, strings, &candidates)?;
    if kept.len() > MAX_SYMBOLS as usize {
        return Err(ElfRefusal::TooManySymbols {
            count: kept.len() as u32,
        });
    }
    Ok(Functions {
        symbols: in_a_row(alloc, strings, &kept, high)?,
        mcount: hook(strings, &candidates, b"_mcount"),
        moncontrol: hook(strings, &candidates, b"moncontrol"),
    })
}
