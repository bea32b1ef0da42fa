//! The sections of a program (System V ABI, "Sections"): its text, and where its symbols are.

ghost use Rattle.std.specs.Prelude.{◌≡◌, ◌+◌, ◌≤◌, length, map, min, max, OnOk, IfOk, IfErr, IfSome, IsSome, ◌↔◌};
ghost use Rattle.std.specs.List.{reduce};
ghost use Rattle.elf32_syms.specs.Header.{AreInFile, header_of};
ghost use Rattle.elf32_syms.specs.Sections.{section_at as section_at_of, sections_of, contents as contents_of, executables as executables_of, section_end, text_low, text_high, symbol_table as symbol_table_of, table_of, strings_of};
ghost use Rattle.elf32_syms.specs.Refusals.{IsRefusal, Judges, is_too_far as is_too_far_of, text_refusal, table_refusal};

use crate::header::Header;
use crate::refusal::ElfRefusal;
use gp_base::limits::{MAX_TEXT_BYTES, MAX_TEXT_END};
use gp_base::{Span, word};
use std::alloc::{AllocError, Global};

/// Types of sections.
const SYMTAB: u32 = 2;

const STRTAB: u32 = 3;

const NOBITS: u32 = 8;

/// Flags of sections.
const ALLOC: u32 = 2;

const EXECINSTR: u32 = 4;

/// A section header: the fields that are looked at.
#[derive(Clone, Copy, Drop)]
pub(crate) struct Section {
    pub(crate) kind: u32,
    pub(crate) flags: u32,
    pub(crate) addr: u32,
    pub(crate) offset: u32,
    pub(crate) size: u32,
    /// The section that belongs to this one.
    pub(crate) link: u32,
}

impl Section {
    ghost use Rattle.elf32_syms.specs.Sections.{is_executable as is_executable_of, section_end};

    /// Whether a section has instructions in the file: ALLOC and EXECINSTR, not NOBITS, not empty.
    #[tactic(auto, unfolding(crate::specs::Sections::is_executable))]
    pub(crate) fn is_executable(&self) -> bool
        ensures { result ≡ is_executable_of self.now }
    {
        self.flags & ALLOC != 0
            && self.flags & EXECINSTR != 0
            && self.kind != NOBITS
            && self.size != 0
    }

    /// The address after the section's last.
    pub(crate) fn end(&self) -> u64
        ensures { result ≡ section_end self.now }
    {
        u64::from(self.addr) + u64::from(self.size)
    }

    /// The section's bytes, where they lie in the file.
    fn contents(self, bytes: &[u8]) -> Option<&[u8]>
        ensures bytes { IfSome result (λ part. part.now ≡ contents_of bytes.now self) }
        ensures inside { IsSome result ↔ (self.offset + self.size ≤ length bytes.now) }
    {
        let end = u64::from(self.offset) + u64::from(self.size);
        if end > bytes.len() as u64 {
            return None;
        }
        Some(
            bytes
                .split_at(self.offset as usize)
                .1
                .split_at(self.size as usize)
                .0,
        )
    }
}

/// The section of the header at an offset.
#[tactic(auto, unfolding(crate::specs::Sections::section_at))]
fn section_at(bytes: &[u8], at: usize) -> Section
    requires { at + 40 ≤ length bytes.now }
    ensures { result ≡ section_at_of bytes.now at }
{
    Section {
        kind: word(bytes, at + 4),
        flags: word(bytes, at + 8),
        addr: word(bytes, at + 12),
        offset: word(bytes, at + 16),
        size: word(bytes, at + 20),
        link: word(bytes, at + 24),
    }
}

/// The sections of a file.
pub(crate) fn read_sections(
    alloc: Global,
    bytes: &[u8],
    header: &Header,
) -> Result<Vec<Section>, AllocError>
    requires header { header.now ≡ header_of bytes.now }
    requires inside { AreInFile (length bytes.now) header.now }
    ensures { IfOk result (λ sections. sections.items ≡ sections_of bytes.now) }
{
    let mut sections = Vec::new(alloc);
    for index in 0..usize::from(header.sections) {
        let at = header.sections_at as usize + 40 * index;
        sections.push(section_at(bytes, at))?;
    }
    Ok(sections)
}

/// The executable ones.
fn executables(alloc: Global, sections: &[Section]) -> Result<Vec<Section>, AllocError>
    ensures { IfOk result (λ v. v.items ≡ executables_of sections.now) }
{
    sections
        .iter()
        .copied()
        .filter(|s| s.is_executable())
        .collect(alloc)
}

/// The lowest address of some sections, if there is one.
fn lowest_address(sections: &[Section]) -> Option<u64>
    ensures { result ≡ reduce min (map (λ (s : Section). s.addr) sections.now) }
{
    sections.iter().map(|s| u64::from(s.addr)).min()
}

/// The highest end of some sections, if there is one.
fn highest_end(sections: &[Section]) -> Option<u64>
    ensures { result ≡ reduce max (map section_end sections.now) }
{
    sections.iter().map(|s| s.end()).max()
}

/// Whether a range is too long for a text, or ends too high.
fn is_too_far(low: u64, high: u64) -> bool
    requires { low ≤ high }
    ensures { result ≡ is_too_far_of low high }
{
    high - low > u64::from(MAX_TEXT_BYTES) || high > u64::from(MAX_TEXT_END)
}

/// The lowest address of an executable section and the highest end of one, and 0 twice where there
/// is none.
#[tactic(auto, using(crate::proofs::TextLemmas::reduce_min, crate::proofs::TextLemmas::reduce_max), unfolding(crate::specs::Sections::text_low, crate::specs::Sections::text_high))]
fn text_range(alloc: Global, sections: &[Section]) -> Result<(u64, u64), AllocError>
    ensures low { IfOk result (λ range. range.0 ≡ text_low sections.now) }
    ensures high { IfOk result (λ range. range.1 ≡ text_high sections.now) }
{
    let executables = executables(alloc, sections)?;
    let low = lowest_address(&executables).unwrap_or(0);
    let high = highest_end(&executables).unwrap_or(0);
    Ok((low, high))
}

/// The text.
#[tactic(auto, using(crate::proofs::TextLemmas::text_refused, crate::proofs::TextLemmas::text_accepted))]
pub(crate) fn read_text(alloc: Global, sections: &[Section]) -> Result<Span, ElfRefusal>
    ensures refusal { IfErr result (λ e. IsRefusal e (text_refusal sections.now)) }
    ensures accepted { OnOk result (text_refusal sections.now ≡ None) }
    ensures low { IfOk result (λ text. text.low ≡ text_low sections.now) }
    ensures high { IfOk result (λ text. text.high ≡ text_high sections.now) }
{
    let (low, high) = text_range(alloc, sections)?;

    // A section that is executable is not empty, so an empty range says that there is none.
    if high <= low || is_too_far(low, high) {
        return Err(ElfRefusal::TextRange { low, high });
    }
    Ok(Span {
        low: low as u32,
        high: high as u32,
    })
}

/// The first section of symbols.
fn symbol_table(sections: &[Section]) -> Option<Section>
    ensures { result ≡ symbol_table_of sections.now }
{
    sections.iter().copied().find(|s| s.kind == SYMTAB)
}

/// The bytes of the symbol table and of its strings, which are empty where there is no symbol
/// table.
#[tactic(auto, unfolding(crate::specs::Refusals::table_refusal, crate::specs::Sections::table_of, crate::specs::Sections::strings_of))]
pub(crate) fn find_symbols<'a>(
    bytes: &'a [u8],
    sections: &[Section],
) -> Result<(&'a [u8], &'a [u8]), ElfRefusal>
    ensures judged { Judges (table_refusal (length bytes.now) sections.now) result }
    ensures table { IfOk result (λ found. found.0.now ≡ table_of bytes.now sections.now) }
    ensures strings { IfOk result (λ found. found.1.now ≡ strings_of bytes.now sections.now) }
    ensures short { IfOk result (λ found. length found.0.now ≤ length bytes.now) }
{
    let Some(table) = symbol_table(sections) else {
        return Ok((&bytes[..0], &bytes[..0]));
    };
    let Some(entries) = table.contents(bytes) else {
        return Err(ElfRefusal::OutOfFile { at: table.offset });
    };
    let Some(linked) = sections.get(table.link as usize) else {
        return Err(ElfRefusal::Link { index: table.link });
    };
    if linked.kind != STRTAB {
        return Err(ElfRefusal::Link { index: table.link });
    }
    let Some(strings) = linked.contents(bytes) else {
        return Err(ElfRefusal::OutOfFile { at: linked.offset });
    };
    Ok((entries, strings))
}
