//! The image of a program.

ghost use Rattle.std.specs.Prelude.{◌≡◌, ◌≤◌, length, Err, OnOk, IfOk, IfErr, IfSome};
ghost use Rattle.elf32_syms.specs.Refusals.{IsRefusal, header_refusal, elf_refusal};
ghost use Rattle.elf32_syms.specs.Image.{IsWithinLimits, image_of};

use crate::header::read_header;
use crate::kept::read_functions;
use crate::owners::owner;
use crate::refusal::ElfRefusal;
use crate::sections::{find_symbols, read_sections, read_text};
use crate::segments::read_segments;
use gp_base::limits::MAX_ELF_BYTES;
use gp_base::{Items, Name, Span};
use std::alloc::Global;

/// A function of the program: the addresses from `addr` to below `end`.
#[derive(Drop)]
pub struct Symbol {
    pub addr: u32,
    pub end: u32,
    /// The first 4,095 bytes of the name, of which there is at least one.
    pub name: Name,
}

/// Memory from `addr` on: `filesz` bytes of the file from `offset` on, then zeros up to `memsz`
/// bytes in all.
#[derive(Clone, Copy, Debug, PartialEq, Eq)]
pub struct Segment {
    pub addr: u32,
    pub offset: u32,
    pub filesz: u32,
    pub memsz: u32,
}

/// Symbols in ascending address order.
pub type SymbolList = Items<Symbol>;

/// Segments, in the order of the program header table.
pub type SegmentList = Items<Segment>;

/// What a run and its reports need of a program's file.
#[derive(Drop)]
pub struct Image {
    /// The address of the first instruction.
    pub entry: u32,
    pub segments: SegmentList,
    /// From the lowest address of an executable section to the highest end of one.
    pub text: Span,
    pub symbols: SymbolList,
    /// Where the function `_mcount` begins.
    pub mcount: Option<u32>,
    /// Where the function `moncontrol` begins.
    pub moncontrol: Option<u32>,
}

impl Image {
    ghost use Rattle.elf32_syms.specs.Owners.{IsAscending, owner_of};

    /// The index of the symbol that `pc` lies in, and None where there is none. Takes no memory.
    pub fn lookup(&self, pc: u32) -> Option<u32>
        requires { IsAscending self.now.symbols }
        ensures { result ≡ owner_of self.now.symbols pc }
    {
        owner(self.symbols.as_slice(), pc)
    }
}

/// Reads a program's file, of at most 64 MiB (System V ABI, ELF; RISC-V ELF ABI).
///
/// Symbols are those of the first symbol table that are functions, or global or weak and of no
/// type, in an executable section. Of several at one address the first is kept: by its binding
/// (global, weak, any other), then a function before one of no type, then by the bytes of its name,
/// then by its number. The hooks are the first such symbols of their names by number, kept or not.
///
/// A file that is refused is refused for the first reason in this order: its header; the sizes of
/// its tables' entries, and their places; a segment that is cut off; the range of its text; the
/// place of its symbol table, the link to its strings, and their place; a symbol whose name doesn't end within the strings; too
/// many kept symbols. `OutOfMemory` may come at any point behind the header, whose refusals take no memory.
pub fn read(alloc: Global, bytes: &[u8]) -> Result<Image, ElfRefusal>
    requires { length bytes.now ≤ MAX_ELF_BYTES }

    // What is wrong with the header is told whatever memory there is.
    ensures header { IfSome (header_refusal bytes.now) (λ refusal. result ≡ Err refusal) }

    // The first refusal whose conditions the bytes meet, or running out of memory; and Ok only where none
    // is met.
    ensures refusal { IfErr result (λ e. IsRefusal e (elf_refusal bytes.now)) }
    ensures accepted { OnOk result (elf_refusal bytes.now ≡ None) }
    ensures image { IfOk result (λ image. image ≡ image_of bytes.now) }

    // What callers rely on.
    ensures limits { IfOk result (λ image. IsWithinLimits (length bytes.now) image) }
{
    let header = read_header(bytes)?;
    let segments = read_segments(alloc, bytes, &header)?;
    let headers = read_sections(alloc, bytes, &header)?;
    let sections = headers.as_slice();
    let text = read_text(alloc, sections)?;
    let (table, strings) = match find_symbols(bytes, sections) {
        Ok(found) => found,
        Err(refusal) => return Err(refusal),
    };
    let functions = read_functions(alloc, sections, table, strings, text.high)?;
    Ok(Image {
        entry: header.entry,
        segments,
        text,
        symbols: functions.symbols,
        mcount: functions.mcount,
        moncontrol: functions.moncontrol,
    })
}
