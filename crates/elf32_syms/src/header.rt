//! The ELF header, and what its two tables must be (System V ABI, "ELF Header"; RISC-V ELF ABI).

ghost use Rattle.std.specs.Prelude.{◌≡◌, ◌<◌, ◌≤◌, ◌^◌, length, IfOk, IfNone};
ghost use Rattle.elf32_syms.specs.Header.{AreInFile, has_magic as has_magic_of, header_of};
ghost use Rattle.elf32_syms.specs.Refusals.{Judges, header_refusal, kind_refusal as kind_refusal_of, tables_refusal as tables_refusal_of};

use crate::refusal::ElfRefusal;
use gp_base::limits::MAX_PROGRAM_HEADERS;
use gp_base::{half, word};

/// Bytes of the header, and of an entry of each of its tables.
const HEADER_BYTES: usize = 52;

const PROGRAM_HEADER_BYTES: u16 = 32;

const SECTION_HEADER_BYTES: u16 = 40;

/// The values that the header's fields must have.
const CLASS_32: u8 = 1;

const LOWEST_FIRST: u8 = 1;

const EXECUTABLE_FILE: u16 = 2;

const RISC_V: u16 = 243;

/// Flags of the header: compressed instructions, and sixteen registers alone.
const FLAG_RVC: u32 = 1;

const FLAG_RVE: u32 = 8;

/// The fields of the header that are looked at.
#[derive(Clone, Copy)]
pub(crate) struct Header {
    pub(crate) class: u8,
    pub(crate) order: u8,
    pub(crate) kind: u16,
    pub(crate) machine: u16,
    /// The address of the first instruction.
    pub(crate) entry: u32,
    /// The offset of the program headers, the bytes of one, and how many there are.
    pub(crate) programs_at: u32,
    pub(crate) program_bytes: u16,
    pub(crate) programs: u16,
    /// The same of the section headers.
    pub(crate) sections_at: u32,
    pub(crate) section_bytes: u16,
    pub(crate) sections: u16,
    pub(crate) flags: u32,
}

/// Whether the file begins with 7F and the letters ELF.
fn has_magic(bytes: &[u8]) -> bool
    requires { 52 ≤ length bytes.now }
    ensures { result ≡ has_magic_of bytes.now }
{
    bytes[0] == 0x7F && bytes[1] == b'E' && bytes[2] == b'L' && bytes[3] == b'F'
}

/// The header's fields.
#[tactic(auto, unfolding(crate::specs::Header::header_of))]
fn fields_of(bytes: &[u8]) -> Header
    requires { 52 ≤ length bytes.now }
    ensures { result ≡ header_of bytes.now }
{
    Header {
        class: bytes[4],
        order: bytes[5],
        kind: half(bytes, 16),
        machine: half(bytes, 18),
        entry: word(bytes, 24),
        programs_at: word(bytes, 28),
        program_bytes: half(bytes, 42),
        programs: half(bytes, 44),
        sections_at: word(bytes, 32),
        section_bytes: half(bytes, 46),
        sections: half(bytes, 48),
        flags: word(bytes, 36),
    }
}

/// Whether the header is that of a program for RV32 without compressed instructions.
#[tactic(auto, unfolding(crate::specs::Refusals::kind_refusal))]
fn kind_refusal(header: &Header) -> Option<ElfRefusal>
    ensures { result ≡ kind_refusal_of header.now }
{
    if header.class != CLASS_32 {
        return Some(ElfRefusal::Class {
            value: u32::from(header.class),
        });
    }
    if header.order != LOWEST_FIRST {
        return Some(ElfRefusal::Order {
            value: u32::from(header.order),
        });
    }
    if header.kind != EXECUTABLE_FILE {
        return Some(ElfRefusal::Kind {
            value: u32::from(header.kind),
        });
    }
    if header.machine != RISC_V {
        return Some(ElfRefusal::Machine {
            value: u32::from(header.machine),
        });
    }
    if header.flags & FLAG_RVC != 0 || header.flags & FLAG_RVE != 0 {
        return Some(ElfRefusal::Flags {
            value: header.flags,
        });
    }
    None
}

/// Whether a table has entries of its form's size, and lies in a file of `len` bytes. Where it has
/// no entry, nothing else of it is looked at.
#[tactic(auto, unfolding(crate::specs::Refusals::tables_refusal))]
fn tables_refusal(header: &Header, len: usize) -> Option<ElfRefusal>
    ensures is { result ≡ tables_refusal_of len header.now }
    ensures inside { IfNone result (AreInFile len header.now) }
{
    if header.programs != 0 && header.program_bytes != PROGRAM_HEADER_BYTES {
        return Some(ElfRefusal::TableSize {
            value: u32::from(header.program_bytes),
        });
    }
    if u32::from(header.programs) > MAX_PROGRAM_HEADERS {
        return Some(ElfRefusal::TableSize {
            value: u32::from(header.programs),
        });
    }
    if header.sections != 0 && header.section_bytes != SECTION_HEADER_BYTES {
        return Some(ElfRefusal::TableSize {
            value: u32::from(header.section_bytes),
        });
    }
    let len = len as u64;
    let programs_end = u64::from(header.programs_at) + 32 * u64::from(header.programs);
    if header.programs != 0 && programs_end > len {
        return Some(ElfRefusal::OutOfFile {
            at: header.programs_at,
        });
    }
    let sections_end = u64::from(header.sections_at) + 40 * u64::from(header.sections);
    if header.sections != 0 && sections_end > len {
        return Some(ElfRefusal::OutOfFile {
            at: header.sections_at,
        });
    }
    None
}

/// The header of a program.
#[tactic(auto, unfolding(crate::specs::Refusals::header_refusal))]
pub(crate) fn read_header(bytes: &[u8]) -> Result<Header, ElfRefusal>
    requires { length bytes.now < 2 ^ 32 }
    ensures judged { Judges (header_refusal bytes.now) result }
    ensures is { IfOk result (λ header. header ≡ header_of bytes.now) }
    ensures inside { IfOk result (λ header. AreInFile (length bytes.now) header) }
{
    if bytes.len() < HEADER_BYTES {
        return Err(ElfRefusal::Short {
            len: bytes.len() as u32,
        });
    }
    if !has_magic(bytes) {
        return Err(ElfRefusal::Magic);
    }
    let header = fields_of(bytes);
    match kind_refusal(&header) {
        Some(refusal) => return Err(refusal),
        None => {}
    }
    match tables_refusal(&header, bytes.len()) {
        Some(refusal) => Err(refusal),
        None => Ok(header),
    }
}
