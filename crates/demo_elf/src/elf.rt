//! The ELF file of a program.

ghost use Rattle.std.specs.Prelude.{◌≡◌, ◌+◌, ◌*◌, ◌^◌, ◌<◌, ◌≤◌, ◌++◌, length, map, replicate, IfOk, OnOk};
ghost use Rattle.demo_elf.specs.Elf as spec;
ghost use Rattle.demo_elf.specs.Symbols.{symbol_of, AreSmall};

use crate::code::DemoSymbol;
use gp_base::{le2, le4};
use std::alloc::{AllocError, Global};

/// Where the text begins in memory.
const TEXT: u32 = 0x1_0000;
/// Where the text begins in the file.
const TEXT_OFFSET: u32 = 4096;

/// How large the parts of a file are.
#[derive(Clone, Copy)]
struct Parts {
    /// The words of the text.
    words: u32,
    symbols: u32,
    /// The bytes of the symbols' names.
    strings: u32,
    ghost few_words: { words ≤ 2 ^ 18 },
    ghost few_symbols: { symbols ≤ 2 ^ 12 },
    ghost short_names: { strings ≤ 2 ^ 20 },
}

fn put_half(bytes: &mut Vec<u8>, n: u16) -> Result<(), AllocError>
    ensures { OnOk result (bytes.new.items ≡ bytes.old.items ++ spec.half n) }
{
    bytes.extend_from_slice(&le2(n))
}

fn put_word(bytes: &mut Vec<u8>, n: u32) -> Result<(), AllocError>
    ensures { OnOk result (bytes.new.items ≡ bytes.old.items ++ spec.word n) }
{
    bytes.extend_from_slice(&le4(n))
}

#[tactic(auto, unfolding(crate::specs::Elf::halves_text))]
fn put_halves(bytes: &mut Vec<u8>, halves: &[u16]) -> Result<(), AllocError>
    ensures { OnOk result (bytes.new.items ≡ bytes.old.items ++ spec.halves_text halves.now) }
{
    for half in halves {
        put_half(bytes, *half)?;
    }
    Ok(())
}

#[tactic(auto, unfolding(crate::specs::Elf::words_text))]
fn put_words(bytes: &mut Vec<u8>, words: &[u32]) -> Result<(), AllocError>
    ensures { OnOk result (bytes.new.items ≡ bytes.old.items ++ spec.words_text words.now) }
{
    for word in words {
        put_word(bytes, *word)?;
    }
    Ok(())
}

fn put_zeros(bytes: &mut Vec<u8>, count: u32) -> Result<(), AllocError>
    ensures { OnOk result (bytes.new.items ≡ bytes.old.items ++ replicate count 0) }
{
    let len = bytes.len() + count as usize;
    bytes.resize(len, 0)
}

/// How many bytes it is to the next multiple of 4.
fn padding_of(size: u32) -> u32
    ensures { result ≡ spec.padding_of size }
{
    (4 - size % 4) % 4
}

impl Parts {
    /// Where the strings begin in the file.
    fn strings_at(self) -> u32
        ensures { result ≡ spec.strings_at self.words self.symbols }
    {
        TEXT_OFFSET + 4 * self.words + 16 * (self.symbols + 1)
    }

    /// Where the names of the sections begin in the file.
    fn names_at(self) -> u32
        ensures { result ≡ spec.names_at self.words self.symbols self.strings }
    {
        self.strings_at() + self.strings
    }

    /// Where the section headers begin in the file.
    fn headers_at(self) -> u32
        ensures { result ≡ spec.headers_at self.words self.symbols self.strings }
    {
        let end = self.names_at() + 33;
        end + padding_of(end)
    }
}

/// The ELF header of a file whose section headers begin at an offset.
#[tactic(auto, unfolding(crate::specs::Elf::file_header))]
fn put_file_header(bytes: &mut Vec<u8>, headers: u32) -> Result<(), AllocError>
    ensures { OnOk result (bytes.new.items ≡ bytes.old.items ++ spec.file_header headers) }
{
    bytes.extend_from_slice(&[0x7F, 0x45, 0x4C, 0x46, 1, 1, 1, 0, 0, 0, 0, 0, 0, 0, 0, 0])?;
    put_halves(bytes, &[2, 243])?;
    put_words(bytes, &[1, TEXT, 52, headers, 0])?;
    put_halves(bytes, &[52, 32, 1, 40, 5, 4])
}

#[tactic(auto, unfolding(crate::specs::Elf::program_header))]
fn put_program_header(bytes: &mut Vec<u8>, words: u32) -> Result<(), AllocError>
    requires { words ≤ 2 ^ 18 }
    ensures { OnOk result (bytes.new.items ≡ bytes.old.items ++ spec.program_header words) }
{
    let size = 4 * words;
    put_words(bytes, &[1, TEXT_OFFSET, TEXT, TEXT, size, size, 5, 4096])
}

/// A symbol with its name at an offset of the strings.
#[tactic(auto, unfolding(crate::specs::Elf::symbol_text))]
fn put_symbol(bytes: &mut Vec<u8>, name: u32, offset: u32) -> Result<(), AllocError>
    requires { offset < 2 ^ 31 }
    ensures { OnOk result (bytes.new.items ≡ bytes.old.items ++ spec.symbol_text name offset) }
{
    put_words(bytes, &[name, TEXT + offset, 0])?;
    bytes.extend_from_slice(&[0x12, 0])?;
    put_half(bytes, 1)
}

/// A first symbol of zeros, and then the symbols.
fn put_symbols(bytes: &mut Vec<u8>, symbols: &[DemoSymbol]) -> Result<(), AllocError>
    requires { AreSmall symbols.now }
    ensures { OnOk result (bytes.new.items ≡ bytes.old.items
        ++ spec.symbols_text (map symbol_of symbols.now)) }
{
    put_zeros(bytes, 16)?;
    let mut name = 1;
    for symbol in symbols {
        put_symbol(bytes, name, symbol.offset)?;
        name += symbol.name.as_bytes().len() as u32 + 1;
    }
    Ok(())
}

/// The names of symbols, each with a zero behind it.
#[tactic(auto, unfolding(crate::specs::Elf::strings_text))]
fn put_strings(bytes: &mut Vec<u8>, symbols: &[DemoSymbol]) -> Result<(), AllocError>
    ensures { OnOk result (bytes.new.items ≡ bytes.old.items
        ++ spec.strings_text (map symbol_of symbols.now)) }
{
    bytes.push(0)?;
    for symbol in symbols {
        bytes.extend_from_slice(symbol.name.as_bytes())?;
        bytes.push(0)?;
    }
    Ok(())
}

/// The section headers: none, the text, the symbols, the strings, and the names of the sections.
#[tactic(auto, unfolding(crate::specs::Elf::section_headers))]
fn put_section_headers(bytes: &mut Vec<u8>, parts: Parts) -> Result<(), AllocError>
    ensures { OnOk result (bytes.new.items ≡ bytes.old.items
        ++ spec.section_headers parts.words parts.symbols parts.strings) }
{
    let text = 4 * parts.words;
    let symbols = 16 * (parts.symbols + 1);
    put_words(bytes, &[0; 10])?;
    put_words(bytes, &[1, 1, 6, TEXT, TEXT_OFFSET, text, 0, 0, 4, 0])?;
    put_words(
        bytes,
        &[7, 2, 0, 0, TEXT_OFFSET + text, symbols, 3, 1, 4, 16],
    )?;
    put_words(
        bytes,
        &[15, 3, 0, 0, parts.strings_at(), parts.strings, 0, 0, 1, 0],
    )?;
    put_words(bytes, &[23, 3, 0, 0, parts.names_at(), 33, 0, 0, 1, 0])
}

/// The names of the sections.
#[tactic(auto, unfolding(crate::specs::Elf::names_text))]
fn put_names(bytes: &mut Vec<u8>) -> Result<(), AllocError>
    ensures { OnOk result (bytes.new.items ≡ bytes.old.items ++ spec.names_text) }
{
    bytes.extend_from_slice(b"\0.text\0.symtab\0.strtab\0.shstrtab\0")
}

/// What stands in front of the text and what it consists of.
fn put_front(bytes: &mut Vec<u8>, words: &[u32], parts: Parts) -> Result<(), AllocError>
    requires text { parts.words ≡ length words.now }
    ensures { OnOk result (bytes.new.items ≡ bytes.old.items
        ++ spec.front_text words.now parts.symbols parts.strings) }
{
    put_file_header(bytes, parts.headers_at())?;
    put_program_header(bytes, parts.words)?;
    put_zeros(bytes, 4012)?;
    put_words(bytes, words)?;
    Ok(())
}

/// What stands behind the strings.
fn put_back(bytes: &mut Vec<u8>, parts: Parts) -> Result<(), AllocError>
    ensures { OnOk result (bytes.new.items ≡ bytes.old.items
        ++ spec.back_text parts.words parts.symbols parts.strings) }
{
    put_names(bytes)?;
    put_zeros(bytes, padding_of(parts.names_at() + 33))?;
    put_section_headers(bytes, parts)?;
    Ok(())
}

/// The file of a program with these words and symbols.
pub(crate) fn elf_file(
    alloc: Global,
    words: &[u32],
    symbols: &[DemoSymbol],
) -> Result<Vec<u8>, AllocError>
    requires words { length words.now ≤ 2 ^ 18 }
    requires small { AreSmall symbols.now }
    ensures file { IfOk result (λ v. v.items ≡ spec.elf_file words.now
        (map symbol_of symbols.now)) }
    ensures short { IfOk result (λ v. length v.items ≤ 2 ^ 22) }
{
    let mut strings = Vec::new(alloc);
    put_strings(&mut strings, symbols)?;
    let strings = strings.as_slice();
    let parts = Parts {
        words: words.len() as u32,
        symbols: symbols.len() as u32,
        strings: strings.len() as u32,
    };
    let mut bytes = Vec::new(alloc);
    put_front(&mut bytes, words, parts)?;
    put_symbols(&mut bytes, symbols)?;
    bytes.extend_from_slice(strings)?;
    put_back(&mut bytes, parts)?;
    Ok(bytes)
}
