//! Programs' files. The text stands at offset 4,096 and lies at 0x10000, where the program begins.

ghost use Rattle.std.specs.Prelude.{◌≤◌};

use gp_base::le4;
use std::alloc::{AllocError, Global};

/// A symbol: name, offset in the text, `st_info` and `st_shndx`.
#[derive(Clone, Copy)]
pub struct Entry<'a> {
    pub name: &'a str,
    pub offset: u32,
    pub info: u32,
    pub section: u32,
}

/// A global function.
pub const FUNCTION: u32 = 0x12;

/// A global function in the text.
pub fn function(name: &str, offset: u32) -> Entry<'_> {
    Entry {
        name,
        offset,
        info: FUNCTION,
        section: 1,
    }
}

/// Puts words behind a file, the lowest byte of each first.
pub fn push_words(file: &mut Vec<u8>, words: &[u32]) -> Result<(), AllocError> {
    for word in words {
        file.extend_from_slice(&le4(*word))?;
    }
    Ok(())
}

fn pad(file: &mut Vec<u8>, len: usize) -> Result<(), AllocError> {
    for _ in file.len()..len {
        file.push(0)?;
    }
    Ok(())
}

/// The length of some bytes, of which a test's file has few.
pub fn len_of(bytes: &[u8]) -> u32
    ensures { result ≤ 1000000 }
{
    bytes.len().min(1_000_000) as u32
}

/// Adds a symbol, and its name with a zero behind it.
fn push_symbol(
    table: &mut Vec<u8>,
    strings: &mut Vec<u8>,
    symbol: Entry<'_>,
) -> Result<(), AllocError> {
    let place = symbol.info.min(255) + 65_536 * symbol.section.min(65_535);
    let address = 0x1_0000 + symbol.offset.min(65_535);
    push_words(table, &[len_of(strings), address, 0, place])?;
    strings.extend_from_slice(symbol.name.as_bytes())?;
    strings.push(0)?;
    Ok(())
}

/// The symbol table and the strings of some symbols.
fn tables(alloc: Global, symbols: &[Entry<'_>]) -> Result<(Vec<u8>, Vec<u8>), AllocError> {
    let mut table = Vec::new(alloc);
    let mut strings = Vec::new(alloc);
    pad(&mut table, 16)?;
    strings.push(0u8)?;
    for symbol in symbols {
        push_symbol(&mut table, &mut strings, *symbol)?;
    }
    Ok((table, strings))
}

/// The five section headers: nothing, the text, the symbols, the strings, and the sections' names.
#[rattlefmt::skip]
fn sections(text: u32, symbols: u32, strings: u32) -> [u32; 50]
    requires text { text ≤ 1000000 }
    requires symbols { symbols ≤ 1000000 }
    requires strings { strings ≤ 1000000 }
{
    let symbols_at = 4096 + text;
    let strings_at = symbols_at + symbols;
    [
        0, 0, 0, 0, 0, 0, 0, 0, 0, 0,
        1, 1, 6, 0x1_0000, 4096, text, 0, 0, 4, 0,
        7, 2, 0, 0, symbols_at, symbols, 3, 1, 4, 16,
        15, 3, 0, 0, strings_at, strings, 0, 0, 1, 0,
        23, 3, 0, 0, strings_at + strings, 33, 0, 0, 1, 0,
    ]
}

const IDENT: &[u8] = b"\x7fELF\x01\x01\x01";

/// The headers of a program's file: its own, and that of its one segment.
fn push_headers(file: &mut Vec<u8>, text: u32, sections_at: u32) -> Result<(), AllocError> {
    file.extend_from_slice(IDENT)?;
    pad(file, 16)?;
    push_words(file, &[2 + 243 * 65_536, 1, 0x1_0000, 52, sections_at])?;
    push_words(
        file,
        &[0, 52 + 32 * 65_536, 1 + 40 * 65_536, 5 + 4 * 65_536],
    )?;
    push_words(file, &[1, 4096, 0x1_0000, 0x1_0000, text, text, 5, 4096])?;
    pad(file, 4096)
}

const SECTION_NAMES: &[u8] = b"\0.text\0.symtab\0.strtab\0.shstrtab\0";

fn push_file(
    file: &mut Vec<u8>,
    words: &[u32],
    symbols: &[u8],
    strings: &[u8],
) -> Result<(), AllocError> {
    let text_len = (words.len().min(10_000) * 4) as u32;
    let (symbols_len, strings_len) = (len_of(symbols), len_of(strings));
    let end = 4096 + text_len + symbols_len + strings_len + 33;
    let sections_at = end + (4 - end % 4) % 4;
    push_headers(file, text_len, sections_at)?;
    push_words(file, words)?;
    file.extend_from_slice(symbols)?;
    file.extend_from_slice(strings)?;
    file.extend_from_slice(SECTION_NAMES)?;
    pad(file, sections_at as usize)?;
    push_words(file, &sections(text_len, symbols_len, strings_len))
}

/// The file of these words, of which there are at most 10,000, with these symbols.
pub fn elf(alloc: Global, words: &[u32], symbols: &[Entry<'_>]) -> Result<Vec<u8>, AllocError> {
    let (table, strings) = tables(alloc, symbols)?;
    let mut file = Vec::new(alloc);
    push_file(&mut file, words, &table, &strings)?;
    Ok(file)
}

/// The same with functions, by their names and offsets.
pub fn elf_of(
    alloc: Global,
    words: &[u32],
    functions: &[(&str, u32)],
) -> Result<Vec<u8>, AllocError> {
    let mut symbols = Vec::new(alloc);
    for (name, offset) in functions {
        symbols.push(function(name, *offset))?;
    }
    elf(alloc, words, symbols.as_slice())
}
