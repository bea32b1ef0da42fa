//! Symbols of functions in a row.

ghost use Rattle.std.specs.Prelude.{◌≡◌, ◌+◌, ◌*◌, ◌<◌, ◌≤◌, IfOk, OnOk};
ghost use Rattle.std.specs.List.{All};
ghost use Rattle.elf32_syms.specs.Owners.{IsAscending};

use elf32_syms::{Symbol, SymbolList};
use gp_base::Name;
use std::alloc::{AllocError, Global};

/// A function's name, and its samples. Without a name there are samples and no function.
pub type Function<'a> = (&'a str, u64);

/// The name that a text is.
pub fn name_of(alloc: Global, text: &str) -> Result<Name, AllocError> {
    Ok(Name::from(Vec::from_slice(alloc, text.as_bytes())?))
}

/// Four hexadecimal digits as a name.
pub fn hex4(alloc: Global, n: u16) -> Result<Name, AllocError> {
    let mut name = Name::new(alloc);
    for shift in [12, 8, 4, 0] {
        let digit = (n >> shift) % 16;
        let first = if digit < 10 { b'0' } else { b'a' - 10 };
        name.push(first + digit as u8)?;
    }
    Ok(name)
}

/// A letter as a name: `a` to `z`, and then again.
fn letter(alloc: Global, n: usize) -> Result<Name, AllocError> {
    let mut name = Name::new(alloc);
    name.push(b'a' + (n % 26) as u8)?;
    Ok(name)
}

/// Adds function `i`, which has 16 addresses.
pub fn push_symbol(symbols: &mut SymbolList, i: u32, name: Name) -> Result<(), AllocError>
    requires few { i < 65536 }
    requires ascending { IsAscending symbols.old }
    requires ended { All (λ s. s.end ≤ 65536 + 16 * i) symbols.old }
    ensures ascending { OnOk result (IsAscending symbols.new) }
    ensures ended { OnOk result (All (λ s. s.end ≤ 65552 + 16 * i) symbols.new) }
{
    symbols.push(Symbol {
        addr: 0x1_0000 + 16 * i,
        end: 0x1_0010 + 16 * i,
        name,
    })
}

/// Adds a function behind all others.
fn push_behind(symbols: &mut SymbolList, addr: u32, end: u32, name: Name) -> Result<(), AllocError>
    requires some { addr < end }
    requires ascending { IsAscending symbols.old }
    requires behind { All (λ s. s.end ≤ addr) symbols.old }
    ensures ascending { OnOk result (IsAscending symbols.new) }
    ensures ended { OnOk result (All (λ s. s.end ≤ end) symbols.new) }
{
    symbols.push(Symbol { addr, end, name })
}

/// So many functions without names, of `size` addresses each.
pub fn symbols_of(alloc: Global, count: u32, size: u32) -> Result<SymbolList, AllocError>
    requires count { count ≤ 65536 }
    requires least { 0 < size }
    requires most { size ≤ 256 }
    ensures { IfOk result IsAscending }
{
    let mut symbols = SymbolList::new(alloc);
    let mut addr = 0x1_0000;
    for _i in 0..count {
        let end = addr + size;
        push_behind(&mut symbols, addr, end, Name::new(alloc))?;
        addr = end;
    }
    Ok(symbols)
}

/// These functions, of 16 addresses each. Where a name is empty there is none; of more than 65,535 the
/// first ones are taken.
pub fn named_symbols(alloc: Global, functions: &[Function<'_>]) -> Result<SymbolList, AllocError>
    ensures { IfOk result IsAscending }
{
    let mut symbols = SymbolList::new(alloc);
    let mut i = 0;
    for (name, _samples) in functions {
        if i < 65_535 {
            if !name.is_empty() {
                push_symbol(&mut symbols, i, name_of(alloc, name)?)?;
            }
            i += 1;
        }
    }
    Ok(symbols)
}

/// So many functions of 16 addresses each, of which the last has the first name: four hexadecimal digits.
pub fn symbols_in_reverse(alloc: Global, count: u16) -> Result<SymbolList, AllocError>
    ensures { IfOk result IsAscending }
{
    let mut symbols = SymbolList::new(alloc);
    for i in 0..count {
        push_symbol(&mut symbols, u32::from(i), hex4(alloc, count - 1 - i)?)?;
    }
    Ok(symbols)
}

/// Symbols of these addresses and ends, whose names are `a`, `b` and so on. One that is empty, or begins
/// below the end of another before it, is left out.
pub fn symbols_at(alloc: Global, places: &[(u32, u32)]) -> Result<SymbolList, AllocError>
    ensures { IfOk result IsAscending }
{
    let mut symbols = SymbolList::new(alloc);
    let mut last = 0;
    for (addr, end) in places {
        if last <= *addr && *addr < *end {
            let name = letter(alloc, symbols.as_slice().len())?;
            push_behind(&mut symbols, *addr, *end, name)?;
            last = *end;
        }
    }
    Ok(symbols)
}
