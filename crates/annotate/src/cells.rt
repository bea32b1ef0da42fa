//! The cells of a symbol: the parts of its range cut at the multiples of 4.

ghost use Rattle.std.specs.Prelude.{◌≡◌, ◌+◌, ◌/◌, ◌<◌, ◌≤◌};
ghost use Rattle.annotate.specs.Cells.{part_in, word_count};

use elf32_syms::Symbol;
use gp_base::Span;

/// The number of cells.
pub(crate) fn cell_count(symbol: &Symbol) -> u32
    requires { symbol.now.addr < symbol.now.end }
    ensures { result ≡ word_count symbol.now }
{
    (symbol.end - 1) / 4 + 1 - symbol.addr / 4
}

/// The cell with the given number: what the symbol has of one word.
pub(crate) fn cell(symbol: &Symbol, k: u32) -> Span
    requires some { symbol.now.addr < symbol.now.end }
    requires inside { k < word_count symbol.now }
    ensures part { result ≡ part_in symbol.now (symbol.now.addr / 4 + k) }
    ensures order { result.low ≤ result.high }
{
    let end = symbol.end;
    let low = symbol.addr.max(4 * (symbol.addr / 4 + k));
    Span {
        low,
        high: low + (end - low).min(4 - low % 4),
    }
}
