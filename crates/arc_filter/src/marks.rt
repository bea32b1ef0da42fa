//! Which functions the words of cuts name. Names are compared here alone, once for each function and word.

ghost use Rattle.std.specs.Prelude.{◌≡◌, ◌<◌, true, ℕ, List, IfOk, length, map, string_bytes};
ghost use Rattle.std.specs.List.{All};
ghost use Rattle.elf32_syms.specs.Owners.{IsAscending};
ghost use Rattle.settings.specs.CutWords.{is_cut_word};
ghost use Rattle.arc_filter.specs.Cuts.{is_cut as spec};
ghost use Rattle.arc_filter.specs.Marks.{AreMarks, AreOf, callers_marked, is_caller_marked, is_marked, name_marks, sides_named, sides_of};

use crate::words::sides;
use elf32_syms::pages::OwnerPages;
use elf32_syms::{Symbol, symbol_count};
use std::alloc::{AllocError, Global};

/// Of each function, whether a word has its name on either side.
#[derive(Drop)]
pub(crate) struct Marks {
    pub from: Vec<bool>,
    pub to: Vec<bool>,
}

/// Of each symbol, whether it has the name.
fn marks_of_name(alloc: Global, symbols: &[Symbol], name: &str) -> Result<Vec<bool>, AllocError>
    ensures { IfOk result (λ v. v.items ≡ name_marks symbols.now name.now) }
{
    let mut marks = Vec::new(alloc);
    for symbol in symbols {
        marks.push(symbol.name.as_slice() == name.as_bytes())?;
    }
    Ok(marks)
}

/// The marks of one word.
fn marks_of_word(alloc: Global, symbols: &[Symbol], word: &str) -> Result<Marks, AllocError>
    requires { is_cut_word word.now ≡ true }
    ensures { IfOk result (λ m. sides_of m ≡ sides_named symbols.now word.now) }
{
    let (from, to) = sides(word);
    Ok(Marks {
        from: marks_of_name(alloc, symbols, from)?,
        to: marks_of_name(alloc, symbols, to)?,
    })
}

/// The marks of each word.
fn marks_of(alloc: Global, symbols: &[Symbol], cuts: &[String]) -> Result<Vec<Marks>, AllocError>
    requires { All (λ word. is_cut_word (string_bytes word) ≡ true) cuts.now }
    ensures { IfOk result (λ v. AreMarks symbols.now (map string_bytes cuts.now) v.items) }
{
    let mut marks = Vec::new(alloc);
    for word in cuts {
        marks.push(marks_of_word(alloc, symbols, word.as_str())?)?;
    }
    Ok(marks)
}

/// Whether some word names the caller before its slash.
fn is_caller(marks: &[Marks], functions: usize, caller: u32) -> bool
    requires marks { AreOf functions marks.now }
    requires caller { caller < functions }
    ensures { result ≡ is_caller_marked marks.now caller }
{
    for sides in marks {
        if sides.from[caller as usize] {
            return true;
        }
    }
    false
}

/// Of each function, whether some word names it before its slash.
fn callers_of(alloc: Global, functions: u32, marks: &[Marks]) -> Result<Vec<bool>, AllocError>
    requires { AreOf functions marks.now }
    ensures { IfOk result (λ v. v.items ≡ callers_marked functions marks.now) }
{
    let mut callers = Vec::new(alloc);
    for f in 0..functions {
        callers.push(is_caller(marks, functions as usize, f))?;
    }
    Ok(callers)
}

/// Whether one word names both functions, the caller before its slash and the callee behind it.
fn is_pair_cut(marks: &[Marks], functions: usize, caller: u32, callee: u32) -> bool
    requires marks { AreOf functions marks.now }
    requires caller { caller < functions }
    requires callee { callee < functions }
    ensures { result ≡ is_marked marks.now caller callee }
{
    for mark in marks {
        if mark.from[caller as usize] && mark.to[callee as usize] {
            return true;
        }
    }
    false
}

/// What tells the calls that are cut.
#[derive(Drop)]
pub(crate) struct CutTable {
    pub pages: OwnerPages,
    pub marks: Vec<Marks>,
    /// Of each function, whether some word names it before its slash.
    pub callers: Vec<bool>,
}

/// What tells the calls that these words cut.
pub(crate) fn table_of(
    alloc: Global,
    symbols: &[Symbol],
    words: &[String],
) -> Result<CutTable, AllocError>
    requires ordered { IsAscending symbols.now }
    requires words { All (λ word. is_cut_word (string_bytes word) ≡ true) words.now }
    ensures marks { IfOk result (λ t. AreMarks symbols.now
        (map string_bytes words.now) t.marks.items) }
    ensures callers { IfOk result (λ t. t.callers.items
        ≡ callers_marked (length symbols.now) t.marks.items) }
{
    let marks = marks_of(alloc, symbols, words)?;
    let callers = callers_of(alloc, symbol_count(symbols), &marks)?;
    Ok(CutTable {
        pages: OwnerPages::new(alloc, symbols)?,
        marks,
        callers,
    })
}

/// Whether calls from one address to another are cut. The callee is looked for only where some word names the caller.
pub(crate) fn is_cut(symbols: &[Symbol], cuts: &CutTable, from: u32, to: u32) -> bool
    requires ordered { IsAscending symbols.now }
    requires marks { AreOf (length symbols.now) cuts.now.marks.items }
    requires callers { cuts.now.callers.items ≡ callers_marked
        (length symbols.now) cuts.now.marks.items }
    ensures { (words : List (List ℕ)) → AreMarks symbols.now words cuts.now.marks.items
        → result ≡ spec symbols.now words from to }
{
    let Some(caller) = cuts.pages.owner(symbols, from) else {
        return false;
    };
    let is_named = cuts.callers[caller as usize];
    if !is_named {
        return false;
    }
    let Some(callee) = cuts.pages.owner(symbols, to) else {
        return false;
    };
    is_pair_cut(&cuts.marks, symbols.len(), caller, callee)
}
