ghost use Rattle.std.specs.Prelude.{◌≡◌, ◌<◌, ◌≤◌, true, IfOk, length, string_bytes};
ghost use Rattle.std.specs.List.{All};
ghost use Rattle.elf32_syms.specs.Owners.{IsAscending};
ghost use Rattle.settings.specs.CutWords.{is_cut_word as spec};

use super::looks::{expect_text, totals_of};
use crate::{
    PER_100, Rows, boxed, name_of, profile_of_calls, profile_of_rows, push_symbol, ring_of_calls,
};
use arc_filter::{cut, is_cut_word};
use elf32_syms::{Symbol, SymbolList};
use gmon_data::{AddRefusal, Profile};
use std::alloc::{AllocError, Global};
use std::process::Abort;
use std::test::Fail;

/// So many functions of 16 addresses each. They have these names in turn.
fn symbols(alloc: Global, count: u32, names: &[&str]) -> Result<SymbolList, AllocError>
    requires count { count ≤ 65536 }
    requires names { 0 < length names.now }
    ensures { IfOk result IsAscending }
{
    let mut symbols = SymbolList::new(alloc);
    for i in 0..count {
        push_symbol(
            &mut symbols,
            i,
            name_of(alloc, names[i as usize % names.len()])?,
        )?;
    }
    Ok(symbols)
}

/// A word that has the form of a cut.
fn cut_word(alloc: Global, word: &str) -> Result<String, AllocError>
    ensures { IfOk result (λ s. spec (string_bytes s) ≡ true) }
{
    if !is_cut_word(word) {
        return Err(AllocError);
    }
    let cut = String::from_str(alloc, word)?;
    Ok(cut)
}

/// Words that have the form of a cut.
fn cuts_of(alloc: Global, words: &[&str]) -> Result<Vec<String>, AllocError>
    ensures { IfOk result (λ v. All (λ word. spec (string_bytes word) ≡ true) v.items) }
{
    let mut cuts = Vec::new(alloc);
    for word in words {
        cuts.push(cut_word(alloc, word)?)?;
    }
    Ok(cuts)
}

/// Call site, callee and count of each arc.
fn arcs_text(alloc: Global, profile: &Profile) -> Result<String, AllocError> {
    let mut text = String::new(alloc);
    for i in 0..profile.arc_count() {
        let (from, to, count) = profile.arc(i);
        write!(&mut text, "{from:x}>{to:x}:{count} ")?;
    }
    Ok(text)
}

/// Words, and whether they have the form of a cut.
const WORDS: &[(&'static str, bool)] = &[
    ("b/a", true),
    ("main/_start", true),
    ("a/b/c", true),
    ("a//", true),
    ("ba", false),
    ("/a", false),
    ("b/", false),
    ("//a", false),
    ("/", false),
    ("", false),
];

#[test]
fn words_of_the_form(rt: HostRuntime) {
    for (word, want) in WORDS {
        assert_eq!(rt; is_cut_word(word), *want, "{word}");
    }
}

/// `main` calls `a`; `a` calls `b`; `b` calls `a` and itself; the second `a` calls `b`, too.
const CALLS: [(u16, u16, u64); 5] = [(0, 1, 1), (1, 2, 5), (2, 1, 4), (2, 2, 2), (3, 2, 9)];

const NAMES: [&str; 4] = ["main", "a", "b", "a"];

/// What a row shows, words, and the arcs that stay.
type Row = (&'static str, &'static [&'static str], &'static str);

const ALL: &str = "10004>10010:1 10014>10020:5 10024>10010:4 10024>10020:2 10034>10020:9 ";

const ROWS: &[Row] = &[
    ("no words", &[], ALL),
    (
        "one pair",
        &["b/a"],
        "10004>10010:1 10014>10020:5 10024>10020:2 10034>10020:9 ",
    ),
    (
        "all functions of a name",
        &["a/b"],
        "10004>10010:1 10024>10010:4 10024>10020:2 ",
    ),
    (
        "calls of a function by itself",
        &["b/b"],
        "10004>10010:1 10014>10020:5 10024>10010:4 10034>10020:9 ",
    ),
    (
        "each of the words",
        &["b/a", "main/a", "a/b"],
        "10024>10020:2 ",
    ),
    (
        "a word twice",
        &["main/a", "main/a"],
        "10014>10020:5 10024>10010:4 10024>10020:2 10034>10020:9 ",
    ),
    (
        "names that no symbol has",
        &["c/a", "b/c", "mai/a", "main/aa"],
        ALL,
    ),
    (
        "a name with a slash behind the first one",
        &["b/a/b", "b/b/"],
        ALL,
    ),
];

/// A profile without the calls that words cut.
fn cut_by(
    alloc: Global,
    symbols: &[Symbol],
    whole: &Profile,
    words: &[&str],
) -> Result<Box<Profile>, AllocError>
    requires { IsAscending symbols.now }
{
    let cuts = cuts_of(alloc, words)?;
    boxed(alloc, cut(alloc, whole, symbols, cuts.as_slice())?)
}

/// The arcs that stay of a row.
fn left_text(
    alloc: Global,
    symbols: &[Symbol],
    whole: &Profile,
    words: &[&str],
) -> Result<String, AllocError>
    requires { IsAscending symbols.now }
{
    let left = cut_by(alloc, symbols, whole, words)?;
    arcs_text(alloc, &left)
}

/// The arcs of a row stay.
fn expect_row(
    rt: &impl Abort,
    alloc: Global,
    symbols: &[Symbol],
    whole: &Profile,
    row: &Row,
) -> Result<(), AllocError>
    requires { IsAscending symbols.now }
{
    let (message, words, want) = row;
    let text = left_text(alloc, symbols, whole, words)?;
    expect_text(rt, text.as_str(), want, message);
    Ok(())
}

/// The rows have their arcs.
fn expect_rows(rt: &impl Abort, alloc: Global, symbols: &[Symbol]) -> Result<(), AllocError>
    requires { IsAscending symbols.now }
{
    let whole = profile_of_calls(alloc, &CALLS)?;
    for row in ROWS {
        expect_row(rt, alloc, symbols, &whole, row)?;
    }
    Ok(())
}

#[test]
fn arcs_that_stay(rt: HostRuntime) -> Result<(), Fail> {
    let symbols = symbols(rt.alloc(), 4, &NAMES)?;
    expect_rows(&rt, rt.alloc(), symbols.as_slice())?;
    Ok(())
}

/// Samples, calls by `main` of `a`, and executions.
const SOME: Rows<'static> = Rows {
    hists: &[(0x1_0000, 0x1_0040, 3)],
    unit: PER_100,
    arcs: &[(0x1_0004, 0x1_0010, 7)],
    blocks: &[(0x1_0010, 5)],
};

fn expect_calls_gone(rt: &impl Abort, left: &Profile, whole: &Profile) {
    let told = (totals_of(left), left.arc_count(), whole.calls());
    assert_eq!(rt; (told, left.unit()), (((3, 0, 5), 0, 7), whole.unit()));
}

/// The calls by `main` of `a` are cut from some of each.
fn calls_are_cut(rt: &impl Abort, alloc: Global, symbols: &[Symbol]) -> Result<(), AddRefusal>
    requires { IsAscending symbols.now }
{
    let whole = profile_of_rows(alloc, SOME)?;
    let left = cut_by(alloc, symbols, &whole, &["main/a"])?;
    expect_calls_gone(rt, &left, &whole);
    Ok(())
}

#[test]
fn samples_and_executions_stay(rt: HostRuntime) -> Result<(), Fail> {
    let symbols = symbols(rt.alloc(), 4, &NAMES)?;
    calls_are_cut(&rt, rt.alloc(), symbols.as_slice())?;
    Ok(())
}

const SIXTEEN_NAMES: [&str; 16] = [
    "f0", "f1", "f2", "f3", "f4", "f5", "f6", "f7", "f8", "f9", "fa", "fb", "fc", "fd", "fe", "ff",
];

const SIXTEEN_WORDS: [&str; 16] = [
    "f0/f1", "f1/f2", "f2/f3", "f3/f4", "f4/f5", "f5/f6", "f6/f7", "f7/f8", "f8/f9", "f9/fa",
    "fa/fb", "fb/fc", "fc/fd", "fd/fe", "fe/ff", "ff/ff",
];

fn expect_fewer(rt: &impl Abort, left: &Profile) {
    let fewer = 2_097_152 - 16 * 8_192;
    assert_eq!(rt; (left.arc_count() as u64, left.calls()), (fewer, fewer));
}

/// Each of sixteen words cuts two calls of every sixteenth function.
fn ring_is_cut(rt: &impl Abort, alloc: Global, symbols: &[Symbol]) -> Result<(), AllocError>
    requires { IsAscending symbols.now }
{
    let whole = ring_of_calls(alloc, 16, false)?;
    let left = cut_by(alloc, symbols, &whole, &SIXTEEN_WORDS)?;
    expect_fewer(rt, &left);
    Ok(())
}

#[test]
fn sixteen_cuts_in_two_million_arcs(rt: HostRuntime) -> Result<(), Fail> {
    let symbols = symbols(rt.alloc(), 65_536, &SIXTEEN_NAMES)?;
    ring_is_cut(&rt, rt.alloc(), symbols.as_slice())?;
    Ok(())
}
