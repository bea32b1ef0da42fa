//! The code and the symbols of the demo program.

ghost use Rattle.std.specs.Prelude.{◌≡◌, ◌+◌, ◌^◌, ◌<◌, ◌≤◌, ◌++◌, length, map, IfOk, OnOk};
ghost use Rattle.demo_elf.specs.Code as spec;
ghost use Rattle.demo_elf.specs.Symbols.{symbol_of, IsSmall, AreSmall};

use std::alloc::{AllocError, Global};

/// addi x0, x0, 0
const NOP: u32 = 0x0000_0013;
/// Where function 0 begins in the text.
const FIRST: u32 = 64;
/// The bytes of a function.
const SIZE: u32 = 256;
/// Where `_mcount` begins in the text.
const MCOUNT: u32 = 32;

/// A symbol of the text.
#[derive(Drop)]
pub(crate) struct DemoSymbol {
    pub name: String,
    /// From the begin of the text on.
    pub offset: u32,
}

/// `jal x1` from an offset in the text to another.
#[tactic(auto, unfolding(crate::specs::Code::call_word))]
fn call_word(from: u32, to: u32) -> u32
    requires from { from < 2 ^ 20 }
    requires to { to < 2 ^ 20 }
    ensures { result ≡ spec.call_word from to }
{
    let distance = (to + 0x20_0000 - from) % 0x20_0000;
    let sign = distance / 0x10_0000 * 0x8000_0000;
    let low = distance / 2 % 0x400 * 0x20_0000;
    let middle = distance / 0x800 % 2 * 0x10_0000;
    let high = distance / 0x1000 % 0x100 * 0x1000;
    sign + low + middle + high + 0x0000_00EF
}

/// Where function `i` begins in the text.
fn function_at(i: u32) -> u32
    requires { i ≤ 4000 }
    ensures { result ≡ spec.function_at i }
{
    FIRST + SIZE * i
}

/// A call of function `j`, where it is wanted.
fn slot(from: u32, j: u32, wanted: bool) -> u32
    requires from { from < 2 ^ 20 }
    requires callee { j ≤ 4000 }
    ensures { result ≡ spec.slot from j wanted }
{
    if wanted {
        call_word(from, function_at(j))
    } else {
        NOP
    }
}

/// Adds the words of `_start` and of `_mcount`.
#[tactic(auto, unfolding(crate::specs::Code::start_words, crate::specs::Code::mcount_words))]
fn put_start(words: &mut Vec<u32>) -> Result<(), AllocError>
    ensures words { OnOk result (words.new.items ≡ words.old.items
        ++ (spec.start_words ++ spec.mcount_words)) }
    ensures len { OnOk result (length words.new.items ≡ length words.old.items + 16) }
{
    words.extend_from_slice(&[
        0x0640_0413,
        call_word(4, FIRST),
        0xFFF4_0413,
        0xFE04_1CE3,
        0x0000_0513,
        0x05D0_0893,
        0x0000_0073,
        NOP,
        0x0000_8067,
        NOP,
        NOP,
        NOP,
        NOP,
        NOP,
        NOP,
        NOP,
    ])
}

/// What function `i` of `n` begins with, up to its return.
#[tactic(auto, unfolding(crate::specs::Code::function_words))]
fn function_begin(n: u32, i: u32) -> [u32; 13]
    requires few { n ≤ 2000 }
    requires within { i < n }
    ensures { result ++ spec.nops 51 ≡ spec.function_words n i }
{
    let at = function_at(i);
    [
        0xFF01_0113,
        0x0011_2623,
        0x0000_8513,
        call_word(at + 12, MCOUNT),
        10 * (i % 7 + 1) * 0x10_0000 + 0x0000_0293,
        0xFFF2_8293,
        0xFE02_9EE3,
        slot(at + 28, 2 * i + 1, 2 * i + 1 < n),
        slot(at + 32, 2 * i + 2, 2 * i + 2 < n),
        slot(at + 36, n - 1, i < n - 1),
        0x00C1_2083,
        0x0101_0113,
        0x0000_8067,
    ]
}

/// Adds the words of function `i` of `n`, which are 64.
fn put_function(words: &mut Vec<u32>, n: u32, i: u32) -> Result<(), AllocError>
    requires few { n ≤ 2000 }
    requires within { i < n }
    ensures words { OnOk result (words.new.items ≡ words.old.items ++ spec.function_words n i) }
    ensures len { OnOk result (length words.new.items ≡ length words.old.items + 64) }
{
    words.extend_from_slice(&function_begin(n, i))?;
    words.extend_from_slice(&[NOP; 51])
}

/// The words of `n` functions, behind those of `_start` and of `_mcount`.
pub(crate) fn demo_words(alloc: Global, n: u32) -> Result<Vec<u32>, AllocError>
    requires { n ≤ 2000 }
    ensures words { IfOk result (λ v. v.items ≡ spec.demo_words n) }
    ensures few { IfOk result (λ v. length v.items ≤ 128016) }
{
    let mut words = Vec::new(alloc);
    put_start(&mut words)?;
    for i in 0..n {
        put_function(&mut words, n, i)?;
    }
    Ok(words)
}

/// A symbol with a name of its own.
fn symbol(alloc: Global, name: &str, offset: u32) -> Result<DemoSymbol, AllocError>
    requires short { length name.now ≤ 15 }
    requires low { offset < 2 ^ 30 }
    ensures symbol { IfOk result (λ s. symbol_of s ≡ (name.now, offset)) }
    ensures small { IfOk result IsSmall }
{
    let name = String::from_str(alloc, name)?;
    Ok(DemoSymbol { name, offset })
}

/// The symbol of function `i`.
#[tactic(auto, unfolding(crate::specs::Code::function_symbol))]
fn function_symbol(alloc: Global, i: u32) -> Result<DemoSymbol, AllocError>
    requires { i ≤ 2000 }
    ensures symbol { IfOk result (λ s. symbol_of s ≡ spec.function_symbol i) }
    ensures small { IfOk result IsSmall }
{
    let name = format!(in alloc; "f{i}")?;
    Ok(DemoSymbol {
        name,
        offset: function_at(i),
    })
}

/// The symbols of `n` functions, behind `_start` and `_mcount`.
pub(crate) fn demo_symbols(alloc: Global, n: u32) -> Result<Vec<DemoSymbol>, AllocError>
    requires { n ≤ 2000 }
    ensures symbols { IfOk result (λ v. map symbol_of v.items ≡ spec.demo_symbols n) }
    ensures small { IfOk result (λ v. AreSmall v.items) }
{
    let mut symbols = Vec::new(alloc);
    symbols.push(symbol(alloc, "_start", 0)?)?;
    symbols.push(symbol(alloc, "_mcount", MCOUNT)?)?;
    for i in 0..n {
        symbols.push(function_symbol(alloc, i)?)?;
    }
    Ok(symbols)
}
