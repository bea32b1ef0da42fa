//! Functions with their samples and calls.

ghost use Rattle.std.specs.Prelude.{◌≡◌, IfOk};
ghost use Rattle.elf32_syms.specs.Owners.{IsAscending};

use crate::boxes::boxed;
use crate::functions::{Function, named_symbols, symbols_of};
use crate::rows::{Calls, new_profile, profile_of_calls};
use crate::samples::{even_profile, profile_of_samples};
use elf32_syms::SymbolList;
use gmon_data::{AddRefusal, Profile};
use std::alloc::{AllocError, Global};

/// Functions, and what was counted of them.
#[derive(Drop)]
pub struct Counted {
    pub symbols: SymbolList,
    pub samples: Box<Profile>,
    pub calls: Box<Profile>,
}

/// What was counted of functions, in a box.
pub fn counted_of(
    alloc: Global,
    symbols: SymbolList,
    samples: Box<Profile>,
    calls: Box<Profile>,
) -> Result<Box<Counted>, AllocError>
    ensures { IfOk result (λ counted. counted.value.symbols ≡ symbols) }
{
    boxed(
        alloc,
        Counted {
            symbols,
            samples,
            calls,
        },
    )
}

/// The samples of functions, as a profile.
fn samples_of(alloc: Global, functions: &[Function<'_>]) -> Result<Box<Profile>, AddRefusal> {
    let mut samples = Vec::new(alloc);
    for function in functions {
        samples.push(function.1)?;
    }
    profile_of_samples(alloc, samples.as_slice())
}

/// These functions, of 16 addresses each, and their calls.
pub fn counted_functions(
    alloc: Global,
    functions: &[Function<'_>],
    calls: &[Calls],
) -> Result<Box<Counted>, AddRefusal>
    ensures { IfOk result (λ counted. IsAscending counted.value.symbols) }
{
    let symbols = named_symbols(alloc, functions)?;
    let calls = profile_of_calls(alloc, calls)?;
    let samples = samples_of(alloc, functions)?;
    Ok(counted_of(alloc, symbols, samples, calls)?)
}

/// 65,536 functions without names, of 16 addresses and one sample each, and no calls.
pub fn large_program(alloc: Global) -> Result<Box<Counted>, AddRefusal>
    ensures { IfOk result (λ counted. IsAscending counted.value.symbols) }
{
    let symbols = symbols_of(alloc, 65_536, 16)?;
    let samples = even_profile(alloc, 65_536, 16)?;
    let calls = new_profile(alloc)?;
    Ok(counted_of(alloc, symbols, samples, calls)?)
}
