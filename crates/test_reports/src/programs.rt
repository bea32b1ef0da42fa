//! Graphs of functions with their shares, as tests write them down.

ghost use Rattle.std.specs.Prelude.{◌≡◌, ◌<◌, ◌^◌, IfOk, length};
ghost use Rattle.elf32_syms.specs.Owners.{IsAscending};
ghost use Rattle.call_cycles.specs.Graph.{all_calls};

use call_cycles::{Graph, graph};
use elf32_syms::Symbol;
use gmon_data::{AddRefusal, Profile};
use std::alloc::{AllocError, Global};
use symbol_shares::{Shares, shares};
use test_profiles::{Calls, boxed, profile_of_calls, profile_of_samples, symbols_of};

/// A graph of functions, and their shares.
#[derive(Drop)]
pub struct Program {
    pub graph: Box<Graph>,
    pub shares: Box<Shares>,
}

/// The graph of these functions, in a box.
fn graph_of(alloc: Global, calls: &Profile, symbols: &[Symbol]) -> Result<Box<Graph>, AllocError>
    requires { IsAscending symbols.now }
    ensures functions { IfOk result (λ g. g.value.functions ≡ length symbols.now) }
    ensures few { IfOk result (λ g. all_calls g.value < 2 ^ 59) }
{
    boxed(alloc, graph(alloc, calls, symbols)?)
}

/// The shares of these functions, in a box.
fn shares_of(
    alloc: Global,
    samples: &Profile,
    symbols: &[Symbol],
) -> Result<Box<Shares>, AllocError>
    requires { IsAscending symbols.now }
    ensures { IfOk result (λ s. length s.value.of ≡ length symbols.now) }
{
    boxed(alloc, shares(alloc, samples, symbols)?)
}

/// The program of these functions, with these samples and calls.
pub fn profiled_program(
    alloc: Global,
    symbols: &[Symbol],
    samples: &Profile,
    calls: &Profile,
) -> Result<Box<Program>, AllocError>
    requires { IsAscending symbols.now }
    ensures functions { IfOk result (λ p. p.value.graph.value.functions ≡ length symbols.now) }
    ensures each { IfOk result (λ p. length p.value.shares.value.of ≡ length symbols.now) }
    ensures few { IfOk result (λ p. all_calls p.value.graph.value < 2 ^ 59) }
{
    let graph = graph_of(alloc, calls, symbols)?;
    let shares = shares_of(alloc, samples, symbols)?;
    boxed(alloc, Program { graph, shares })
}

/// The program of functions with these samples and calls.
pub fn program_of(
    alloc: Global,
    samples: &[u64],
    calls: &[Calls],
) -> Result<Box<Program>, AddRefusal>
    ensures each { IfOk result (λ p. length p.value.shares.value.of ≡ p.value.graph.value.functions) }
    ensures few { IfOk result (λ p. all_calls p.value.graph.value < 2 ^ 59) }
{
    let symbols = symbols_of(alloc, samples.len().min(65_536) as u32, 16)?;
    let samples = profile_of_samples(alloc, samples)?;
    let calls = profile_of_calls(alloc, calls)?;
    Ok(profiled_program(alloc, symbols.as_slice(), &samples, &calls)?)
}

/// The calls of functions, so many of which call the next one twice each.
fn calls_in_a_chain(alloc: Global, callers: u16) -> Result<Vec<Calls>, AllocError> {
    let mut calls = Vec::new(alloc);
    for f in 0..callers {
        calls.push((f, f + 1, 2))?;
    }
    Ok(calls)
}

/// A chain of functions, so many of which call the next one twice each; the last has 3 samples.
pub fn chain_of(alloc: Global, callers: u16) -> Result<Box<Program>, AddRefusal>
    ensures each { IfOk result (λ p. length p.value.shares.value.of ≡ p.value.graph.value.functions) }
    ensures few { IfOk result (λ p. all_calls p.value.graph.value < 2 ^ 59) }
{
    let calls = calls_in_a_chain(alloc, callers)?;
    let mut samples = vec![in alloc; 0u64; usize::from(callers)]?;
    samples.push(3)?;
    program_of(alloc, samples.as_slice(), calls.as_slice())
}
