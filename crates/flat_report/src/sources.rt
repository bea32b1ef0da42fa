//! What a report is made from.

use call_cycles::Graph;
use elf32_syms::Symbol;
use propagate::Flow;
use symbol_shares::Shares;

/// A program's functions, their calls and their times.
#[derive(Clone, Copy)]
pub struct Sources<'a> {
    pub symbols: &'a [Symbol],
    pub graph: &'a Graph,
    pub flow: &'a Flow,
    pub shares: &'a Shares,
    /// Samples per second.
    pub rate: u32,
}
