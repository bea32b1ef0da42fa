//! A tree of calls: a node for each stack that was entered, with the number of samples that have it.

ghost use Rattle.std.proofs.Props.{props};
ghost use Rattle.folded.specs.NodeStacks.{AreNodes};

use crate::links::Links;

/// Nodes with their numbers of samples. A node is that of its caller, by number, with a function; None where no
/// function has the call. Numbers count from 1 on, a caller's first, and 0 is that of the empty stack.
#[derive(Drop)]
pub(crate) struct Tree {
    pub(crate) nodes: Vec<(u32, Option<u32>)>,
    pub(crate) links: Vec<Links>,
    pub(crate) counts: Vec<u64>,
    pub(crate) total: u64,
    pub(crate) functions: u32,
    pub(crate) last: usize,
    ghost is_tree: { AreNodes nodes.items counts.items total functions } by { Prim.hlevel props },
}
