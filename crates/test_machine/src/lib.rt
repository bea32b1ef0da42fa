//! Tests of one hart and of the profiled machine: instructions and their steps, the block and the arcs of
//! the profiling runtime, runs, and the stacks of their samples.
#![tactic(auto)]

pub mod boxes;
pub mod setups;

pub use boxes::boxed;
pub use setups::{ROUND, setup_of};

#[cfg(test)]
mod tests;
