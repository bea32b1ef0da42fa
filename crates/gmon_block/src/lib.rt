//! The block of the profiling runtime: one allocation, seen as three lists, and freed once.
#![tactic(auto)]

pub mod block;
pub mod entry;
mod raw;

pub use block::Block;
pub use entry::Tos;
