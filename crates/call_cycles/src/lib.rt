//! The function graph of a profile: calls by function, cycles of functions, and the order in which
//! times flow from callees to callers.
//!
//! The terms are those of the gprof manual, and of Graham, Kessler and McKusick, "gprof: a call graph
//! execution profiler" (1982). Which function is the head of a cycle, and the order of components, is
//! this project's own choice.
#![tactic(auto)]

mod build;
mod calls;
mod depth;
pub mod graphs;
pub mod laws;
mod level;
mod number;
mod order;

pub use build::graph;
pub use graphs::{FunArc, Graph};
