//! The flow of time from functions to their callers.
//!
//! As in GNU gprof, the time of a callee, its own and that of those it calls in turn, goes to its callers in
//! proportion to their calls; calls inside a cycle carry none. Times are whole grains, of which a sample
//! has 1,000,000: the arcs that enter a component cut its time at the running sums of their calls, so that
//! no grain is lost. Source: the gprof manual, and Graham, Kessler and McKusick, "gprof: a call graph
//! execution profiler" (1982); the cuts are this project's own.
#![tactic(auto)]

pub mod flows;
pub mod laws;
pub mod solve;

pub use flows::Flow;
pub use solve::flow;
