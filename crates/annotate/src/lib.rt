//! The annotated listing: each instruction of a program, with how often it was executed and the time
//! that it took.
#![tactic(auto)]

mod cells;
pub mod laws;
mod line;
mod loaded;
pub mod report;

pub use report::write;
