//! The sum of two profiles.
#![tactic(auto)]

pub mod addition;
pub mod laws;
pub mod refusal;

pub use addition::{add_all, add_into};
pub use refusal::SumRefusal;
