//! What each command does: its course, which ends in what was done or in a fault; and where a command stands on it.
#![tactic(auto)]

pub mod outcome;
pub mod refusals;

pub use outcome::{Done, Fault};
