//! Calls that are left out of a profile by choice, after the option `-k` of GNU gprof.
#![tactic(auto)]

pub mod cuts;
pub mod laws;
mod marks;
mod words;

pub use cuts::cut;
pub use settings::is_cut_word;
