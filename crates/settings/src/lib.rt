//! What words may ask for and layers carry out: what a run is to be, and which calls are cut.
#![tactic(auto)]

pub mod cut_words;
pub mod setup;

pub use cut_words::is_cut_word;
pub use setup::{Plan, Setup};
