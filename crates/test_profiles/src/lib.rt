//! Functions, and profiles of their samples and calls, as tests write them down.
//!
//! Functions stand in a row from 0x1_0000 on, and have numbers in this order.
#![tactic(auto)]

pub mod boxes;
pub mod counted;
pub mod functions;
pub mod rings;
pub mod rows;
pub mod same;
pub mod samples;
pub mod words;

pub use boxes::boxed;
pub use counted::{Counted, counted_functions, counted_of, large_program};
pub use functions::{
    Function, hex4, name_of, named_symbols, push_symbol, symbols_at, symbols_in_reverse, symbols_of,
};
pub use rings::ring_of_calls;
pub use rows::{
    Calls, Rows, calls_of_first, new_profile, profile_of_arcs, profile_of_calls, profile_of_rows,
};
pub use same::are_same;
pub use samples::{Counters, PER_100, even_profile, hist_of, profile_of_samples, seconds};
pub use words::strings_of;

#[cfg(test)]
mod tests;
