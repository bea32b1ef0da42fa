//! How the samples of a profile are shared among the functions of a program.
//!
//! A counter of a histogram has the samples of a range of addresses, its bucket. As in GNU gprof,
//! each function gets the part of a bucket that it overlaps. Parts are counted in grains, of which
//! a sample has 1,000,000, and a function gets the grains up to its end less those up to its begin,
//! each rounded down. So each grain goes to one place; this rounding is the project's own.
#![tactic(auto)]

mod bucket;
pub mod laws;
pub mod ranges;
pub mod table;
pub mod walk;

pub use ranges::range_grains;
pub use table::Shares;
pub use walk::shares;
