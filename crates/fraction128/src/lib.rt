//! Exact fractions of two numbers of 128 bits.
//!
//! A fraction is always in lowest terms. A sum or a product that does not fit is refused, and nothing is rounded.
#![tactic(auto)]

pub mod arithmetic;
pub mod divisors;
pub mod fracs;
pub mod laws;
pub mod order;

pub use fracs::Frac;
