//! Tests of the small crates: numbers, fractions, columns and lines, hosts, and words; and a text that they are written
//! with.
#![tactic(auto)]

pub mod text;

pub use text::text_of;

#[cfg(test)]
mod tests;
