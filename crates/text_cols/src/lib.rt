//! A line of text with columns and numbers, in fixed room.
#![tactic(auto)]

pub mod columns;

pub use columns::{Line, hex_digit};
