//! The instructions of RV32I, M and Zifencei: from words, and to text.
#![tactic(auto)]

pub mod decoder;
mod fields;
mod forms;
pub mod instruction;
pub mod speller;
pub mod table;

pub use decoder::decode;
pub use instruction::{Instr, Op};
pub use speller::spell;
