//! Static RV32 programs as ELF files: entry, segments, text, and the functions' symbols.
//!
//! The form of the file is that of the System V ABI, with the header flags of the RISC-V ELF ABI.
//! Which of its symbols are kept, and how far each of them reaches, is this project's own choice.
#![tactic(auto)]

mod header;
pub mod image;
mod kept;
pub mod laws;
mod names;
pub mod owners;
pub mod pages;
pub mod refusal;
mod sections;
mod segments;
mod symbols;

pub use image::{Image, Segment, SegmentList, Symbol, SymbolList, read};
pub use owners::{owner, symbol_count};
pub use refusal::ElfRefusal;
