//! The demo program: an ELF file of any number of functions that call one another.
//!
//! It needs no file and no compiler: what `rvgprof demo` runs is made here.
#![tactic(auto)]

mod code;
pub mod demo;
mod elf;

pub use demo::program;
