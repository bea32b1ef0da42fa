//! Files of programs, as tests write them down, and tests of what is read of such a file and of the demo's program.
#![tactic(auto)]

pub mod files;

pub use files::{Entry, FUNCTION, elf, elf_of, function, len_of, push_words};

#[cfg(test)]
mod tests;
