//! Reading the inputs of a command: a program's file, and profile files, which are added up.
#![tactic(auto)]

pub mod inputs;

pub use inputs::{read_profiles, read_program};
