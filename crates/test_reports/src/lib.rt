//! Programs whose time flows, and tests of that flow, of the exact times, of the reports and of the listing.
#![tactic(auto)]

pub mod programs;

pub use programs::{Program, chain_of, profiled_program, program_of};

#[cfg(test)]
mod tests;
