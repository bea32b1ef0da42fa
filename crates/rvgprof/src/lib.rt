//! The program: its commands, its fault lines, and the one call that does all of it.
#![tactic(auto)]

mod annotation;
mod complaints;
mod demo;
mod end_line;
mod help;
pub mod laws;
mod lines;
mod profile;
mod report;
mod run;
mod show;
mod stacks;
mod sum;
mod syms;
pub mod top;

pub use courses::{Done, Fault, outcome};
pub use top::rvgprof;
