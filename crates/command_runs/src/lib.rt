//! Runs of programs by a command, and the files that they leave.
#![tactic(auto)]

pub mod files;
pub mod folds;
pub mod runs;

pub use files::write_file;
pub use folds::fold_program;
pub use runs::{RunOutputs, run_alone, run_program};
