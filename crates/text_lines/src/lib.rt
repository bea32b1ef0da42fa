//! The lines that the commands print.
#![tactic(auto)]

mod line;
mod lines;
pub mod program;
pub mod records;

pub use program::show_image;
pub use records::{show_file, show_records};
