//! The call graph: who called whom, and how much time went from callees to callers.
//!
//! Its entries and lines are those of GNU gprof: a function with its callers above it and its callees
//! below, and each cycle as a whole. How they are laid out is this project's own choice.
#![tactic(auto)]

mod arc_ends;
mod arc_key;
mod columns;
mod cycles;
mod entries;
mod entry_lines;
mod exact_line;
pub mod exact_report;
mod fields;
mod groups;
mod inputs;
mod labels;
pub mod laws;
mod line_ends;
mod numbers;
mod prepared;
pub mod report;
mod rows;
mod subjects;
mod tables;

pub use exact_report::write_exact;
pub use flat_report::ReportRefusal;
pub use report::write;
