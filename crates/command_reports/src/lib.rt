//! Printing the reports of a profile for a command.
#![tactic(auto)]

pub mod findings;
pub mod report_text;

pub use findings::{Findings, findings_of};
pub use report_text::{print_reports, print_text};
