//! The words of the command line: what command they say, and with which options.
#![tactic(auto)]

mod items;
pub mod laws;
pub mod names;
mod numbers;
mod options;
pub mod places;
mod verbs;
pub mod words;

pub use names::Words;
pub use places::Places;
pub use words::{Command, Selection, Shown, read_command};
