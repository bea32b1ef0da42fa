//! Profile files of both forms: which form a file is of, told by its first four bytes, reading it in pieces,
//! and that the file of a run is read as the run.
#![tactic(auto)]

pub mod file_reader;
pub mod forms;
pub mod laws;
pub mod views;

pub use file_reader::{FileReader, read_pieces};
pub use forms::{fault, form_of};
pub use views::RecordViews;
