//! The 4.4BSD form of gmon.out: a header, one histogram, and arcs.
//!
//! Source: `gmon.h` of 4.4BSD (`struct gmonhdr`, `struct rawarc`), on a little-endian machine of 32 bits.
#![tactic(auto)]

pub mod file;
pub mod laws;
pub mod profile;
pub mod reader;
pub mod run_file;
pub mod views;

pub use file::{fault, read};
pub use gp_base::GmonRefusal;
pub use profile::run_profile;
pub use reader::Reader;
pub use run_file::write_run;
pub use views::RecordViews;
