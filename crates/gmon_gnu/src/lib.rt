//! The GNU form of gmon.out, version 1: a header, and tagged records, which are histograms, arcs and
//! counts of basic blocks.
//!
//! Source: `gmon_out.h` of GNU gprof and of glibc (`struct gmon_hdr`, `GMON_Record_Tag`), on a
//! little-endian machine of 32 bits.
#![tactic(auto)]

mod addition;
pub mod block_file;
pub mod faults;
pub mod file;
mod first_hists;
pub(crate) mod intake;
pub mod laws;
mod pieces;
mod profile;
pub mod profile_file;
pub mod reader;
pub(crate) mod records;
pub(crate) mod rounds;
pub mod run_file;
pub(crate) mod state;
pub mod views;

pub use block_file::write_blocks;
pub use faults::fault;
pub use file::read;
pub use gp_base::GmonRefusal;
pub use profile_file::write;
pub use reader::Reader;
pub use run_file::write_run;
pub use views::RecordViews;
