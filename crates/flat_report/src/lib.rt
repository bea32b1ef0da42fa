//! The flat profile: how much of the time each function of a program took itself, and in its calls.
//!
//! Its columns are those of GNU gprof. How they are laid out is this project's own choice.
#![tactic(auto)]

mod calls;
pub mod hidden;
pub mod laws;
pub mod line;
pub mod refusal;
pub mod report;
mod rows;
pub mod sources;

pub use refusal::ReportRefusal;
pub use report::write;
pub use sources::Sources;
