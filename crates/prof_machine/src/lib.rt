//! The machine that is profiled: harts that take turns on one memory under a budget of instructions,
//! with the hooks and the clock of the profiling runtime.
#![tactic(auto)]

mod ecalls;
mod flight;
pub mod laws;
mod layout;
mod machine;
pub mod notes;
pub mod runs;
pub mod schedule;
mod stages;
pub mod summary;

pub use notes::{Ran, TurnNote};
pub use runs::Run;
pub use schedule::PlanWalk;
pub use settings::{Plan, Setup};
pub use summary::{End, RunSummary, StartRefusal, Turned};
