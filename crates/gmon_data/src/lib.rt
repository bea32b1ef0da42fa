//! A profile: the sum of what was counted, whatever files it came from.
#![tactic(auto)]

mod arcs;
mod chunks;
pub mod hist;
mod hists;
mod keyed;
pub mod laws;
pub mod profile;
pub mod refusal;
mod tally;

pub use hist::{Hist, HistRange};
pub use hists::unlike;
pub use profile::Profile;
pub use refusal::{AddRefusal, ReadRefusal, Unlike};
