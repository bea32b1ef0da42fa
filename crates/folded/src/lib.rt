//! The call stacks that a run is sampled in, with the number of samples of each.
#![tactic(auto)]

pub mod folded_run;
pub mod laws;
mod links;
mod nodes;
mod order;
mod path;
mod place;
mod prefix;
pub mod refusal;
mod shadow;
pub mod tally;
mod tracker;
mod tree;
pub mod writer;

pub use folded_run::fold;
pub use refusal::FoldRefusal;
pub use tally::Folded;
pub use writer::write;
