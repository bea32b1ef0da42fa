//! The flow of time in exact fractions.
//!
//! The time of a callee goes to its callers in proportion to their calls, as in `propagate`, and nothing is
//! rounded: all times but those of functions themselves are fractions of a grain. A fraction that does not fit
//! into 128 bits is refused.
#![tactic(auto)]

pub mod flows;
pub mod laws;
pub mod refusal;
pub mod solve;
pub mod step;
pub mod tables;

pub use flows::ExactFlow;
pub use refusal::ExactRefusal;
pub use solve::exact;
