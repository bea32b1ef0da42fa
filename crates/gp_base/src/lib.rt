//! The values that all parts of rvgprof speak of: records of a profile, lists, limits, and numbers
//! as little-endian bytes.
#![tactic(auto)]

pub mod bytes;
pub mod items;
pub mod limits;
pub mod quotients;
pub mod records;
pub mod refusal;

pub use bytes::{arc_text, half, le2, le4, word};
pub use items::{BlockList, Counts, Items, Name, RecList, Totals};
pub use quotients::quotient;
pub use records::{Form, RawArc, RawBlock, RawHist, Rec, Records, Span, Unit};
pub use refusal::GmonRefusal;
