//! The records of a profile, as a gmon.out file has them.

use crate::items::{BlockList, Counts, RecList};

/// Addresses from `low` to below `high`.
#[derive(Clone, Copy, Debug, PartialEq, Eq)]
pub struct Span {
    pub low: u32,
    pub high: u32,
}

/// How often code at `from` called the function at `to`: an arc of 4.4BSD `gmon.h` (`struct rawarc`).
#[derive(Clone, Copy, Debug, PartialEq, Eq)]
pub struct RawArc {
    /// The address in the caller that the call came from: the call site.
    pub from: u32,
    /// The callee's address, which gmon.out calls self.
    pub to: u32,
    pub count: u32,
}

/// How often the basic block at `addr` was executed: a pair of GNU gmon.out's record of block counts.
#[derive(Clone, Copy, Debug, PartialEq, Eq)]
pub struct RawBlock {
    pub addr: u32,
    pub count: u32,
}

/// What one sample of a histogram stands for.
#[derive(Clone, Copy, Debug, PartialEq, Eq)]
pub struct Unit {
    /// Samples per unit of the dimension; in a file, 0 stands for 100.
    pub rate: u32,
    /// The dimension's name, as `seconds`, padded with zero bytes.
    pub dim: [u8; 15],
    /// The dimension's abbreviation, as `s`.
    pub abbrev: u8,
}

/// A histogram: `counters` share the addresses from `low` to below `high` evenly. In GNU gmon.out a record with
/// tag 0, in 4.4BSD's what the header and the counters say.
#[derive(Drop)]
pub struct RawHist {
    pub low: u32,
    pub high: u32,
    pub unit: Unit,
    pub counters: Counts,
}

/// A record of a profile file.
#[derive(Drop)]
pub enum Rec {
    Hist(RawHist),
    Arc(RawArc),
    Blocks(BlockList),
}

/// The two forms of gmon.out.
#[derive(Clone, Copy, Debug, PartialEq, Eq)]
pub enum Form {
    /// That of 4.4BSD `gmon.h`: a header, one histogram, arcs.
    Bsd,
    /// That of the GNU profiler, version 1: tagged records.
    Gnu,
}

/// What a profile file holds.
#[derive(Drop)]
pub struct Records {
    pub form: Form,
    pub recs: RecList,
}
