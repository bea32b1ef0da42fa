//! What a reader has read of a file that comes in pieces.

use gmon_cells::{Column, Remnant};
use gp_base::{GmonRefusal, RawArc, RawBlock, Unit};

/// The fields of a histogram before its counters.
#[derive(Clone, Copy)]
pub(crate) struct HistFields {
    pub(crate) low: u32,
    pub(crate) high: u32,
    pub(crate) unit: Unit,
}

/// A histogram by the number of its fields and its span of the counters, or counts of blocks by their span of
/// the pairs.
#[derive(Clone, Copy)]
pub(crate) enum Body {
    Hist { fields: u32, start: u32, end: u32 },
    Blocks { start: u32, end: u32 },
}

/// Arcs that follow one another, from `first` to below `last`, and the record behind them.
#[derive(Clone, Copy)]
pub(crate) struct Entry {
    pub(crate) first: u32,
    pub(crate) last: u32,
    pub(crate) body: Body,
}

/// What the next bytes belong to.
#[derive(Clone, Copy)]
pub(crate) enum Part {
    Header,
    /// The front of a record: its tag, and its fields before counters or pairs.
    Between,
    /// A histogram whose counters begin at `start`, and `left` of them are still to come.
    Hist {
        fields: HistFields,
        start: u32,
        left: u32,
    },
    /// Counts of blocks that begin at `start`, and `left` of them are still to come.
    Blocks {
        start: u32,
        left: u32,
    },
    /// Nothing: the file is refused, whatever follows.
    Refused(GmonRefusal),
}

/// What the front of a record says.
#[derive(Clone, Copy)]
pub(crate) enum Begun {
    Hist { fields: HistFields, count: u32 },
    Arc(RawArc),
    Blocks { count: u32 },
    Refused(GmonRefusal),
}

/// The records so far, in five flat lists, where numbers and spans of 32 bits tell them apart: a list of its own
/// for each record would take far more memory, so records are made of spans only where they are asked for. The
/// arcs from `run` on stand behind all entries. What the next bytes belong to, and what has come of an item that
/// isn't whole.
#[derive(Drop)]
pub(crate) struct State {
    pub(crate) part: Part,
    pub(crate) torn: Remnant,
    pub(crate) counters: Column<u16>,
    pub(crate) pairs: Column<RawBlock>,
    pub(crate) arcs: Vec<RawArc>,
    pub(crate) fields: Vec<HistFields>,
    pub(crate) entries: Vec<Entry>,
    pub(crate) run: u32,
}
