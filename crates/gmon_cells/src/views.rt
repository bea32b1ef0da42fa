//! Records as the reader of a file keeps them: what they have many of stays in the reader's lists.

use gp_base::{RawArc, RawBlock, Unit};

/// A histogram: its fields and its counters.
#[derive(Clone, Copy)]
pub struct HistView<'r> {
    pub low: u32,
    pub high: u32,
    pub unit: Unit,
    pub counters: &'r [u16],
}

/// A record of a file.
#[derive(Clone, Copy)]
pub enum RecView<'r> {
    Hist(HistView<'r>),
    Arc(RawArc),
    Blocks(&'r [RawBlock]),
}
