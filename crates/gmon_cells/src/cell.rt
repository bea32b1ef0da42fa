//! Values that take a fixed number of bytes each.

ghost use Rattle.std.specs.Prelude.{◌≡◌, ℕ, List, ◌<◌, ◌≤◌, length};
ghost use Rattle.gp_base.specs.Bytes.{value_of};
ghost use Rattle.gp_base.specs.Fields.{arc_of, block_of};

use gp_base::{RawArc, RawBlock, half, word};

/// A value that takes as many bytes wherever it stands.
pub trait Cell: Copy {
    /// Its bytes.
    ghost width: { ℕ };

    /// What they stand for.
    ghost cell: { List ℕ → Self };

    /// How many bytes it takes: 1 to 33.
    fn width() -> usize
        ensures width { result ≡ width }
        ensures some { 0 < width }
        ensures fits { width ≤ 33 };

    /// The value that its bytes stand for.
    fn read(bytes: &[u8]) -> Self
        requires { length bytes.now ≡ width }
        ensures { result ≡ cell bytes.now };
}

/// A counter of a histogram.
impl Cell for u16 {
    ghost width = { 2 };

    ghost cell = { value_of };

    fn width() -> usize {
        2
    }

    fn read(bytes: &[u8]) -> u16 {
        half(bytes, 0)
    }
}

impl Cell for RawArc {
    ghost width = { 12 };

    ghost cell = { arc_of };

    fn width() -> usize {
        12
    }

    fn read(bytes: &[u8]) -> RawArc {
        RawArc {
            from: word(bytes, 0),
            to: word(bytes, 4),
            count: word(bytes, 8),
        }
    }
}

/// The count of a basic block.
impl Cell for RawBlock {
    ghost width = { 8 };

    ghost cell = { block_of };

    fn width() -> usize {
        8
    }

    fn read(bytes: &[u8]) -> RawBlock {
        RawBlock {
            addr: word(bytes, 0),
            count: word(bytes, 4),
        }
    }
}
