//! Single lines, made in place.

ghost use Rattle.std.specs.Prelude.{◌≡◌, ◌+◌, ◌≤◌, ◌++◌, length, decimal};
ghost use Rattle.std.specs.List.{All};
ghost use Rattle.text_cols.specs.Columns.{right_of};
ghost use Rattle.rv_decode.specs.Table.{instr_of};
ghost use Rattle.annotate.specs.Listing.{cell_line, cell_word as word_of, instr_text, word_text};

use crate::loaded::word_at;
use elf32_syms::Segment;
use gmon_data::Profile;
use gp_base::Span;
use rv_decode::{decode, spell};
use symbol_shares::range_grains;
use text_cols::Line;

/// The line of a cell: its address, how often the instruction there was executed, the grains of its
/// addresses, and its word with the spelling of the instruction.
#[tactic(auto, using(text_cols::proofs::Lengths::lengths), unfolding(crate::specs::Listing::cell_line))]
pub(crate) fn cell(segments: &[Segment], bytes: &[u8], profile: &Profile, cell: Span) -> Line
    requires segments { All (λ s. s.offset + s.filesz ≤ length bytes.now) segments.now }
    requires order { cell.low ≤ cell.high }
    ensures { result ≡ cell_line segments.now bytes.now profile.now cell }
{
    let mut line = Line::new();
    line.hex8(cell.low);
    put_number(&mut line, u128::from(profile.block_of(cell.low)), 12);
    put_number(&mut line, range_grains(profile, cell.low, cell.high), 18);
    line.put(b"  ");
    put_word(&mut line, cell_word(segments, bytes, cell), cell.low);
    line.put(b"\n");
    line
}

/// Adds a number at the right of its column.
#[tactic(auto, using(text_cols::proofs::Lengths::lengths))]
fn put_number(line: &mut Line, n: u128, width: usize)
    requires width { width ≤ 40 }
    requires room { length line.old ≤ 216 }
    ensures text { line.new ≡ line.old ++ right_of (decimal n) width }
    ensures short { length line.new ≤ length line.old + 40 }
{
    line.right_decimal(n, width);
}

/// The word of a cell of four bytes, where they are loaded.
fn cell_word(segments: &[Segment], bytes: &[u8], cell: Span) -> Option<u32>
    requires segments { All (λ s. s.offset + s.filesz ≤ length bytes.now) segments.now }
    requires order { cell.low ≤ cell.high }
    ensures { result ≡ word_of segments.now bytes.now cell }
{
    if cell.high - cell.low == 4 {
        return word_at(segments, bytes, cell.low);
    }
    None
}

/// Adds a word and the spelling of its instruction at `pc`, or a hyphen.
#[tactic(auto, using(text_cols::proofs::Lengths::lengths))]
fn put_word(line: &mut Line, word: Option<u32>, pc: u32)
    requires { length line.old ≤ 196 }
    ensures text { line.new ≡ line.old ++ word_text word pc }
    ensures short { length line.new ≤ length line.old + 58 }
{
    match word {
        Some(word) => {
            line.hex8(word);
            line.put(b"  ");
            put_instr(line, word, pc);
        }
        None => line.put(b"-"),
    }
}

/// Adds the spelling of a word's instruction at `pc`.
fn put_instr(line: &mut Line, word: u32, pc: u32)
    requires { length line.old ≤ 208 }
    ensures text { line.new ≡ line.old ++ instr_text (instr_of word) pc }
    ensures short { length line.new ≤ length line.old + 48 }
{
    match decode(word) {
        Some(instr) => spell(&instr, pc, line),
        None => line.put(b"illegal"),
    }
}
