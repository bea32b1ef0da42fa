//! Single lines, made in place.

ghost use Rattle.std.specs.Prelude.{◌≡◌, ◌+◌, ◌*◌, ◌<◌, ◌≤◌, ◌++◌, length, decimal};
ghost use Rattle.std.specs.List.{flat_map};
ghost use Rattle.text_cols.specs.Columns.{hex_digit_of};
ghost use Rattle.text_lines.specs.Lines.{hist_line, hist_fields, byte_digits, unit_text, count_line, arc_line, blocks_line, block_line, image_line, symbol_front, hook_text};

use elf32_syms::{Image, Symbol};
use gp_base::{Form, RawArc, RawBlock, Unit};
use itoa::Buffer;
use text_cols::{Line, hex_digit};

/// A histogram without its counters: how many they are alone.
#[derive(Clone, Copy)]
pub struct HistHead {
    pub low: u32,
    pub high: u32,
    pub unit: Unit,
    pub counters: usize,
}

/// Adds the line that a histogram of a form begins with.
#[tactic(auto, using(text_cols::proofs::Lengths::lengths), unfolding(crate::specs::Lines::hist_line))]
pub fn put_histogram(line: &mut Line, form: Form, head: HistHead)
    requires { length line.old ≡ 0 }
    ensures { line.new ≡ line.old ++ hist_line form head }
{
    match form {
        Form::Bsd => {
            line.put(b"bsd ");
            put_fields(line, head);
        }
        Form::Gnu => {
            line.put(b"hist ");
            put_fields(line, head);
            line.put(b" unit ");
            put_unit(line, head.unit);
        }
    }
    line.put(b"\n");
}

/// Adds the range of a histogram, its number of counters and its rate.
#[tactic(auto, using(text_cols::proofs::Lengths::lengths))]
fn put_fields(line: &mut Line, head: HistHead)
    requires { length line.old ≤ 5 }
    ensures text { line.new ≡ line.old ++ hist_fields head }
    ensures short { length line.new ≤ 100 }
{
    line.put(b"low ");
    line.hex8(head.low);
    line.put(b" high ");
    line.hex8(head.high);
    line.put(b" counters ");
    put_number(line, head.counters as u64);
    line.put(b" rate ");
    put_number(line, u64::from(head.unit.rate));
}

/// Adds the decimal digits of a number.
#[tactic(auto, using(text_cols::proofs::Lengths::lengths))]
fn put_number(line: &mut Line, n: u64)
    requires { length line.old + length (decimal n) ≤ 256 }
    ensures text { line.new ≡ line.old ++ decimal n }
    ensures len { length line.new ≡ length line.old + length (decimal n) }
{
    let mut digits = Buffer::new();
    line.put(digits.format(n).as_bytes());
}

/// Adds dimension and abbreviation, two hexadecimal digits for each byte.
#[tactic(auto, unfolding(crate::specs::Lines::unit_text))]
fn put_unit(line: &mut Line, unit: Unit)
    requires { length line.old ≤ 200 }
    ensures text { line.new ≡ line.old ++ unit_text «unit» }
    ensures short { length line.new ≡ length line.old + 32 }
{
    put_hex(line, &unit.dim);
    put_hex(line, &[unit.abbrev]);
}

/// Adds two hexadecimal digits for each byte.
fn put_hex(line: &mut Line, bytes: &[u8])
    requires { length line.old + 2 * length bytes.now ≤ 256 }
    ensures text { line.new ≡ line.old ++ flat_map byte_digits bytes.now }
    ensures short { length line.new ≡ length line.old + 2 * length bytes.now }
{
    for byte in bytes {
        let byte = u32::from(*byte);
        line.put(&[hex_digit(byte / 16), hex_digit(byte % 16)]);
    }
}

/// Adds the line of a counter at an address.
#[tactic(auto, using(text_cols::proofs::Lengths::lengths), unfolding(crate::specs::Lines::count_line))]
pub fn put_count(line: &mut Line, address: u32, counter: u16)
    requires { length line.old + 40 ≤ 256 }
    ensures { line.new ≡ line.old ++ count_line address counter }
{
    line.put(b"count ");
    line.hex8(address);
    line.put(b" ");
    put_number(line, u64::from(counter));
    line.put(b"\n");
}

/// Adds the line of an arc.
#[tactic(auto, using(text_cols::proofs::Lengths::lengths), unfolding(crate::specs::Lines::arc_line))]
pub fn put_arc(line: &mut Line, arc: RawArc)
    requires { length line.old + 40 ≤ 256 }
    ensures { line.new ≡ line.old ++ arc_line arc }
{
    line.put(b"arc ");
    line.hex8(arc.from);
    line.put(b" ");
    line.hex8(arc.to);
    line.put(b" ");
    put_number(line, u64::from(arc.count));
    line.put(b"\n");
}

/// Adds the line that counts of so many basic blocks begin with.
#[tactic(auto, using(text_cols::proofs::Lengths::lengths), unfolding(crate::specs::Lines::blocks_line))]
pub fn put_blocks(line: &mut Line, blocks: usize)
    requires { length line.old + 40 ≤ 256 }
    ensures { line.new ≡ line.old ++ blocks_line blocks }
{
    line.put(b"blocks ");
    put_number(line, blocks as u64);
    line.put(b"\n");
}

/// Adds the line of a basic block.
#[tactic(auto, using(text_cols::proofs::Lengths::lengths), unfolding(crate::specs::Lines::block_line))]
pub fn put_block(line: &mut Line, block: RawBlock)
    requires { length line.old + 40 ≤ 256 }
    ensures { line.new ≡ line.old ++ block_line block }
{
    line.put(b"block ");
    line.hex8(block.addr);
    line.put(b" ");
    put_number(line, u64::from(block.count));
    line.put(b"\n");
}

/// The first line of a program: its text, its entry and its hooks.
#[tactic(auto, using(text_cols::proofs::Lengths::lengths), unfolding(crate::specs::Lines::image_line))]
pub fn program(image: &Image) -> Line
    ensures { result ≡ image_line image.now }
{
    let mut line = Line::new();
    line.put(b"text ");
    line.hex8(image.text.low);
    line.put(b" ");
    line.hex8(image.text.high);
    line.put(b" entry ");
    line.hex8(image.entry);
    line.put(b" mcount ");
    put_hook(&mut line, image.mcount);
    line.put(b" moncontrol ");
    put_hook(&mut line, image.moncontrol);
    line.put(b"\n");
    line
}

/// Adds the address of a hook, or a hyphen.
#[tactic(auto, using(text_cols::proofs::Lengths::lengths))]
fn put_hook(line: &mut Line, hook: Option<u32>)
    requires { length line.old + 8 ≤ 256 }
    ensures text { line.new ≡ line.old ++ hook_text hook }
    ensures short { length line.new ≤ length line.old + 8 }
{
    match hook {
        Some(address) => line.hex8(address),
        None => line.put(b"-"),
    }
}

/// What stands in front of a symbol's name.
#[tactic(auto, using(text_cols::proofs::Lengths::lengths), unfolding(crate::specs::Lines::symbol_front))]
pub fn symbol(symbol: &Symbol) -> Line
    requires { symbol.now.addr < symbol.now.end }
    ensures { result ≡ symbol_front symbol.now }
{
    let mut line = Line::new();
    line.hex8(symbol.addr);
    line.put(b" ");
    line.decimal(u128::from(symbol.end - symbol.addr));
    line.put(b" ");
    line
}
