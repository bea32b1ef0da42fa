//! The whole annotated listing.

ghost use Rattle.std.specs.Prelude.{◌≡◌, ◌+◌, ◌<◌, ◌≤◌, length};
ghost use Rattle.std.specs.List.{All, flat_map};
ghost use Rattle.host_port.specs.Buffered.{Adds};
ghost use Rattle.host_port.specs.Host.{Puts};
ghost use Rattle.host_port.specs.declared.side.Side.TheVariants.{Output};
ghost use Rattle.elf32_syms.specs.Image.{IsWithinLimits};
ghost use Rattle.annotate.specs.Cells.{cells_of};
ghost use Rattle.annotate.specs.Listing.{annotated_text, cell_line, symbol_listing};

use crate::cells::{cell, cell_count};
use crate::line;
use elf32_syms::{Image, Segment, Symbol};
use gmon_data::Profile;
use host_port::{Failed, Host, PrintBuf};

/// Prints the annotated listing on the output, after that of GNU gprof: for each symbol its name, and
/// a line for each part of its range between two multiples of 4. A line has the part's address; how
/// often the profile's blocks say that it was executed; its grains, of which a sample has 1,000,000;
/// and the word there with the spelling of its instruction, `illegal` where it is none. A part of less
/// than 4 bytes, or one whose bytes aren't all loaded, has a hyphen. `bytes` is the program's file, and
/// `image` its image.
///
/// Takes no memory. After `Failed` a prefix of the listing is printed, and not all of it.
pub fn write<H: Host>(
    image: &Image,
    bytes: &[u8],
    profile: &Profile,
    host: &mut H,
) -> Result<(), Failed>
    requires { IsWithinLimits (length bytes.now) image.now }
    ensures { Puts Output (annotated_text image.now bytes.now profile.now) (H.outside host.old)
        (H.outside host.new) result }
{
    let mut lines = PrintBuf::new();
    put_listing(image, bytes, profile, &mut lines, host)?;
    lines.flush(host)
}

fn put_listing<H: Host>(
    image: &Image,
    bytes: &[u8],
    profile: &Profile,
    lines: &mut PrintBuf,
    host: &mut H,
) -> Result<(), Failed>
    requires { IsWithinLimits (length bytes.now) image.now }
    ensures { Adds Output (annotated_text image.now bytes.now profile.now) lines.old lines.new
        (H.outside host.old) (H.outside host.new) result }
{
    lines.put(host, b"annotated listing\n")?;
    let segments = image.segments.as_slice();
    let symbols = image.symbols.as_slice();
    put_symbols(segments, bytes, profile, symbols, lines, host)
}

fn put_symbols<H: Host>(
    segments: &[Segment],
    bytes: &[u8],
    profile: &Profile,
    symbols: &[Symbol],
    lines: &mut PrintBuf,
    host: &mut H,
) -> Result<(), Failed>
    requires segments { All (λ s. s.offset + s.filesz ≤ length bytes.now) segments.now }
    requires some { All (λ s. s.addr < s.end) symbols.now }
    ensures { Adds Output (flat_map (symbol_listing segments.now bytes.now profile.now) symbols.now)
        lines.old lines.new
        (H.outside host.old) (H.outside host.new) result }
{
    for symbol in symbols {
        put_symbol(segments, bytes, profile, symbol, lines, host)?;
    }
    Ok(())
}

fn put_symbol<H: Host>(
    segments: &[Segment],
    bytes: &[u8],
    profile: &Profile,
    symbol: &Symbol,
    lines: &mut PrintBuf,
    host: &mut H,
) -> Result<(), Failed>
    requires segments { All (λ s. s.offset + s.filesz ≤ length bytes.now) segments.now }
    requires some { symbol.now.addr < symbol.now.end }
    ensures { Adds Output (symbol_listing segments.now bytes.now profile.now symbol.now) lines.old
        lines.new
        (H.outside host.old) (H.outside host.new) result }
{
    lines.put(host, symbol.name.as_slice())?;
    lines.put(host, b":\n")?;
    put_cells(segments, bytes, profile, symbol, lines, host)
}

fn put_cells<H: Host>(
    segments: &[Segment],
    bytes: &[u8],
    profile: &Profile,
    symbol: &Symbol,
    lines: &mut PrintBuf,
    host: &mut H,
) -> Result<(), Failed>
    requires segments { All (λ s. s.offset + s.filesz ≤ length bytes.now) segments.now }
    requires some { symbol.now.addr < symbol.now.end }
    ensures { Adds Output (flat_map (cell_line segments.now bytes.now profile.now)
        (cells_of symbol.now)) lines.old lines.new
        (H.outside host.old) (H.outside host.new) result }
{
    for k in 0..cell_count(symbol) {
        let line = line::cell(segments, bytes, profile, cell(symbol, k));
        lines.put(host, line.bytes())?;
    }
    Ok(())
}
