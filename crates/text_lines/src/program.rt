//! The lines of `syms`.

ghost use Rattle.std.specs.Prelude.{◌<◌, All};
ghost use Rattle.std.specs.List.{flat_map};
ghost use Rattle.host_port.specs.Buffered.{Adds};
ghost use Rattle.host_port.specs.Host.{Puts};
ghost use Rattle.host_port.specs.declared.side.Side.TheVariants.{Output};
ghost use Rattle.elf32_syms.specs.Owners.{IsAscending};
ghost use Rattle.text_lines.specs.Lines.{image_text, symbol_line};

use crate::line;
use elf32_syms::{Image, Symbol};
use host_port::{Failed, Host, PrintBuf};

/// Prints a program's text, entry and hooks, and a line for each symbol, on the output. A long name goes
/// out whole. Takes no memory. After `Failed` a prefix of the lines is printed, and not all of them.
pub fn show_image<H: Host>(image: &Image, host: &mut H) -> Result<(), Failed>
    requires { IsAscending image.now.symbols }
    ensures { Puts Output (image_text image.now) (H.outside host.old) (H.outside host.new) result }
{
    let mut lines = PrintBuf::new();
    put_image(image, &mut lines, host)?;
    lines.flush(host)
}

fn put_image<H: Host>(image: &Image, lines: &mut PrintBuf, host: &mut H) -> Result<(), Failed>
    requires { IsAscending image.now.symbols }
    ensures { Adds Output (image_text image.now) lines.old lines.new (H.outside host.old)
        (H.outside host.new) result }
{
    lines.put(host, line::program(image).bytes())?;
    put_symbols(image.symbols.as_slice(), lines, host)
}

fn put_symbols<H: Host>(
    symbols: &[Symbol],
    lines: &mut PrintBuf,
    host: &mut H,
) -> Result<(), Failed>
    requires { All (λ s. s.addr < s.end) symbols.now }
    ensures { Adds Output (flat_map symbol_line symbols.now) lines.old lines.new
        (H.outside host.old) (H.outside host.new) result }
{
    for symbol in symbols {
        put_symbol(symbol, lines, host)?;
    }
    Ok(())
}

fn put_symbol<H: Host>(symbol: &Symbol, lines: &mut PrintBuf, host: &mut H) -> Result<(), Failed>
    requires { symbol.now.addr < symbol.now.end }
    ensures { Adds Output (symbol_line symbol.now) lines.old lines.new (H.outside host.old)
        (H.outside host.new) result }
{
    lines.put(host, line::symbol(symbol).bytes())?;
    lines.put(host, symbol.name.as_slice())?;
    lines.put(host, b"\n")
}
