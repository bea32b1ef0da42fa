//! The lines that are printed.

ghost use Rattle.std.specs.Prelude.{◌≡◌, ◌^◌, ◌<◌, length, if◌then◌else◌};
ghost use Rattle.std.specs.List.{flat_map};
ghost use Rattle.host_port.specs.Buffered.{Adds};
ghost use Rattle.host_port.specs.Host.{Puts};
ghost use Rattle.host_port.specs.declared.side.Side.TheVariants.{Output};
ghost use Rattle.folded.specs.Text.{count_text, folded_text, inclusive_line, functions_text, inclusive_text, line_text, name_in, stack_text};
ghost use Rattle.folded.specs.Paths.{IsPrefix, caller_text, functions_of};

use crate::prefix::{Prefix, name_of};
use crate::tally::Folded;
use elf32_syms::Symbol;
use host_port::{Failed, Host, PrintBuf};
use text_cols::Line;

/// Prints a line for each stack: the functions' names with `;` between them, `[unknown]` where no function
/// has a call, and the number of samples. With `inclusive` it prints a line for each function that samples
/// have. The symbols are as many as the functions. Takes no memory.
// It isn't inlined: the callers' text and the lines take 12 KiB of its frame.
#[inline(never)]
pub fn write<H: Host>(
    folded: &Folded,
    symbols: &[Symbol],
    inclusive: bool,
    host: &mut H,
) -> Result<(), Failed>
    requires { length symbols.now ≡ length folded.now.inclusive }
    ensures { Puts Output (if inclusive then inclusive_text symbols.now folded.now else folded_text
        symbols.now folded.now) (H.outside host.old) (H.outside host.new) result }
{
    let mut lines = PrintBuf::new();
    put_text(folded, symbols, inclusive, &mut lines, host)?;
    lines.flush(host)
}

fn put_text<H: Host>(
    folded: &Folded,
    symbols: &[Symbol],
    inclusive: bool,
    lines: &mut PrintBuf,
    host: &mut H,
) -> Result<(), Failed>
    ensures { Adds Output (if inclusive then inclusive_text symbols.now folded.now else folded_text
        symbols.now folded.now) lines.old lines.new
        (H.outside host.old) (H.outside host.new) result }
{
    if inclusive {
        put_functions(folded, symbols, lines, host)
    } else {
        put_lines(folded, symbols, lines, host)
    }
}

fn put_lines<H: Host>(
    folded: &Folded,
    symbols: &[Symbol],
    lines: &mut PrintBuf,
    host: &mut H,
) -> Result<(), Failed>
    ensures { Adds Output (folded_text symbols.now folded.now) lines.old lines.new
        (H.outside host.old) (H.outside host.new) result }
{
    let (tree, order) = folded.nodes();
    let mut prefix = Prefix::new();
    for node in order {
        prefix.go_to(tree, symbols, *node);
        put_line(&prefix, tree.samples(*node), symbols, lines, host)?;
    }
    Ok(())
}

fn put_line<H: Host>(
    prefix: &Prefix,
    count: u64,
    symbols: &[Symbol],
    lines: &mut PrintBuf,
    host: &mut H,
) -> Result<(), Failed>
    requires { IsPrefix symbols.now prefix.now }
    ensures { Adds Output (line_text symbols.now (functions_of prefix.now.path, count))
        lines.old lines.new (H.outside host.old) (H.outside host.new) result }
{
    put_stack(prefix, symbols, lines, host)?;
    put_count(count, lines, host)
}

/// The names of a stack's functions, with `;` between them.
fn put_stack<H: Host>(
    prefix: &Prefix,
    symbols: &[Symbol],
    lines: &mut PrintBuf,
    host: &mut H,
) -> Result<(), Failed>
    requires { IsPrefix symbols.now prefix.now }
    ensures { Adds Output (stack_text symbols.now (functions_of prefix.now.path)) lines.old lines.new
        (H.outside host.old) (H.outside host.new) result }
{
    let Some((sampled, callers)) = prefix.functions().split_last() else {
        return Ok(());
    };
    let (text, known) = prefix.text(callers.len());
    lines.put(host, text)?;
    put_callers(&callers[known..], symbols, lines, host)?;
    put_name(*sampled, symbols, lines, host)
}

/// Names with `;` behind each.
fn put_callers<H: Host>(
    callers: &[Option<u32>],
    symbols: &[Symbol],
    lines: &mut PrintBuf,
    host: &mut H,
) -> Result<(), Failed>
    ensures { Adds Output (flat_map (caller_text symbols.now) callers.now) lines.old lines.new
        (H.outside host.old) (H.outside host.new) result }
{
    for caller in callers {
        put_caller(*caller, symbols, lines, host)?;
    }
    Ok(())
}

fn put_caller<H: Host>(
    caller: Option<u32>,
    symbols: &[Symbol],
    lines: &mut PrintBuf,
    host: &mut H,
) -> Result<(), Failed>
    ensures { Adds Output (caller_text symbols.now caller) lines.old lines.new
        (H.outside host.old) (H.outside host.new) result }
{
    put_name(caller, symbols, lines, host)?;
    lines.put(host, b";")
}

fn put_name<H: Host>(
    function: Option<u32>,
    symbols: &[Symbol],
    lines: &mut PrintBuf,
    host: &mut H,
) -> Result<(), Failed>
    ensures { Adds Output (name_in symbols.now function) lines.old lines.new (H.outside host.old)
        (H.outside host.new) result }
{
    lines.put(host, name_of(symbols, function))
}

fn put_count<H: Host>(count: u64, lines: &mut PrintBuf, host: &mut H) -> Result<(), Failed>
    ensures { Adds Output (count_text count) lines.old lines.new (H.outside host.old)
        (H.outside host.new) result }
{
    lines.put(host, count_line(count).bytes())
}

#[tactic(auto, using(text_cols::proofs::Lengths::lengths))]
fn count_line(count: u64) -> Line
    ensures { result ≡ count_text count }
{
    let mut line = Line::new();
    line.put(b" ");
    line.decimal(u128::from(count));
    line.put(b"\n");
    line
}

fn put_functions<H: Host>(
    folded: &Folded,
    symbols: &[Symbol],
    lines: &mut PrintBuf,
    host: &mut H,
) -> Result<(), Failed>
    ensures { Adds Output (inclusive_text symbols.now folded.now) lines.old lines.new
        (H.outside host.old) (H.outside host.new) result }
{
    for f in 0..folded.function_count() {
        put_function(f, folded.inclusive(f), symbols, lines, host)?;
    }
    Ok(())
}

/// A function's line, if samples have it.
fn put_function<H: Host>(
    f: u32,
    count: u64,
    symbols: &[Symbol],
    lines: &mut PrintBuf,
    host: &mut H,
) -> Result<(), Failed>
    ensures { Adds Output (inclusive_line symbols.now f count) lines.old lines.new
        (H.outside host.old) (H.outside host.new) result }
{
    if count == 0 {
        return Ok(());
    }
    put_name(Some(f), symbols, lines, host)?;
    put_count(count, lines, host)
}
