//! The whole flat profile.

ghost use Rattle.std.specs.Prelude.{◌≡◌, ◌^◌, ◌<◌, ◌≤◌, ◌++◌, Err, length, map, string_bytes};
ghost use Rattle.std.specs.List.{All, sum_by};
ghost use Rattle.host_port.specs.Buffered.{Adds};
ghost use Rattle.host_port.specs.Host.{Puts};
ghost use Rattle.host_port.specs.declared.side.Side.TheVariants.{Output};
ghost use Rattle.call_cycles.specs.Flow.{IsFlow};
ghost use Rattle.call_cycles.specs.Graph.{all_calls};
ghost use Rattle.symbol_shares.specs.Shares.{attributed_of};
ghost use Rattle.flat_report.specs.FlatText.{flat_text, flat_header, flat_lines, line_of, text_of};
ghost use Rattle.flat_report.specs.Reports.{Reports};
ghost use Rattle.flat_report.specs.Rows.{FitsIn, entry_of_row, entries_of_rows, shown_line, sources_of};
ghost use Rattle.flat_report.specs.declared.refusal.ReportRefusal.TheVariants.{OutOfMemory};

use crate::hidden::is_hidden;
use crate::line;
use crate::refusal::ReportRefusal;
use crate::rows::{Row, rows_in_order};
use crate::sources::Sources;
use call_cycles::Graph;
use elf32_syms::Symbol;
use host_port::{Failed, Host, PrintBuf};
use propagate::Flow;
use std::alloc::{AllocError, Global};
use symbol_shares::Shares;

/// What stands above the columns.
const HEADINGS: &[u8] =
    b"  %time   cumulative       self      calls  self ms/call  total ms/call  name\n";

/// Prints the flat profile on the output, after that of GNU gprof: the grains of all functions and of
/// none, and a line for each function that has a share or is called, that with the greatest share
/// first. A line has the function's part of what all functions have, in percent; the seconds of the
/// lines up to it; its own seconds; and its name. Of a function that is called it also has the calls,
/// those by itself and inside its cycle included, and the milliseconds of each call, its own and with
/// what the function gets from those that it calls. `rate` is the number of samples a second, and a
/// sample has 1,000,000 grains.
///
/// A function whose name is among `hidden` has no line. The seconds of the lines up to another one count it
/// as if it had.
///
/// Symbols and shares are as many as the graph has functions, the flow is that of the graph with these shares,
/// all calls are fewer than 2^59, and `rate` is at least 1.
///
/// After `WriteFault` a prefix of the text is printed, and not all of it. `OutOfMemory` comes before the
/// first byte.
pub fn write<H: Host>(
    alloc: Global,
    symbols: &[Symbol],
    graph: &Graph,
    flow: &Flow,
    shares: &Shares,
    rate: u32,
    hidden: &[String],
    host: &mut H,
) -> Result<(), ReportRefusal>
    requires functions { graph.now.functions ≡ length symbols.now }
    requires each { length shares.now.of ≡ length symbols.now }
    requires flow { IsFlow graph.now shares.now.of flow.now }
    requires few { all_calls graph.now < 2 ^ 59 }
    requires rate { 1 ≤ rate }
    ensures printed { Reports (flat_text
        (record {
          symbols = symbols.now;
          graph = graph.now;
          flow = flow.now;
          shares = shares.now;
          rate = rate;
        }) (map string_bytes hidden.now)) (H.outside host.old) (H.outside host.new)
        result }
    ensures idle { result ≡ Err OutOfMemory → host.new ≡ host.old }
{
    graph.holds();
    let sources = Sources {
        symbols,
        graph,
        flow,
        shares,
        rate,
    };
    let rows = rows_in_order(alloc, &sources)?;
    print(rows.as_slice(), &sources, hidden, host)?;
    Ok(())
}

fn print<H: Host>(
    rows: &[Row<'_>],
    sources: &Sources<'_>,
    hidden: &[String],
    host: &mut H,
) -> Result<(), Failed>
    requires fit { All (FitsIn (attributed_of sources.now.shares.now)) (entries_of_rows rows.now) }
    requires sum { sum_by (λ e. e.share) (entries_of_rows rows.now)
        ≤ attributed_of sources.now.shares.now }
    requires rate { 1 ≤ sources.now.rate }
    ensures { Puts Output (text_of (sources_of sources.now) (map string_bytes hidden.now)
        (entries_of_rows rows.now)) (H.outside host.old) (H.outside host.new) result }
{
    let mut lines = PrintBuf::new();
    put_report(rows, sources, hidden, &mut lines, host)?;
    lines.flush(host)
}

fn put_report<H: Host>(
    rows: &[Row<'_>],
    sources: &Sources<'_>,
    hidden: &[String],
    lines: &mut PrintBuf,
    host: &mut H,
) -> Result<(), Failed>
    requires fit { All (FitsIn (attributed_of sources.now.shares.now)) (entries_of_rows rows.now) }
    requires sum { sum_by (λ e. e.share) (entries_of_rows rows.now)
        ≤ attributed_of sources.now.shares.now }
    requires rate { 1 ≤ sources.now.rate }
    ensures { Adds Output (text_of (sources_of sources.now) (map string_bytes hidden.now)
        (entries_of_rows rows.now)) lines.old lines.new
        (H.outside host.old) (H.outside host.new) result }
{
    let shares = sources.shares;
    let rate = sources.rate;
    put_header(shares, rate, lines, host)?;
    put_rows(rows, hidden, shares.attributed(), rate, lines, host)
}

fn put_header<H: Host>(
    shares: &Shares,
    rate: u32,
    lines: &mut PrintBuf,
    host: &mut H,
) -> Result<(), Failed>
    ensures { Adds Output (flat_header shares.now rate) lines.old lines.new (H.outside host.old)
        (H.outside host.new) result }
{
    lines.put(host, b"flat profile\n")?;
    lines.put(host, line::totals(shares, rate).bytes())?;
    lines.put(host, HEADINGS)
}

fn put_rows<H: Host>(
    rows: &[Row<'_>],
    hidden: &[String],
    total: u128,
    rate: u32,
    lines: &mut PrintBuf,
    host: &mut H,
) -> Result<(), Failed>
    requires fit { All (FitsIn total) (entries_of_rows rows.now) }
    requires sum { sum_by (λ e. e.share) (entries_of_rows rows.now) ≤ total }
    requires within { total < 2 ^ 65 }
    requires rate { 1 ≤ rate }
    ensures { Adds Output (flat_lines total rate (map string_bytes hidden.now)
        (entries_of_rows rows.now)) lines.old lines.new
        (H.outside host.old) (H.outside host.new) result }
{
    let mut cumulative = 0;
    for row in rows {
        cumulative += row.share;
        put_row(row, hidden, total, rate, cumulative, lines, host)?;
    }
    Ok(())
}

/// Puts the line of a function, unless it is hidden.
fn put_row<H: Host>(
    row: &Row<'_>,
    hidden: &[String],
    total: u128,
    rate: u32,
    cumulative: u128,
    lines: &mut PrintBuf,
    host: &mut H,
) -> Result<(), Failed>
    requires within { total < 2 ^ 65 }
    requires rate { 1 ≤ rate }
    requires cumulative { cumulative ≤ total }
    requires fits { FitsIn total (entry_of_row row.now) }
    ensures { Adds Output (shown_line (map string_bytes hidden.now) total rate cumulative
        (entry_of_row row.now)) lines.old lines.new
        (H.outside host.old) (H.outside host.new) result }
{
    if is_hidden(hidden, row.symbol.name.as_slice()) {
        return Ok(());
    }
    put_line(row, total, rate, cumulative, lines, host)
}

/// Puts the line of a function.
fn put_line<H: Host>(
    row: &Row<'_>,
    total: u128,
    rate: u32,
    cumulative: u128,
    lines: &mut PrintBuf,
    host: &mut H,
) -> Result<(), Failed>
    requires within { total < 2 ^ 65 }
    requires rate { 1 ≤ rate }
    requires cumulative { cumulative ≤ total }
    requires fits { FitsIn total (entry_of_row row.now) }
    ensures { Adds Output (line_of total rate cumulative (entry_of_row row.now)) lines.old lines.new
        (H.outside host.old) (H.outside host.new) result }
{
    lines.put(host, line::columns(total, rate, cumulative, row).bytes())?;
    lines.put(host, row.symbol.name.as_slice())?;
    lines.put(host, b"\n")
}
