//! The whole call graph.

ghost use Rattle.std.specs.Prelude.{◌≡◌, ◌^◌, ◌<◌, ◌≤◌, Err, length, filter, map, string_bytes};
ghost use Rattle.std.specs.List.{flat_map};
ghost use Rattle.host_port.specs.Buffered.{Adds};
ghost use Rattle.host_port.specs.Host.{Puts};
ghost use Rattle.host_port.specs.declared.side.Side.TheVariants.{Output};
ghost use Rattle.call_cycles.specs.Flow.{IsFlow};
ghost use Rattle.call_cycles.specs.Graph.{all_calls};
ghost use Rattle.flat_report.specs.Reports.{Reports};
ghost use Rattle.flat_report.specs.declared.refusal.ReportRefusal.TheVariants.{OutOfMemory};
ghost use Rattle.graph_report.specs.Entries.{graph_order};
ghost use Rattle.graph_report.specs.GraphText.{graph_text, is_shown as spec};
ghost use Rattle.graph_report.specs.Inputs.{sources_in};
ghost use Rattle.graph_report.specs.Rows.{entries_of_rows, entry_of_row};
ghost use Rattle.graph_report.specs.Subjects.{IsSubject, entry_text, shown_text};

use crate::entries::put_entry;
use crate::inputs::Inputs;
use crate::labels::function_labels;
use crate::numbers::entry_numbers;
use crate::prepared::Report;
use crate::rows::{Row, rows_in_order};
use crate::subjects::Subject;
use crate::tables::Tables;
use call_cycles::Graph;
use elf32_syms::Symbol;
use flat_report::hidden::is_hidden;
use flat_report::{ReportRefusal, Sources};
use host_port::{Failed, Host, PrintBuf};
use propagate::Flow;
use std::alloc::Global;
use symbol_shares::Shares;

/// What stands above the entries.
const HEADER: &[u8] =
    b"call graph\nindex     %time        self    children                called  name\n";

/// Prints the call graph on the output, after that of GNU gprof: an entry for each cycle, and for each
/// function that took time, itself or in what it calls, or that calls or is called; that with the most
/// time first. `rate` is the number of samples a second, and a sample has 1,000,000 grains.
///
/// A function whose name is among `hidden` has no entry. Numbers count it as if it had, and its lines in
/// other entries stay. The entry of a cycle can't be hidden.
///
/// Symbols and shares are as many as the graph has functions, the flow is that of the graph with these shares,
/// all calls are fewer than 2^59, and `rate` is at least 1.
///
/// After `WriteFault` a prefix of the text is printed, and not all of it. `OutOfMemory` comes before the
/// first byte.
pub fn write<H: Host>(
    alloc: Global,
    symbols: &[Symbol],
    graph: &Graph,
    flow: &Flow,
    shares: &Shares,
    rate: u32,
    hidden: &[String],
    host: &mut H,
) -> Result<(), ReportRefusal>
    requires functions { graph.now.functions ≡ length symbols.now }
    requires each { length shares.now.of ≡ length symbols.now }
    requires flow { IsFlow graph.now shares.now.of flow.now }
    requires few { all_calls graph.now < 2 ^ 59 }
    requires rate { 1 ≤ rate }
    ensures printed { Reports (graph_text
        (record {
          symbols = symbols.now;
          graph = graph.now;
          flow = flow.now;
          shares = shares.now;
          rate = rate;
        }) (map string_bytes hidden.now)) (H.outside host.old) (H.outside host.new)
        result }
    ensures idle { result ≡ Err OutOfMemory → host.new ≡ host.old }
{
    shares.holds();
    let tables = Tables::new(alloc, graph)?;
    let sources = Sources {
        symbols,
        graph,
        flow,
        shares,
        rate,
    };
    let inputs = Inputs {
        sources,
        tables: &tables,
    };
    let rows = rows_in_order(alloc, &inputs)?;
    let numbers = entry_numbers(alloc, &inputs, &rows)?;
    let labels = function_labels(alloc, &inputs, &numbers)?;
    let report = Report {
        inputs,
        numbers,
        labels,
    };
    print(&report, &rows, hidden, host)?;
    Ok(())
}

fn print<H: Host>(
    report: &Report<'_>,
    rows: &[Row<'_>],
    hidden: &[String],
    host: &mut H,
) -> Result<(), Failed>
    requires rows { entries_of_rows rows.now ≡ graph_order (sources_in report.now.inputs) }
    ensures { Puts Output (graph_text (sources_in report.now.inputs) (map string_bytes hidden.now))
        (H.outside host.old) (H.outside host.new) result }
{
    let mut lines = PrintBuf::new();
    put_report(report, rows, hidden, &mut lines, host)?;
    lines.flush(host)
}

fn put_report<H: Host>(
    report: &Report<'_>,
    rows: &[Row<'_>],
    hidden: &[String],
    lines: &mut PrintBuf,
    host: &mut H,
) -> Result<(), Failed>
    requires rows { entries_of_rows rows.now ≡ graph_order (sources_in report.now.inputs) }
    ensures { Adds Output (graph_text (sources_in report.now.inputs) (map string_bytes hidden.now))
        lines.old lines.new (H.outside host.old) (H.outside host.new) result }
{
    lines.put(host, HEADER)?;
    put_entries(report, rows, hidden, lines, host)
}

fn put_entries<H: Host>(
    report: &Report<'_>,
    rows: &[Row<'_>],
    hidden: &[String],
    lines: &mut PrintBuf,
    host: &mut H,
) -> Result<(), Failed>
    requires rows { entries_of_rows rows.now ≡ graph_order (sources_in report.now.inputs) }
    ensures { let s = sources_in report.now.inputs in
        Adds Output (flat_map (entry_text s)
        (filter (λ e. spec (map string_bytes hidden.now) e.subject e.name) (graph_order s)))
        lines.old lines.new (H.outside host.old) (H.outside host.new) result }
{
    for row in rows {
        put_row(report, row, hidden, lines, host)?;
    }
    Ok(())
}

/// Whether the entry of a row is shown.
fn is_shown(hidden: &[String], row: &Row<'_>) -> bool
    ensures { result ≡ spec (map string_bytes hidden.now) row.now.subject row.now.name.now }
{
    match row.subject {
        Subject::Cycle(_) => true,
        Subject::Function(_) => !is_hidden(hidden, row.name),
    }
}

/// Puts an entry, unless it is hidden.
#[tactic(auto, using(crate::proofs::PrintLemmas::put_as))]
fn put_row<H: Host>(
    report: &Report<'_>,
    row: &Row<'_>,
    hidden: &[String],
    lines: &mut PrintBuf,
    host: &mut H,
) -> Result<(), Failed>
    requires subject { IsSubject report.now.inputs.sources.graph.now row.now.subject }
    ensures { Adds Output (shown_text (sources_in report.now.inputs) (map string_bytes hidden.now)
        (entry_of_row row.now)) lines.old lines.new
        (H.outside host.old) (H.outside host.new) result }
{
    if !is_shown(hidden, row) {
        return Ok(());
    }
    put_entry(report, row.subject, lines, host)
}
