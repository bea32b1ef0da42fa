//! The text of an exact flow, printed line by line.

ghost use Rattle.std.specs.Prelude.{◌≡◌, ◌≢◌, ◌<◌, ◌≤◌, ◌++◌, ℕ, length, codes, filter, slice_get, slice_index_or};
ghost use Rattle.std.specs.List.{All, flat_map};
ghost use Rattle.host_port.specs.Buffered.{Adds};
ghost use Rattle.host_port.specs.Host.{Puts};
ghost use Rattle.host_port.specs.declared.side.Side.TheVariants.{Output};
ghost use Rattle.call_cycles.specs.Graph.{arc_count, component_count, leaves, source_of};
ghost use Rattle.call_cycles.specs.Sums.{numbers_below};
ghost use Rattle.exact_flow.specs.Times.{HasTimes};
ghost use Rattle.graph_report.specs.ExactText.{symbol_address, arc_text, head_text, component_text, components_text, exact_text};

use crate::exact_line;
use call_cycles::Graph;
use elf32_syms::Symbol;
use exact_flow::ExactFlow;
use host_port::{Failed, Host, PrintBuf};
use text_cols::Line;

/// Prints the text of an exact flow on the output: its components in order with the outside arcs that leave
/// them, and the grains of all functions. It takes no memory, and the time grows as components and arcs. After
/// `Failed` a prefix of the text is printed, and not all of it.
///
/// Symbols are as many as the graph has functions, and the times are those of the arcs that lie between
/// components, in the graph's order.
pub fn write_exact<H: Host>(
    symbols: &[Symbol],
    graph: &Graph,
    exact: &ExactFlow,
    attributed: u128,
    host: &mut H,
) -> Result<(), Failed>
    requires functions { graph.now.functions ≡ length symbols.now }
    requires times { HasTimes graph.now exact.now }
    ensures { Puts Output (exact_text symbols.now graph.now exact.now attributed)
        (H.outside host.old) (H.outside host.new) result }
{
    let mut lines = PrintBuf::new();
    put_all(symbols, graph, exact, attributed, &mut lines, host)?;
    lines.flush(host)
}

fn put_all<H: Host>(
    symbols: &[Symbol],
    graph: &Graph,
    exact: &ExactFlow,
    attributed: u128,
    lines: &mut PrintBuf,
    host: &mut H,
) -> Result<(), Failed>
    requires functions { graph.now.functions ≡ length symbols.now }
    requires times { HasTimes graph.now exact.now }
    ensures { Adds Output (exact_text symbols.now graph.now exact.now attributed) lines.old
        lines.new (H.outside host.old) (H.outside host.new) result }
{
    lines.put(host, b"exact flow\n")?;
    put_components(symbols, graph, exact, lines, host)?;
    lines.put(host, exact_line::total(attributed).bytes())
}

fn put_components<H: Host>(
    symbols: &[Symbol],
    graph: &Graph,
    exact: &ExactFlow,
    lines: &mut PrintBuf,
    host: &mut H,
) -> Result<(), Failed>
    requires functions { graph.now.functions ≡ length symbols.now }
    requires times { HasTimes graph.now exact.now }
    ensures { Adds Output (components_text symbols.now graph.now exact.now) lines.old lines.new
        (H.outside host.old) (H.outside host.new) result }
{
    let mut rest = exact.outside_arcs();
    for c in 0..graph.component_count() {
        let (arcs, later) = rest.split_at(leaving(graph, rest, c));
        put_component(symbols, graph, exact, c, arcs, lines, host)?;
        rest = later;
    }
    Ok(())
}

/// How many of the first arcs leave component `c`.
fn leaving(graph: &Graph, arcs: &[u32], c: u32) -> usize
    requires { All (λ i. i < arc_count graph.now) arcs.now }
    ensures within { result ≤ length arcs.now }
    ensures those { (k d : ℕ) → k < result → source_of graph.now (slice_index_or arcs.now k d) ≡ c }
    ensures next { (d : ℕ) → result < length arcs.now
        → source_of graph.now (slice_index_or arcs.now result d) ≢ c }
{
    for (n, arc) in arcs.iter().enumerate() {
        if graph.component(graph.arc(*arc as usize).caller) != c {
            return n;
        }
    }
    arcs.len()
}

/// The lines of component `c` and of the arcs that leave it.
fn put_component<H: Host>(
    symbols: &[Symbol],
    graph: &Graph,
    exact: &ExactFlow,
    c: u32,
    arcs: &[u32],
    lines: &mut PrintBuf,
    host: &mut H,
) -> Result<(), Failed>
    requires functions { graph.now.functions ≡ length symbols.now }
    requires times { HasTimes graph.now exact.now }
    requires component { c < component_count graph.now }
    requires arcs { arcs.now ≡ filter (leaves graph.now c) (numbers_below (arc_count graph.now)) }
    ensures { Adds Output (component_text symbols.now graph.now exact.now c) lines.old lines.new
        (H.outside host.old) (H.outside host.new) result }
{
    lines.put(host, head_line(symbols, graph, exact, c).bytes())?;
    put_arcs(symbols, graph, exact, arcs, lines, host)
}

fn put_arcs<H: Host>(
    symbols: &[Symbol],
    graph: &Graph,
    exact: &ExactFlow,
    arcs: &[u32],
    lines: &mut PrintBuf,
    host: &mut H,
) -> Result<(), Failed>
    requires functions { graph.now.functions ≡ length symbols.now }
    requires times { HasTimes graph.now exact.now }
    requires arcs { All (λ i. i < arc_count graph.now) arcs.now }
    ensures { Adds Output (flat_map (arc_text symbols.now graph.now exact.now) arcs.now)
        lines.old lines.new (H.outside host.old) (H.outside host.new) result }
{
    for arc in arcs {
        lines.put(host, arc_line(symbols, graph, exact, *arc as usize).bytes())?;
    }
    Ok(())
}

/// The address of a function.
fn address(symbols: &[Symbol], f: u32) -> u32
    requires { f < length symbols.now }
    ensures { result ≡ symbol_address symbols.now f }
{
    symbols[f as usize].addr
}

fn head_line(symbols: &[Symbol], graph: &Graph, exact: &ExactFlow, c: u32) -> Line
    requires functions { graph.now.functions ≡ length symbols.now }
    requires times { HasTimes graph.now exact.now }
    requires component { c < component_count graph.now }
    ensures { result ≡ head_text symbols.now graph.now exact.now c }
{
    let head = address(symbols, graph.head(c));
    exact_line::component(head, exact.self_of(c), &exact.child_of(c))
}

fn arc_line(symbols: &[Symbol], graph: &Graph, exact: &ExactFlow, i: usize) -> Line
    requires functions { graph.now.functions ≡ length symbols.now }
    requires times { HasTimes graph.now exact.now }
    requires arc { i < arc_count graph.now }
    ensures { result ≡ arc_text symbols.now graph.now exact.now i }
{
    let arc = graph.arc(i);
    let caller = address(symbols, arc.caller);
    let callee = address(symbols, arc.callee);
    exact_line::arc(caller, callee, &exact.arc_self(i), &exact.arc_child(i))
}
