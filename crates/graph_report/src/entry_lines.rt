//! Lines and runs of lines.

ghost use Rattle.std.specs.Prelude.{◌≡◌, ◌==◌, ◌-◌, ◌<◌, ◌≤◌, ◌++◌, codes, length};
ghost use Rattle.std.specs.List.{All, flat_map, range_with_len};
ghost use Rattle.host_port.specs.Buffered.{Adds};
ghost use Rattle.host_port.specs.declared.side.Side.TheVariants.{Output};
ghost use Rattle.text_cols.specs.Columns.{spaces};
ghost use Rattle.call_cycles.specs.Graph.{arc_count};
ghost use Rattle.graph_report.specs.ArcLines.{line_by};
ghost use Rattle.graph_report.specs.ArcTimes.{AreTimes, times_columns};
ghost use Rattle.graph_report.specs.GraphText.{callee_line, callers_text, function_columns, member_line, other_line};
ghost use Rattle.graph_report.specs.Inputs.{sources_in};
ghost use Rattle.graph_report.specs.Reports.{number_of};

use crate::arc_ends::{ArcEnd, function_at};
use crate::columns;
use crate::inputs::{ArcTimes, Inputs};
use crate::prepared::Report;
use host_port::{Failed, Host, PrintBuf};
use text_cols::Line;

/// The line in place of callers, where there are none.
const SPONTANEOUS: &[u8] =
    b"                                                                   <spontaneous>\n";

/// What stands in front of the columns of a line that isn't the subject's.
const FRONT: &[u8] = b"               ";

/// What stands behind them.
const BEHIND: &[u8] = b"      ";

/// Makes a line of what stands in front of a function's name: the columns of an arc.
fn arc_front(line: &mut Line, inputs: &Inputs<'_>, times: &ArcTimes)
    requires times { AreTimes (sources_in inputs.now) times.now }
    ensures { line.new ≡ spaces 15 ++ times_columns (sources_in inputs.now) times.now ++ spaces 6 }
{
    line.clear();
    line.put(FRONT);
    columns::put_arc(line, inputs, times);
    line.put(BEHIND);
}

/// Puts the line of an arc, by the function at this end.
fn put_arc<H: Host>(
    report: &Report<'_>,
    i: usize,
    end: ArcEnd,
    line: &mut Line,
    lines: &mut PrintBuf,
    host: &mut H,
) -> Result<(), Failed>
    requires { i < arc_count report.now.inputs.sources.graph.now }
    ensures { Adds Output (line_by end (sources_in report.now.inputs) (number_of report.now) i)
        lines.old lines.new (H.outside host.old) (H.outside host.new) result }
{
    let times = report.inputs.arc(i);
    arc_front(line, &report.inputs, &times);
    lines.put(host, line.bytes())?;
    lines.put(host, report.labels.of(function_at(times.arc, end)))
}

/// Makes a line of what stands in front of a function's name: the columns of a member of a cycle.
fn member_front(line: &mut Line, inputs: &Inputs<'_>, f: u32)
    requires function { f < inputs.now.sources.graph.now.functions }
    ensures { line.new ≡ spaces 15 ++ function_columns (sources_in inputs.now) f ++ spaces 6 }
{
    line.clear();
    line.put(FRONT);
    columns::put_function(line, inputs, f);
    line.put(BEHIND);
}

/// Puts a member of a cycle, in the entry of the cycle.
fn put_member<H: Host>(
    report: &Report<'_>,
    f: u32,
    line: &mut Line,
    lines: &mut PrintBuf,
    host: &mut H,
) -> Result<(), Failed>
    requires function { f < report.now.inputs.sources.graph.now.functions }
    ensures { Adds Output (member_line (sources_in report.now.inputs) (number_of report.now) f)
        lines.old lines.new (H.outside host.old) (H.outside host.new) result }
{
    member_front(line, &report.inputs, f);
    lines.put(host, line.bytes())?;
    lines.put(host, report.labels.of(f))
}

/// Whether there are no callers.
fn is_spontaneous(arcs: &[usize]) -> bool
    ensures { result ≡ (length arcs.now == 0) }
{
    arcs.is_empty()
}

/// Puts the line that stands in place of callers.
#[tactic(auto, unfolding(crate::specs::GraphText::other_line))]
fn put_spontaneous<H: Host>(lines: &mut PrintBuf, host: &mut H) -> Result<(), Failed>
    ensures { Adds Output (other_line (spaces 46) (codes "<spontaneous>")) lines.old lines.new
        (H.outside host.old) (H.outside host.new) result }
{
    lines.put(host, SPONTANEOUS)
}

/// Puts the lines of these arcs, each by the function at this end.
fn put_arcs<H: Host>(
    report: &Report<'_>,
    arcs: &[usize],
    end: ArcEnd,
    lines: &mut PrintBuf,
    host: &mut H,
) -> Result<(), Failed>
    requires arcs { All (λ i. i < arc_count report.now.inputs.sources.graph.now) arcs.now }
    ensures { Adds Output (flat_map
        (line_by end (sources_in report.now.inputs) (number_of report.now)) arcs.now) lines.old
        lines.new (H.outside host.old) (H.outside host.new) result }
{
    let mut line = Line::new();
    for i in arcs {
        put_arc(report, *i, end, &mut line, lines, host)?;
    }
    Ok(())
}

/// Puts the callers of these arcs. Where there are none, the machine itself called.
pub(crate) fn put_callers<H: Host>(
    report: &Report<'_>,
    arcs: &[usize],
    lines: &mut PrintBuf,
    host: &mut H,
) -> Result<(), Failed>
    requires arcs { All (λ i. i < arc_count report.now.inputs.sources.graph.now) arcs.now }
    ensures { Adds Output (callers_text (sources_in report.now.inputs) (number_of report.now)
        arcs.now) lines.old lines.new (H.outside host.old) (H.outside host.new) result }
{
    if is_spontaneous(arcs) {
        return put_spontaneous(lines, host);
    }
    put_arcs(report, arcs, ArcEnd::Caller, lines, host)
}

/// Puts the callees of the arcs from one number to another, without that.
pub(crate) fn put_callees<H: Host>(
    report: &Report<'_>,
    first: usize,
    end: usize,
    lines: &mut PrintBuf,
    host: &mut H,
) -> Result<(), Failed>
    requires order { first ≤ end }
    requires arcs { end ≤ arc_count report.now.inputs.sources.graph.now }
    ensures { Adds Output (flat_map
        (callee_line (sources_in report.now.inputs) (number_of report.now))
        (range_with_len first (end - first))) lines.old
        lines.new (H.outside host.old) (H.outside host.new) result }
{
    let mut line = Line::new();
    for i in first..end {
        put_arc(report, i, ArcEnd::Callee, &mut line, lines, host)?;
    }
    Ok(())
}

/// Puts these members of a cycle.
pub(crate) fn put_members<H: Host>(
    report: &Report<'_>,
    members: &[usize],
    lines: &mut PrintBuf,
    host: &mut H,
) -> Result<(), Failed>
    requires members { All (λ f. f < report.now.inputs.sources.graph.now.functions) members.now }
    ensures { Adds Output (flat_map
        (member_line (sources_in report.now.inputs) (number_of report.now)) members.now) lines.old
        lines.new (H.outside host.old) (H.outside host.new) result }
{
    // Numbers of functions have 32 bits.
    report.inputs.sources.graph.holds();
    let mut line = Line::new();
    for f in members {
        put_member(report, *f as u32, &mut line, lines, host)?;
    }
    Ok(())
}
