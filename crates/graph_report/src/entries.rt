//! The entries of a report.

ghost use Rattle.std.specs.Prelude.{◌≡◌, ◌<◌, true};
ghost use Rattle.host_port.specs.Buffered.{Adds};
ghost use Rattle.host_port.specs.declared.side.Side.TheVariants.{Output};
ghost use Rattle.call_cycles.specs.Flow.{time_of};
ghost use Rattle.call_cycles.specs.Graph.{component_of, is_cycle};
ghost use Rattle.flat_report.specs.Sources.{inclusive_total};
ghost use Rattle.graph_report.specs.GraphText.{cycle_columns, cycle_text, front_columns, function_columns, function_text, subject_text};
ghost use Rattle.graph_report.specs.Inputs.{sources_in};
ghost use Rattle.graph_report.specs.Reports.{number_of};
ghost use Rattle.graph_report.specs.Subjects.{IsSubject, cycle_line, function_line};
ghost use Rattle.graph_report.specs.declared.subjects.Subject.TheVariants.{Cycle, Function};

use crate::entry_lines::{put_callees, put_callers, put_members};
use crate::line_ends::put_cycle_name;
use crate::prepared::Report;
use crate::subjects::Subject;
use crate::{columns, fields};
use host_port::{Failed, Host, PrintBuf};
use text_cols::Line;

/// What stands below each entry.
const RULE: &[u8] = b"------------------------------------------------------------------------\n";

/// What stands in front of the name of the function that an entry is of.
fn function_front(report: &Report<'_>, f: u32) -> Line
    requires function { f < report.now.inputs.sources.graph.now.functions }
    ensures { let s = sources_in report.now.inputs in
        result ≡ front_columns s (number_of report.now (Function f)) (inclusive_total s f)
        (function_columns s f) }
{
    let all = report.inputs.sources.shares.attributed();
    let mut line = Line::new();
    fields::put_index(
        &mut line,
        report.function_number(f),
        report.inputs.total(f),
        all,
    );
    columns::put_function(&mut line, &report.inputs, f);
    line.put(b"  ");
    line
}

/// Puts the line of the function that an entry is of.
fn put_function_line<H: Host>(
    report: &Report<'_>,
    f: u32,
    lines: &mut PrintBuf,
    host: &mut H,
) -> Result<(), Failed>
    requires function { f < report.now.inputs.sources.graph.now.functions }
    ensures { Adds Output (function_line (sources_in report.now.inputs) (number_of report.now) f)
        lines.old lines.new (H.outside host.old) (H.outside host.new) result }
{
    lines.put(host, function_front(report, f).bytes())?;
    lines.put(host, report.labels.of(f))
}

/// What stands in front of the name of the cycle that an entry is of, given by its head.
fn cycle_front(report: &Report<'_>, head: u32) -> Line
    requires function { head < report.now.inputs.sources.graph.now.functions }
    ensures { let s = sources_in report.now.inputs in
        let c = component_of s.graph head in
        result ≡ front_columns s (number_of report.now (Cycle head)) (time_of s.flow c)
        (cycle_columns s c) }
{
    let all = report.inputs.sources.shares.attributed();
    let c = report.inputs.sources.graph.component(head);
    let mut line = Line::new();
    fields::put_index(
        &mut line,
        report.cycle_number(head),
        report.inputs.component_total(c),
        all,
    );
    columns::put_cycle(&mut line, &report.inputs, c);
    line.put(b"  ");
    line
}

/// Puts the line of the cycle that an entry is of, given by its head.
fn put_cycle_line<H: Host>(
    report: &Report<'_>,
    head: u32,
    lines: &mut PrintBuf,
    host: &mut H,
) -> Result<(), Failed>
    requires function { head < report.now.inputs.sources.graph.now.functions }
    requires cycle { is_cycle report.now.inputs.sources.graph.now
        (component_of report.now.inputs.sources.graph.now head) ≡ true }
    ensures { Adds Output (cycle_line (sources_in report.now.inputs) (number_of report.now) head)
        lines.old lines.new (H.outside host.old) (H.outside host.new) result }
{
    lines.put(host, cycle_front(report, head).bytes())?;
    put_cycle_name(report, head, lines, host)
}

/// Puts the entry of a function: its callers, its own line, and its callees.
fn put_function<H: Host>(
    report: &Report<'_>,
    f: u32,
    lines: &mut PrintBuf,
    host: &mut H,
) -> Result<(), Failed>
    requires function { f < report.now.inputs.sources.graph.now.functions }
    ensures { Adds Output (function_text (sources_in report.now.inputs) (number_of report.now) f)
        lines.old lines.new (H.outside host.old) (H.outside host.new) result }
{
    put_callers(report, report.inputs.arcs_to(f), lines, host)?;
    put_function_line(report, f, lines, host)?;
    let (first, end) = report.inputs.arcs_from(f);
    put_callees(report, first, end, lines, host)?;
    lines.put(host, RULE)
}

/// Puts the entry of a cycle, given by its head: its callers from outside, its own line, and its members.
fn put_cycle<H: Host>(
    report: &Report<'_>,
    head: u32,
    lines: &mut PrintBuf,
    host: &mut H,
) -> Result<(), Failed>
    requires function { head < report.now.inputs.sources.graph.now.functions }
    requires cycle { is_cycle report.now.inputs.sources.graph.now
        (component_of report.now.inputs.sources.graph.now head) ≡ true }
    ensures { Adds Output (cycle_text (sources_in report.now.inputs) (number_of report.now) head)
        lines.old lines.new (H.outside host.old) (H.outside host.new) result }
{
    let c = report.inputs.sources.graph.component(head);
    put_callers(report, report.inputs.arcs_into(c), lines, host)?;
    put_cycle_line(report, head, lines, host)?;
    put_members(report, report.inputs.members(c), lines, host)?;
    lines.put(host, RULE)
}

/// Puts an entry.
#[tactic(auto, using(crate::proofs::PrintLemmas::put_as))]
pub(crate) fn put_entry<H: Host>(
    report: &Report<'_>,
    subject: Subject,
    lines: &mut PrintBuf,
    host: &mut H,
) -> Result<(), Failed>
    requires subject { IsSubject report.now.inputs.sources.graph.now subject }
    ensures { Adds Output (subject_text (sources_in report.now.inputs) (number_of report.now)
        subject) lines.old lines.new (H.outside host.old) (H.outside host.new) result }
{
    match subject {
        Subject::Cycle(head) => put_cycle(report, head, lines, host),
        Subject::Function(f) => put_function(report, f, lines, host),
    }
}
