//! The names at the ends of lines.

ghost use Rattle.std.specs.Prelude.{◌≡◌, ◌<◌, ◌≤◌, ◌++◌, true, codes, length};
ghost use Rattle.host_port.specs.Buffered.{Adds};
ghost use Rattle.host_port.specs.declared.side.Side.TheVariants.{Output};
ghost use Rattle.call_cycles.specs.Graph.{component_count, component_of, head_of, is_cycle};
ghost use Rattle.graph_report.specs.Cycles.{cycle_name};
ghost use Rattle.graph_report.specs.Entries.{number_in, graph_order};
ghost use Rattle.graph_report.specs.GraphText.{bracket_text, cycle_mark, tail_of};
ghost use Rattle.graph_report.specs.Inputs.{sources_in};
ghost use Rattle.graph_report.specs.Numbers.{AreNumbers};
ghost use Rattle.graph_report.specs.Reports.{number_of};
ghost use Rattle.graph_report.specs.declared.subjects.Subject.TheVariants.{Cycle};

use crate::fields::put_tail;
use crate::inputs::Inputs;
use crate::numbers::Numbers;
use crate::prepared::Report;
use host_port::{Failed, Host, PrintBuf};
use text_cols::Line;

/// The cycle of which a function is a member, where there is one.
#[tactic(auto, using(text_cols::proofs::Lengths::lengths), unfolding(crate::specs::GraphText::cycle_mark))]
fn mark(inputs: &Inputs<'_>, f: u32) -> Line
    requires function { f < inputs.now.sources.graph.now.functions }
    ensures text { result ≡ cycle_mark inputs.now.sources.graph.now f }
    ensures short { length result ≤ 19 }
{
    let mut line = Line::new();
    let c = inputs.sources.graph.component(f);
    if inputs.sources.graph.is_cycle(c) {
        line.put(b" <cycle ");
        line.decimal(u128::from(inputs.cycle_number(c)));
        line.put(b">");
    }
    line
}

/// What stands behind the name of a function: its cycle, the number of its entry, and the end of the line.
pub(crate) fn function_tail(inputs: &Inputs<'_>, numbers: &Numbers, f: u32) -> Line
    requires numbers { AreNumbers (sources_in inputs.now) numbers.now }
    requires function { f < inputs.now.sources.graph.now.functions }
    ensures { result ≡ tail_of inputs.now.sources.graph.now
        (number_in (graph_order (sources_in inputs.now))) f }
{
    let mut line = mark(inputs, f);
    put_tail(&mut line, numbers.functions[f as usize]);
    line
}

/// What stands behind the name of a cycle as a whole: the number of its entry, and the end of the line.
fn cycle_tail(report: &Report<'_>, head: u32) -> Line
    requires function { head < report.now.inputs.sources.graph.now.functions }
    ensures { result ≡ codes " " ++ bracket_text (number_of report.now (Cycle head)) ++ codes "\n" }
{
    let mut line = Line::new();
    put_tail(&mut line, report.cycle_number(head));
    line
}

/// Puts the name of a cycle as a whole at the end of a line.
pub(crate) fn put_cycle_name<H: Host>(
    report: &Report<'_>,
    head: u32,
    lines: &mut PrintBuf,
    host: &mut H,
) -> Result<(), Failed>
    requires function { head < report.now.inputs.sources.graph.now.functions }
    requires cycle { is_cycle report.now.inputs.sources.graph.now
        (component_of report.now.inputs.sources.graph.now head) ≡ true }
    ensures { Adds Output (cycle_name report.now.inputs.sources.graph.now
        (component_of report.now.inputs.sources.graph.now head) ++ codes " "
        ++ bracket_text (number_of report.now (Cycle head)) ++ codes "\n")
        lines.old lines.new (H.outside host.old) (H.outside host.new) result }
{
    let c = report.inputs.sources.graph.component(head);
    lines.put(host, report.inputs.cycle_name(c))?;
    lines.put(host, cycle_tail(report, head).bytes())
}
