//! The times and calls in a line.

ghost use Rattle.std.specs.Prelude.{◌≡◌, ◌+◌, ◌<◌, ◌≤◌, ◌++◌, length};
ghost use Rattle.call_cycles.specs.Graph.{component_count};
ghost use Rattle.graph_report.specs.ArcTimes.{AreTimes, times_columns};
ghost use Rattle.graph_report.specs.GraphText.{cycle_columns, function_columns};
ghost use Rattle.graph_report.specs.Inputs.{sources_in};

use crate::fields;
use crate::inputs::{ArcTimes, Inputs};
use text_cols::Line;

/// Adds what an arc carries, and its calls of those that enter the callee's component. An arc inside a cycle
/// has its calls alone.
#[tactic(auto, using(crate::proofs::TextLemmas::inside_columns))]
pub(crate) fn put_arc(line: &mut Line, inputs: &Inputs<'_>, times: &ArcTimes)
    requires times { AreTimes (sources_in inputs.now) times.now }
    requires room { length line.old ≤ 100 }
    ensures text { line.new ≡ line.old ++ times_columns (sources_in inputs.now) times.now }
    ensures short { length line.new ≤ length line.old + 128 }
{
    let count = times.arc.count;
    match times.entering {
        None => fields::put_untimed(line, count),
        Some(entering) => {
            fields::put_times(line, inputs.sources.rate, times.own, times.child);
            fields::put_calls_of_entering(line, count, entering);
        }
    }
}

/// Adds a function's own time, what it gets from those that it calls, and its calls by others and by itself.
#[tactic(auto, using(crate::proofs::TextLemmas::timed_whole), unfolding(crate::specs::GraphText::function_columns))]
pub(crate) fn put_function(line: &mut Line, inputs: &Inputs<'_>, f: u32)
    requires function { f < inputs.now.sources.graph.now.functions }
    requires room { length line.old ≤ 100 }
    ensures text { line.new ≡ line.old ++ function_columns (sources_in inputs.now) f }
    ensures short { length line.new ≤ length line.old + 128 }
{
    fields::put_times(line, inputs.sources.rate, inputs.share(f), inputs.child(f));
    fields::put_calls_and_own(line, inputs.calls_to(f), inputs.sources.graph.self_calls(f));
}

/// Adds the same of a cycle as a whole: its calls are those that enter it and those between its members.
#[tactic(auto, using(crate::proofs::TextLemmas::timed_whole, crate::proofs::TimeLemmas::time_small), unfolding(crate::specs::GraphText::cycle_columns))]
pub(crate) fn put_cycle(line: &mut Line, inputs: &Inputs<'_>, c: u32)
    requires component { c < component_count inputs.now.sources.graph.now }
    requires room { length line.old ≤ 100 }
    ensures text { line.new ≡ line.old ++ cycle_columns (sources_in inputs.now) c }
    ensures short { length line.new ≤ length line.old + 128 }
{
    let own = inputs.sources.flow.self_of(c);
    let child = inputs.sources.flow.child_of(c);
    fields::put_times(line, inputs.sources.rate, own, child);
    fields::put_calls_and_inner(
        line,
        inputs.sources.graph.entering(c),
        inputs.calls_inside(c),
    );
}
