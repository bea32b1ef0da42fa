//! The calls of each function.

ghost use Rattle.std.specs.Prelude.{◌≡◌, ◌^◌, ◌<◌, IfOk};
ghost use Rattle.call_cycles.specs.Graph.{all_calls};
ghost use Rattle.call_cycles.specs.Sums.{list_of};
ghost use Rattle.flat_report.specs.Sources.{calls_by_itself, calls_in_all};

use call_cycles::Graph;
use std::alloc::{AllocError, Global};

/// The calls of each function by itself.
fn self_calls(alloc: Global, graph: &Graph) -> Result<Vec<u64>, AllocError>
    ensures { IfOk result (λ v. v.items ≡ list_of graph.now.functions (calls_by_itself graph.now)) }
{
    let mut calls = Vec::new(alloc);
    for f in 0..graph.function_count() {
        calls.push(graph.self_calls(f))?;
    }
    Ok(calls)
}

/// The calls of each function by all functions, those inside its cycle and itself included.
pub(crate) fn calls_of_functions(alloc: Global, graph: &Graph) -> Result<Vec<u64>, AllocError>
    requires { all_calls graph.now < 2 ^ 59 }
    ensures { IfOk result (λ v. v.items ≡ list_of graph.now.functions (calls_in_all graph.now)) }
{
    let mut calls = self_calls(alloc, graph)?;
    for i in 0..graph.arc_count() {
        let arc = graph.arc(i);
        calls[arc.callee as usize] += arc.count;
    }
    Ok(calls)
}
