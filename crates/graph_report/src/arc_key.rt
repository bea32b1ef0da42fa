//! By what arcs are put together.

ghost use Rattle.std.specs.Prelude.{◌≡◌, ◌==◌, ◌<◌, IfOk};
ghost use Rattle.call_cycles.specs.Graph.{arc_count, component_of};
ghost use Rattle.call_cycles.specs.Sums.{list_of};
ghost use Rattle.graph_report.specs.Groups.{arc_key};

use call_cycles::{FunArc, Graph};
use std::alloc::{AllocError, Global};

/// What is the same for the arcs of a group.
#[derive(Clone, Copy)]
pub(crate) enum ArcKey {
    Caller,
    Callee,
    /// The cycle that an arc enters, by its component. Any other arc has one more than the last.
    Entered,
    /// The component in which an arc stays. An outside arc has one more than the last.
    Inner,
}

/// Whether an arc goes from one function of a component to another one of it.
pub(crate) fn is_inside(graph: &Graph, a: FunArc) -> bool
    requires caller { a.caller < graph.now.functions }
    requires callee { a.callee < graph.now.functions }
    ensures { result ≡ (component_of graph.now a.caller == component_of graph.now a.callee) }
{
    graph.component(a.caller) == graph.component(a.callee)
}

/// The key of arc `i`.
fn key_of(graph: &Graph, i: usize, key: ArcKey) -> u32
    requires { i < arc_count graph.now }
    ensures { result ≡ arc_key graph.now key i }
{
    let a = graph.arc(i);
    match key {
        ArcKey::Caller => a.caller,
        ArcKey::Callee => a.callee,
        ArcKey::Entered => {
            let entered = graph.component(a.callee);
            if is_inside(graph, a) {
                graph.component_count()
            } else if graph.is_cycle(entered) {
                entered
            } else {
                graph.component_count()
            }
        }
        ArcKey::Inner => if is_inside(graph, a) {
            graph.component(a.callee)
        } else {
            graph.component_count()
        },
    }
}

/// The key of each arc.
pub(crate) fn keys(alloc: Global, graph: &Graph, key: ArcKey) -> Result<Vec<u32>, AllocError>
    ensures { IfOk result (λ v. v.items ≡ list_of (arc_count graph.now) (arc_key graph.now key)) }
{
    let mut keys = Vec::with_capacity(alloc, graph.arc_count())?;
    for i in 0..graph.arc_count() {
        keys.push(key_of(graph, i, key))?;
    }
    Ok(keys)
}

/// The component of each function.
pub(crate) fn components(alloc: Global, graph: &Graph) -> Result<Vec<u32>, AllocError>
    ensures { IfOk result (λ v. v.items ≡ list_of graph.now.functions (component_of graph.now)) }
{
    let mut components = Vec::new(alloc);
    for f in 0..graph.function_count() {
        components.push(graph.component(f))?;
    }
    Ok(components)
}
