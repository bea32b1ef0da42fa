//! The exact times of a graph, from callees to callers.

ghost use Rattle.std.specs.Prelude.{◌≡◌, ◌<◌, ◌↔◌, ◌*◌, ◌^◌, ℕ, true, None, length, map, IfOk, IfErr, IfSome, IsSome};
ghost use Rattle.call_cycles.specs.Sums.{list_of};
ghost use Rattle.call_cycles.specs.Graph.{arc_at, arc_count, component_count, head_of, source_of, target_of, is_outside, entering_of};
ghost use Rattle.call_cycles.specs.Flow.{self_in};
ghost use Rattle.call_cycles.specs.ExactFlow.{ExactTimes, IsExactFlow, exact_time_of_roots};
ghost use Rattle.symbol_shares.specs.Shares.{attributed_of};
ghost use Rattle.fraction128.specs.Fractions.{lowest};
ghost use Rattle.fraction128.specs.Values.{value_of};
ghost use Rattle.propagate.specs.ExactSolution.{exact_in};
ghost use Rattle.exact_flow.specs.Times.{HasTimes, outside_numbers};
ghost use Rattle.exact_flow.specs.Steps.{FitsStep, IsNoneWide, with_both};
ghost use Rattle.exact_flow.specs.Solution.{flow_of_times, exact_flow_in};
ghost use Rattle.exact_flow.specs.Wide.{first_wide};
ghost use Rattle.exact_flow.specs.Progress.{IsStart, child_times, no_times, step_in};
ghost use Rattle.exact_flow.specs.Answers.{IsTooWide, IsWideAnswer};
ghost use Rattle.exact_flow.specs.declared.refusal.ExactRefusal.TheVariants.{TooWide};

use crate::flows::ExactFlow;
use crate::refusal::ExactRefusal;
use crate::step::{Given, hand_on};
use crate::tables::{Tables, start};
use call_cycles::Graph;
use fraction128::Frac;
use std::alloc::Global;
use symbol_shares::Shares;

/// Of the calls that enter the component of an outside arc's callee, those of the arc.
#[tactic(auto, using(propagate::proofs::ExactLemmas::entered))]
fn calls(graph: &Graph, i: usize) -> Frac
    requires arc { i < arc_count graph.now }
    requires outside { is_outside graph.now i ≡ true }
    ensures { value_of result ≡ lowest (arc_at graph.now i).count
        (entering_of graph.now (target_of graph.now i)) }
{
    let arc = graph.arc(i);
    let all = graph.entering(graph.component(arc.callee));
    graph.holds();
    Frac::new(u128::from(arc.count), u128::from(all)).unwrap()
}

/// What the component that outside arc `i` leaves has after the arc's step, where the arcs before it are done.
fn step(graph: &Graph, selves: &[u128], children: &[Frac], i: usize) -> Option<Frac>
    requires arc { i < arc_count graph.now }
    requires outside { is_outside graph.now i ≡ true }
    requires selves { length selves.now ≡ component_count graph.now }
    requires children { length children.now ≡ component_count graph.now }
    ensures after { IfSome result (λ f. value_of f
        ≡ with_both (step_in graph.now selves.now (map value_of children.now) i)) }
    ensures fits { IsSome result
        ↔ FitsStep (step_in graph.now selves.now (map value_of children.now) i) }
{
    let arc = graph.arc(i);
    let callee = graph.component(arc.callee) as usize;
    let given = Given {
        self_time: selves[callee],
        child_time: children[callee],
        calls: calls(graph, i),
        before: children[graph.component(arc.caller) as usize],
    };
    hand_on(&given)
}

/// The refusal of the step of arc `i`: it names the component that the arc leaves.
fn too_wide(graph: &Graph, i: usize) -> ExactRefusal
    requires arc { i < arc_count graph.now }
    requires few { arc_count graph.now < 2 ^ 32 }
    ensures { result ≡ TooWide (head_of graph.now (source_of graph.now i)) i }
{
    let c = graph.component(graph.arc(i).caller);
    ExactRefusal::TooWide {
        head: graph.head(c),
        arc: i as u32,
    }
}

/// Does the steps of the outside arcs from callees to callers, where none is done yet, or refuses the first one at which a
/// fraction does not fit.
fn hand_all_on(
    graph: &Graph,
    shares: &Shares,
    selves: &[u128],
    outside: &[u32],
    children: &mut [Frac],
) -> Result<(), ExactRefusal>
    requires few { arc_count graph.now < 2 ^ 32 }
    requires selves { selves.now
        ≡ list_of (component_count graph.now) (self_in graph.now shares.now.of) }
    requires outside { outside.now ≡ outside_numbers graph.now }
    requires none { map value_of children.old ≡ no_times graph.now }
    ensures times { IfOk result (λ _. (x : ExactTimes) → IsExactFlow graph.now shares.now.of x
        → map value_of children.new ≡ child_times graph.now x) }
    ensures fits { IfOk result (λ _. (x : ExactTimes) → IsExactFlow graph.now shares.now.of x
        → IsNoneWide graph.now shares.now.of x) }
    ensures wide { IfErr result (IsTooWide graph.now shares.now.of) }
{
    graph.holds();
    for arc in outside {
        let i = *arc as usize;
        match step(graph, selves, children, i) {
            Some(after) => {
                children[graph.component(graph.arc(i).caller) as usize] = after;
            }
            None => return Err(too_wide(graph, i)),
        }
    }
    Ok(())
}

/// The exact flow that comes of tables in which no step is done. It takes no memory: its one refusal is the first step at
/// which a fraction does not fit, and it comes exactly where there is one.
fn solve(graph: &Graph, shares: &Shares, tables: Tables) -> Result<ExactFlow, ExactRefusal>
    requires each { length shares.now.of ≡ graph.now.functions }
    requires few { arc_count graph.now < 2 ^ 32 }
    requires start { IsStart graph.now shares.now.of tables }
    ensures sized { IfOk result (HasTimes graph.now) }
    ensures value { IfOk result (λ e. e ≡ exact_flow_in graph.now shares.now.of) }
    ensures times { IfOk result (λ e. (x : ExactTimes) → IsExactFlow graph.now shares.now.of x
        → e ≡ flow_of_times graph.now shares.now.of x) }
    ensures whole { IfOk result (λ e. (x : ExactTimes) → IsExactFlow graph.now shares.now.of x
        → exact_time_of_roots graph.now shares.now.of x ≡ x.grain * attributed_of shares.now) }
    ensures fits { IfOk result (λ e. first_wide graph.now shares.now.of ≡ None) }
    ensures wide { IfErr result (IsTooWide graph.now shares.now.of) }
{
    graph.holds();
    shares.holds();
    let mut tables = tables;
    match hand_all_on(
        graph,
        shares,
        tables.selves.as_slice(),
        tables.outside.as_slice(),
        &mut tables.children,
    ) {
        Ok(()) => Ok(ExactFlow {
            selves: tables.selves,
            children: tables.children,
            entering: tables.entering,
            calls: tables.calls,
            callees: tables.callees,
            outside: tables.outside,
        }),
        Err(refusal) => Err(refusal),
    }
}

/// The exact times of a graph of functions with these shares: those of the one flow in which nothing is rounded,
/// in lowest terms, or the first step at which a fraction does not fit.
///
/// Without memory for it, and for a graph of more than 2^32 - 1 arcs, the answer is `OutOfMemory`.
#[tactic(auto, using(propagate::proofs::ExactLemmas::exact_solution))]
pub fn exact(alloc: Global, graph: &Graph, shares: &Shares) -> Result<ExactFlow, ExactRefusal>
    requires each { length shares.now.of ≡ graph.now.functions }
    ensures sized { IfOk result (HasTimes graph.now) }
    ensures solved { IsExactFlow graph.now shares.now.of (exact_in graph.now shares.now.of) }
    ensures value { IfOk result (λ e. e ≡ exact_flow_in graph.now shares.now.of) }
    ensures times { IfOk result (λ e. (x : ExactTimes) → IsExactFlow graph.now shares.now.of x
        → e ≡ flow_of_times graph.now shares.now.of x) }
    ensures whole { IfOk result (λ e. (x : ExactTimes) → IsExactFlow graph.now shares.now.of x
        → exact_time_of_roots graph.now shares.now.of x ≡ x.grain * attributed_of shares.now) }
    ensures fits { IfOk result (λ e. first_wide graph.now shares.now.of ≡ None) }
    ensures wide { IfErr result (IsWideAnswer graph.now shares.now.of) }
{
    if graph.arc_count() > u32::MAX as usize {
        return Err(ExactRefusal::OutOfMemory);
    }
    let tables = start(alloc, graph, shares)?;
    solve(graph, shares, tables)
}
