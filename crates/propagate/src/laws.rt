//! What the equations of the flow say, in other words.

ghost use Rattle.std.specs.Prelude.{◌≡◌, ◌<◌, ◌≤◌, ◌+◌, ◌*◌, ℕ, Bool, List, length, slice_index, sum};
ghost use Rattle.call_cycles.specs.Graph.{GraphValue, IsGraph, component_count, component_of};
ghost use Rattle.call_cycles.specs.Flow.{FlowValue, IsFlow, IsClosed, IsConserved, time_of, time_of_roots};
ghost use Rattle.call_cycles.specs.ExactFlow.{ExactTimes, IsExactFlow, AreSameTimes, IsNearFlow, exact_time_of_roots};
ghost use Rattle.propagate.specs.Proportion.{PartsAreInProportion, PartsAreAll};
ghost use Rattle.propagate.specs.Solution.{flow_in};
ghost use Rattle.propagate.specs.ExactSolution.{exact_in};

/// The equations of a graph's flow have one solution and no other.
pub fn one_flow()
    ensures solved { (g : GraphValue) (shares : List ℕ) → IsGraph g
        → IsFlow g shares (flow_in g shares) }
    ensures one { (g : GraphValue) (shares : List ℕ) (t u : FlowValue) → IsGraph g
        → IsFlow g shares t → IsFlow g shares u → t ≡ u }
{}

/// No time is lost: over each set of components that has with each all that it calls, and so over all.
pub fn conservation()
    ensures closed { (g : GraphValue) (shares : List ℕ) (t : FlowValue) (set : ℕ → Bool) → IsGraph g
        → IsFlow g shares t → IsClosed g set → IsConserved g t set }
    ensures whole { (g : GraphValue) (shares : List ℕ) (t : FlowValue) → IsGraph g
        → length shares ≡ g.functions → IsFlow g shares t → time_of_roots g t ≡ sum shares }
{}

/// Nothing has more than all shares together: no component, and no function with what it gets over its arcs.
#[tactic(auto, using(crate::proofs::BoundLemmas::within_all, crate::proofs::BoundLemmas::function_within))]
pub fn no_more_than_all()
    ensures components { (g : GraphValue) (shares : List ℕ) (t : FlowValue) (c : ℕ) → IsGraph g
        → length shares ≡ g.functions → IsFlow g shares t → c < component_count g
        → time_of t c ≤ sum shares }
    ensures functions { (g : GraphValue) (shares : List ℕ) (t : FlowValue) (f : ℕ) → IsGraph g
        → length shares ≡ g.functions → IsFlow g shares t → f < g.functions
        → slice_index shares f + slice_index t.member_child f ≤ time_of t (component_of g f) }
{}

/// The equations of exact times have a solution, all solutions have the same times, and in each the roots
/// have all shares.
#[tactic(auto, using(crate::proofs::ExactLemmas::exact_solution, crate::proofs::ExactRootLemmas::exact_roots))]
pub fn exact_times()
    ensures solved { (g : GraphValue) (shares : List ℕ) → IsGraph g
        → IsExactFlow g shares (exact_in g shares) }
    ensures whole { (g : GraphValue) (shares : List ℕ) (x : ExactTimes) → IsGraph g
        → length shares ≡ g.functions → IsExactFlow g shares x
        → exact_time_of_roots g shares x ≡ x.grain * sum shares }
    ensures same { (g : GraphValue) (shares : List ℕ) (x y : ExactTimes) → IsGraph g
        → IsExactFlow g shares x → IsExactFlow g shares y → AreSameTimes g x y }
{}

/// The times of a flow are near the exact ones: at most two grains away for each outside arc of the graph.
pub fn nearness()
    ensures { (g : GraphValue) (shares : List ℕ) (t : FlowValue) (x : ExactTimes) → IsGraph g
        → IsFlow g shares t → IsExactFlow g shares x → IsNearFlow g t x }
{}

/// An arc carries of both times of the component that it enters the part that its calls are of all that enter it,
/// but for less than a grain; and all arcs that enter a component carry together all that it has.
pub fn time_in_proportion()
    ensures parts { PartsAreInProportion }
    ensures whole { PartsAreAll }
{}
