//! What follows from the definitions of a graph.

ghost use Rattle.std.specs.Prelude.{◌≡◌, ◌<◌, ◌↔◌, ℕ, IsTrue, List};
ghost use Rattle.elf32_syms.specs.declared.image.Symbol.{Symbol};
ghost use Rattle.call_cycles.specs.declared.graphs.FunArc.{FunArc};
ghost use Rattle.call_cycles.specs.Graph.{GraphValue, IsGraph, HasOtherMember, component_count, is_cycle};
ghost use Rattle.call_cycles.specs.Arcs.{AreInOrder, AreWithin};
ghost use Rattle.call_cycles.specs.Parts.{AreCalled};
ghost use Rattle.call_cycles.specs.Values.{graph_in, profile_graph};

/// Functions and arcs have one numbering of components: which functions are together, which is the
/// head, and which component has which number.
#[tactic(auto, using(crate::proofs::NumberingLemmas::one_numbering_of))]
pub fn one_numbering()
    ensures { (g h : GraphValue) → IsGraph g → IsGraph h → g.functions ≡ h.functions
        → g.arcs ≡ h.arcs → (g.component ≡ h.component) × (g.heads ≡ h.heads) }
{}

/// A component is a cycle exactly where it has a member besides its head.
pub fn other_members()
    ensures { (g : GraphValue) (c : ℕ) → IsGraph g → c < component_count g
        → IsTrue (is_cycle g c) ↔ HasOtherMember g c }
{}

/// The graph that the plain rules give for functions and arcs, and for a profile, is a graph; and
/// each graph is the one that they give for its functions, arcs and self calls.
pub fn values_are_graphs()
    ensures graph { (n : ℕ) (arcs : List FunArc) (self_calls : List ℕ) → AreWithin n arcs
        → AreCalled arcs → AreInOrder arcs → IsGraph (graph_in n arcs self_calls) }
    ensures profile { (arcs : List ((ℕ × ℕ) × ℕ)) (symbols : List Symbol)
        → IsGraph (profile_graph arcs symbols) }
    ensures only { (g : GraphValue) → IsGraph g → g ≡ graph_in g.functions g.arcs g.self_calls }
{}
