//! What the definition of the call graph says, in other words.

ghost use Rattle.std.specs.Prelude.{◌≡◌, ◌<◌, ◌+◌, ◌++◌, ℕ, true, List, [], filter, slice_get};
ghost use Rattle.std.specs.List.{flat_map};
ghost use Rattle.std.specs.List.Sorted.{IsPermutation, IsSortedBy};
ghost use Rattle.call_cycles.specs.Graph.{IsGraph, arc_at, arc_count, component_of, is_cycle};
ghost use Rattle.flat_report.specs.Sources.{Sources as AnySources};
ghost use Rattle.graph_report.specs.Entries.{GraphEntry, graph_comes_before, number_in, graph_order};
ghost use Rattle.graph_report.specs.GraphText.{graph_text, graph_header, is_shown};
ghost use Rattle.graph_report.specs.Roots.{TotalsAreTimes, NoTimeWithoutEntry, RootEntriesHaveAll, CallersRise, CalleesRise};
ghost use Rattle.graph_report.specs.Rows.{cycle_entries, function_entries};
ghost use Rattle.graph_report.specs.Subjects.{entry_text};
ghost use Rattle.graph_report.specs.declared.subjects.Subject.TheVariants.{Function};

/// Each cycle, and each function that has an entry, has its place in the order once, and none stands
/// behind one that it comes before. The number of an entry, as lines give it, is its place, counted from 1.
#[tactic(auto, using(crate::proofs::PlaceLemmas::all_ordered, crate::proofs::PlaceLemmas::ascending_ordered, crate::proofs::PlaceLemmas::number_of_place))]
pub fn entries_in_order()
    ensures all { (s : AnySources) → IsPermutation (cycle_entries s ++ function_entries s)
        (graph_order s) }
    ensures ascending { (s : AnySources) → IsSortedBy graph_comes_before (graph_order s) }
    ensures numbers { (s : AnySources) (place : ℕ) (e : GraphEntry) → IsGraph s.graph
        → slice_get (graph_order s) place ≡ Some e
        → number_in (graph_order s) e.subject ≡ place + 1 }
{}

/// Each function that a line names has an entry, so that the number behind its name is never 0: those
/// that call, those that are called, and the members of cycles.
#[tactic(auto, using(crate::proofs::NamedLemmas::callee_named, crate::proofs::NamedLemmas::caller_named, crate::proofs::NamedLemmas::member_named))]
pub fn names_have_entries()
    ensures callers { (s : AnySources) (i : ℕ) → IsGraph s.graph → i < arc_count s.graph
        → 0 < number_in (graph_order s) (Function (arc_at s.graph i).caller) }
    ensures callees { (s : AnySources) (i : ℕ) → IsGraph s.graph → i < arc_count s.graph
        → 0 < number_in (graph_order s) (Function (arc_at s.graph i).callee) }
    ensures members { (s : AnySources) (f : ℕ) → IsGraph s.graph → f < s.graph.functions
        → is_cycle s.graph (component_of s.graph f) ≡ true
        → 0 < number_in (graph_order s) (Function f) }
{}

/// The report is its header and its entries. With hidden names it is the same less the entries of the
/// functions that have them, each with the line below it: the other entries, with their numbers and all
/// their lines, stay as they are.
pub fn entries_that_are_shown()
    ensures whole { (s : AnySources) → graph_text s []
        ≡ graph_header ++ flat_map (entry_text s) (graph_order s) }
    ensures less { (s : AnySources) (hidden : List (List ℕ))
        → graph_text s hidden
        ≡ graph_header ++ flat_map (entry_text s)
        (filter (λ e. is_shown hidden e.subject e.name) (graph_order s)) }
{}

/// The total of an entry is the time of its component; a component that has no entry has no time. So the totals
/// of the entries of roots, which nothing calls from outside, are all time that there is.
#[tactic(auto, using(crate::proofs::RootLemmas::totals_are_times, crate::proofs::RootLemmas::root_entries))]
pub fn entries_of_roots()
    ensures totals { TotalsAreTimes }
    ensures none { NoTimeWithoutEntry }
    ensures all { RootEntriesHaveAll }
{}

/// The callers of a function stand in the order of their addresses, each once, and so do its callees.
#[tactic(auto, using(crate::proofs::RisingLemmas::callers_rise, crate::proofs::RisingLemmas::callees_rise))]
pub fn callers_and_callees_rise()
    ensures callers { CallersRise }
    ensures callees { CalleesRise }
{}
