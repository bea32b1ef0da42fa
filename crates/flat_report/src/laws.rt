//! What the definition of the flat profile says, in other words.

ghost use Rattle.std.specs.Prelude.{◌≡◌, ◌++◌, ℕ, List, [], length, not, filter};
ghost use Rattle.std.specs.List.{enumerate_from, flat_map, sum_by};
ghost use Rattle.std.specs.List.Sorted.{IsPermutation, IsSortedBy};
ghost use Rattle.symbol_shares.specs.Shares.{attributed_of};
ghost use Rattle.call_cycles.specs.Graph.{IsGraph, all_calls};
ghost use Rattle.flat_report.specs.Sources.{Sources as AnySources};
ghost use Rattle.flat_report.specs.Entries.{flat_comes_before, flat_entries, listed_functions, flat_order};
ghost use Rattle.flat_report.specs.FlatText.{cumulative_of, flat_text, flat_header, line_at};
ghost use Rattle.flat_report.specs.Hidden.{is_hidden};

/// Each function that has a line has its place in the order once, and none stands behind one that it
/// comes before.
pub fn functions_in_order()
    ensures all { (s : AnySources) → IsPermutation (listed_functions s) (flat_order s) }
    ensures ascending { (s : AnySources) → IsSortedBy (flat_comes_before s) (flat_order s) }
{}

/// The time up to the last line, this one included, is that of all functions: none that has a share is
/// left out.
pub fn time_up_to_the_last_line()
    ensures { (s : AnySources) → length s.shares.of ≡ s.graph.functions
        → cumulative_of (flat_entries s) (length (flat_entries s)) ≡ attributed_of s.shares }
{}

/// The lines have all calls together: each call is counted once, where its callee is.
pub fn calls_of_all_lines()
    ensures { (s : AnySources) → IsGraph s.graph
        → sum_by (λ e. e.calls) (flat_entries s) ≡ all_calls s.graph }
{}

/// The profile is its header and its lines. With hidden names it is the same less the lines of the functions
/// that have them: the other lines, with their cumulative times, stay as they are.
pub fn lines_that_are_shown()
    ensures whole { (s : AnySources) → flat_text s []
        ≡ flat_header s.shares s.rate
        ++ flat_map (line_at (attributed_of s.shares) s.rate (flat_entries s))
        (enumerate_from 0 (flat_entries s)) }
    ensures less { (s : AnySources) (hidden : List (List ℕ))
        → flat_text s hidden ≡ flat_header s.shares s.rate
        ++ flat_map (line_at (attributed_of s.shares) s.rate (flat_entries s))
        (filter (λ e. not (is_hidden hidden e.1.name)) (enumerate_from 0 (flat_entries s))) }
{}
