//! What a report is made from.

ghost use Rattle.std.specs.Prelude.{◌≡◌, ◌^◌, ◌<◌, ◌≤◌, length};
ghost use Rattle.call_cycles.specs.Flow.{IsFlow};
ghost use Rattle.call_cycles.specs.Graph.{IsGraph, all_calls};
ghost use Rattle.symbol_shares.specs.Shares.{attributed_of};
ghost use Rattle.graph_report.specs.Tables.{AreTables};

use crate::tables::Tables;
use call_cycles::FunArc;
use flat_report::Sources;

/// An arc, and what it carries.
#[derive(Clone, Copy)]
pub(crate) struct ArcTimes {
    pub arc: FunArc,
    pub own: u128,
    pub child: u128,
    /// The calls that enter the callee's component. An arc inside a component has none.
    pub entering: Option<u64>,
}

/// The sources of a report, which are of one program and in the ranges of a report's numbers, and the tables of
/// their graph.
#[derive(Clone, Copy)]
pub(crate) struct Inputs<'a> {
    pub sources: Sources<'a>,
    pub tables: &'a Tables,
    ghost functions: { sources.graph.now.functions ≡ length sources.symbols.now },
    ghost each: { length sources.shares.now.of ≡ length sources.symbols.now },
    ghost graph: { ∥ IsGraph sources.graph.now ∥₁ },
    ghost flow: { IsFlow sources.graph.now sources.shares.now.of sources.flow.now },
    ghost few: { all_calls sources.graph.now < 2 ^ 59 },
    ghost small: { attributed_of sources.shares.now < 2 ^ 65 },
    ghost rate: { 1 ≤ sources.rate },
    ghost found: { AreTables sources.graph.now tables.now },
}

impl<'a> Inputs<'a> {
    ghost use Rattle.std.specs.Prelude.{◌≡◌, ◌-◌, ◌^◌, ◌<◌, ◌≤◌, true};
    ghost use Rattle.std.specs.List.{range_with_len};
    ghost use Rattle.call_cycles.specs.Flow.{time_of};
    ghost use Rattle.call_cycles.specs.Graph.{arc_count, component_count, is_cycle as is_a_cycle};
    ghost use Rattle.flat_report.specs.Sources.{calls_by_others, child_of, name_of, self_share, inclusive_total};
    ghost use Rattle.graph_report.specs.ArcTimes.{AreTimes, arc_times};
    ghost use Rattle.graph_report.specs.Cycles.{cycle_name as name_of_cycle, cycle_number as number_of_cycle, inner_calls};
    ghost use Rattle.graph_report.specs.Entries.{calls_of_others};
    ghost use Rattle.graph_report.specs.GraphText.{arcs_from as arcs_that_leave, arcs_into as arcs_that_enter, arcs_to as arcs_that_call, members_of};
    ghost use Rattle.graph_report.specs.Inputs.{sources_in};

    /// The name of a function.
    pub fn name(&self, f: u32) -> &'a [u8]
        requires function { f < self.now.sources.graph.now.functions }
        ensures { result.now ≡ name_of (sources_in self.now) f }
    {
        self.sources.symbols[f as usize].name.as_slice()
    }

    /// The grains of a function itself.
    pub fn share(&self, f: u32) -> u128
        requires function { f < self.now.sources.graph.now.functions }
        ensures value { result ≡ self_share (sources_in self.now) f }
        ensures within { result < 2 ^ 65 }
    {
        self.sources.shares.of(f)
    }

    /// What a function gets from those that it calls outside its cycle.
    pub fn child(&self, f: u32) -> u128
        requires function { f < self.now.sources.graph.now.functions }
        ensures value { result ≡ child_of (sources_in self.now) f }
        ensures within { result < 2 ^ 65 }
    {
        self.sources.flow.member_child(f)
    }

    /// Both together.
    #[tactic(auto, using(crate::proofs::TimeLemmas::total_small))]
    pub fn total(&self, f: u32) -> u128
        requires function { f < self.now.sources.graph.now.functions }
        ensures value { result ≡ inclusive_total (sources_in self.now) f }
        ensures within { result < 2 ^ 65 }
    {
        self.share(f) + self.child(f)
    }

    /// The time of a component, its own and that of those it calls.
    #[tactic(auto, using(crate::proofs::TimeLemmas::time_small))]
    pub fn component_total(&self, c: u32) -> u128
        requires component { c < component_count self.now.sources.graph.now }
        ensures value { result ≡ time_of self.now.sources.flow.now c }
        ensures within { result < 2 ^ 65 }
    {
        self.sources.flow.self_of(c) + self.sources.flow.child_of(c)
    }

    /// The calls of a function by others.
    #[tactic(auto, using(std::proofs::lemmas::Grind::get_or_default_zero, call_cycles::proofs::ListLemmas::list_long, call_cycles::proofs::ListLemmas::list_at))]
    pub fn calls_to(&self, f: u32) -> u64
        requires function { f < self.now.sources.graph.now.functions }
        ensures { result ≡ calls_by_others self.now.sources.graph.now f }
    {
        self.tables.calls_to[f as usize]
    }

    /// The calls of others by a function.
    #[tactic(auto, using(std::proofs::lemmas::Grind::get_or_default_zero, call_cycles::proofs::ListLemmas::list_long, call_cycles::proofs::ListLemmas::list_at))]
    pub fn calls_from(&self, f: u32) -> u64
        requires function { f < self.now.sources.graph.now.functions }
        ensures { result ≡ calls_of_others self.now.sources.graph.now f }
    {
        self.tables.calls_from[f as usize]
    }

    /// The calls between different members of a component.
    #[tactic(auto, using(std::proofs::lemmas::Grind::get_or_default_zero, call_cycles::proofs::ListLemmas::list_long, call_cycles::proofs::ListLemmas::list_at))]
    pub fn calls_inside(&self, c: u32) -> u64
        requires component { c < component_count self.now.sources.graph.now }
        ensures { result ≡ inner_calls self.now.sources.graph.now c }
    {
        self.tables.calls_inside[c as usize]
    }

    /// An arc, and what it carries: nothing inside a component, of which the flow isn't asked.
    #[tactic(auto, using(crate::proofs::TimeLemmas::times_small))]
    pub fn arc(&self, i: usize) -> ArcTimes
        requires arc { i < arc_count self.now.sources.graph.now }
        ensures value { result ≡ arc_times (sources_in self.now) i }
        ensures times { AreTimes (sources_in self.now) result }
    {
        let graph = self.sources.graph;
        let arc = graph.arc(i);
        let entered = graph.component(arc.callee);
        if graph.component(arc.caller) == entered {
            return ArcTimes {
                arc,
                own: 0,
                child: 0,
                entering: None,
            };
        }
        ArcTimes {
            arc,
            own: self.sources.flow.arc_self(i),
            child: self.sources.flow.arc_child(i),
            entering: Some(graph.entering(entered)),
        }
    }

    /// The arcs to a function, in the order of their numbers.
    pub fn arcs_to(&self, f: u32) -> &'a [usize]
        requires function { f < self.now.sources.graph.now.functions }
        ensures { result.now ≡ arcs_that_call self.now.sources.graph.now f }
    {
        self.tables.arcs_to.of(f)
    }

    /// The arcs from a function: the numbers from the first to the second one, without that.
    pub fn arcs_from(&self, f: u32) -> (usize, usize)
        requires function { f < self.now.sources.graph.now.functions }
        ensures arcs { arcs_that_leave self.now.sources.graph.now f
            ≡ range_with_len result.0 (result.1 - result.0) }
        ensures order { result.0 ≤ result.1 }
        ensures within { result.1 ≤ arc_count self.now.sources.graph.now }
    {
        // They stand in the order of their callers.
        self.sources.graph.holds();
        let f = f as usize;
        (self.tables.arcs_from[f], self.tables.arcs_from[f + 1])
    }

    /// The outside arcs into a cycle, in the order of their numbers.
    pub fn arcs_into(&self, c: u32) -> &'a [usize]
        requires component { c < component_count self.now.sources.graph.now }
        requires cycle { is_a_cycle self.now.sources.graph.now c ≡ true }
        ensures { result.now ≡ arcs_that_enter self.now.sources.graph.now c }
    {
        self.tables.arcs_into.of(c)
    }

    /// The members of a component, in the order of their addresses.
    pub fn members(&self, c: u32) -> &'a [usize]
        requires component { c < component_count self.now.sources.graph.now }
        ensures { result.now ≡ members_of self.now.sources.graph.now c }
    {
        self.tables.members.of(c)
    }

    /// The number of a cycle.
    pub fn cycle_number(&self, c: u32) -> u32
        requires component { c < component_count self.now.sources.graph.now }
        requires cycle { is_a_cycle self.now.sources.graph.now c ≡ true }
        ensures { result ≡ number_of_cycle self.now.sources.graph.now c }
    {
        self.tables.cycle_numbers[c as usize]
    }

    /// The name of a cycle as a whole.
    pub fn cycle_name(&self, c: u32) -> &'a [u8]
        requires component { c < component_count self.now.sources.graph.now }
        requires cycle { is_a_cycle self.now.sources.graph.now c ≡ true }
        ensures { result.now ≡ name_of_cycle self.now.sources.graph.now c }
    {
        self.tables.cycle_names[c as usize].as_slice()
    }
}
