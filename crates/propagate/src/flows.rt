//! The times of components and functions, and what arcs carry of them.

ghost use Rattle.std.specs.Prelude.{◌≡◌, ◌<◌, length, slice_index};

use std::marker::Model;

/// What an arc carries of its callee's self time, and of its child time.
#[derive(Clone, Copy)]
pub(crate) struct ArcTimes {
    pub(crate) own: u128,
    pub(crate) child: u128,
}

/// How time flows over a graph. All times are in grains. Functions, components and arcs have the numbers
/// that they have in the graph. No accessor takes memory.
#[derive(Drop)]
pub struct Flow {
    pub(crate) selves: Vec<u128>,
    pub(crate) children: Vec<u128>,
    pub(crate) arcs: Vec<ArcTimes>,
    pub(crate) member_children: Vec<u128>,
}

impl Model for Flow {
    ghost use Rattle.call_cycles.specs.Flow.{FlowValue};

    ghost Value = { FlowValue };

    ghost use Rattle.propagate.specs.Fields.{value_of};

    ghost view = { value_of };
}

impl Flow {
    /// The shares of a component's members.
    pub fn self_of(&self, c: u32) -> u128
        requires { c < length self.now.self }
        ensures { result ≡ slice_index self.now.self c }
    {
        self.selves[c as usize]
    }

    /// What a component gets from those that it calls.
    pub fn child_of(&self, c: u32) -> u128
        requires { c < length self.now.child }
        ensures { result ≡ slice_index self.now.child c }
    {
        self.children[c as usize]
    }

    /// What an arc carries of its callee's self time, or of that of the callee's cycle; 0 for an arc
    /// inside a cycle.
    pub fn arc_self(&self, i: usize) -> u128
        requires { i < length self.now.arc_self }
        ensures { result ≡ slice_index self.now.arc_self i }
    {
        self.arcs[i].own
    }

    /// What an arc carries of its callee's child time, or of that of the callee's cycle; 0 for an arc
    /// inside a cycle.
    pub fn arc_child(&self, i: usize) -> u128
        requires { i < length self.now.arc_child }
        ensures { result ≡ slice_index self.now.arc_child i }
    {
        self.arcs[i].child
    }

    /// What a function gets over the arcs that leave it, but for those inside its cycle.
    pub fn member_child(&self, f: u32) -> u128
        requires { f < length self.now.member_child }
        ensures { result ≡ slice_index self.now.member_child f }
    {
        self.member_children[f as usize]
    }
}
