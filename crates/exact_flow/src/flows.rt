//! The exact times of components, and what arcs carry of them.

ghost use Rattle.std.specs.Prelude.{◌≡◌, ◌<◌, length, slice_index};
ghost use Rattle.fraction128.specs.Values.{value_of};
ghost use Rattle.exact_flow.specs.Times.{time_at};
ghost use Rattle.exact_flow.specs.Fields.{FitsPart, carried_part};

use crate::step::whole;
use fraction128::Frac;
use std::marker::Model;

/// How time flows over a graph, with nothing rounded. All times are in grains. Components and arcs have
/// the numbers that they have in the graph. No accessor takes memory.
///
/// What an arc carries isn't kept: it is a part of its callee's times, and is found where it is asked for.
#[derive(Drop)]
pub struct ExactFlow {
    pub(crate) selves: Vec<u128>,
    pub(crate) children: Vec<Frac>,
    /// The calls that enter each component from another one.
    pub(crate) entering: Vec<u64>,
    /// The calls of each arc; 0 for an arc inside a cycle.
    pub(crate) calls: Vec<u64>,
    /// The component of each arc's callee.
    pub(crate) callees: Vec<u32>,
    pub(crate) outside: Vec<u32>,
}

impl Model for ExactFlow {
    ghost use Rattle.exact_flow.specs.Times.{ExactFlowValue};

    ghost Value = { ExactFlowValue };

    ghost use Rattle.exact_flow.specs.Fields.{times_of, IsHeld};

    ghost view = { times_of };

    ghost invariant = { IsHeld };
}

/// What an arc carries of a time of the component that it enters, with so many of the calls that enter that.
#[tactic(auto, using(crate::proofs::PartLemmas::none_carried, crate::proofs::PartLemmas::some_carried))]
fn carried(time: &Frac, calls: u64, entering: u64) -> Frac
    requires { FitsPart (value_of time.now) calls entering }
    ensures { value_of result ≡ carried_part (value_of time.now) calls entering }
{
    if calls == 0 {
        return whole(0);
    }
    let part = Frac::new(u128::from(calls), u128::from(entering)).unwrap();
    time.mul(&part).unwrap()
}

impl ExactFlow {
    /// The shares of a component's members.
    pub fn self_of(&self, c: u32) -> u128
        requires { c < length self.now.self }
        ensures { result ≡ slice_index self.now.self c }
    {
        self.selves[c as usize]
    }

    /// What a component gets from those that it calls.
    pub fn child_of(&self, c: u32) -> Frac
        requires { c < length self.now.child }
        ensures { value_of result ≡ time_at self.now.child c }
    {
        self.children[c as usize]
    }

    /// What an arc carries of its callee's self time, or of that of the callee's cycle; 0 for an arc
    /// inside a cycle.
    pub fn arc_self(&self, i: usize) -> Frac
        requires { i < length self.now.arc_self }
        ensures { value_of result ≡ time_at self.now.arc_self i }
    {
        let d = self.callees[i] as usize;
        carried(&whole(self.selves[d]), self.calls[i], self.entering[d])
    }

    /// What an arc carries of its callee's child time, or of that of the callee's cycle; 0 for an arc
    /// inside a cycle.
    pub fn arc_child(&self, i: usize) -> Frac
        requires { i < length self.now.arc_child }
        ensures { value_of result ≡ time_at self.now.arc_child i }
    {
        let d = self.callees[i] as usize;
        carried(&self.children[d], self.calls[i], self.entering[d])
    }

    /// The numbers of the outside arcs in order: those that leave lower components first, and of one component
    /// lower numbers.
    pub fn outside_arcs(&self) -> &[u32]
        ensures { result.now ≡ self.now.outside }
    {
        self.outside.as_slice()
    }
}
