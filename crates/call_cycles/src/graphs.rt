//! A graph of functions: arcs, components and their order.

ghost use Rattle.std.specs.Prelude.{◌≡◌, ◌≢◌, ◌<◌, ◌^◌, ℕ, slice_index};
ghost use Rattle.call_cycles.specs.Graph.{IsGraph, IsArcBefore, arc_count, arc_at, component_count, component_of, head_of, entering_of, is_cycle};

use std::marker::Model;

/// Calls of one function by another one. Functions are counted from 0, as their symbols are.
#[derive(Clone, Copy, Debug, PartialEq, Eq)]
pub struct FunArc {
    pub caller: u32,
    pub callee: u32,
    pub count: u64,
}

/// Functions and the calls between them. Contracts see its functions, arcs and components.
///
/// Two functions are in one component exactly where each reaches the other over arcs, or they are
/// the same. A component of two or more is a cycle. No accessor takes memory.
#[derive(Drop)]
pub struct Graph {
    pub(crate) functions: u32,
    pub(crate) arcs: Vec<FunArc>,
    pub(crate) self_calls: Vec<u64>,
    pub(crate) component: Vec<u32>,
    pub(crate) heads: Vec<u32>,
    pub(crate) members: Vec<u32>,
    pub(crate) entering: Vec<u64>,
}

impl Model for Graph {
    ghost use Rattle.call_cycles.specs.Graph.{GraphValue};

    ghost Value = { GraphValue };

    ghost use Rattle.call_cycles.specs.Fields.{value_of, IsHeld};

    ghost view = { value_of };

    ghost invariant = { IsHeld };
}

impl Graph {
    /// What is true of each graph. Does nothing.
    pub fn holds(&self)
        ensures graph { IsGraph self.now }
        ensures few { self.now.functions < 2 ^ 32 }
    {
        let _functions = self.functions;
    }

    /// The number of functions.
    pub fn function_count(&self) -> u32
        ensures value { result ≡ self.now.functions }
        ensures graph { IsGraph self.now }
    {
        self.functions
    }

    /// The number of arcs.
    pub fn arc_count(&self) -> usize
        ensures value { result ≡ arc_count self.now }
        ensures graph { IsGraph self.now }
    {
        self.arcs.len()
    }

    /// The arc with the given number, in order of caller, then callee.
    pub fn arc(&self, i: usize) -> FunArc
        requires { i < arc_count self.now }
        ensures value { result ≡ arc_at self.now i }
        ensures callers { result.caller < self.now.functions }
        ensures callees { result.callee < self.now.functions }
        ensures called { 0 < result.count }
        ensures apart { result.caller ≢ result.callee }
        ensures rising { (j : ℕ) → j < i → IsArcBefore (arc_at self.now j) result }
    {
        self.arcs[i]
    }

    /// The calls of a function by itself.
    pub fn self_calls(&self, f: u32) -> u64
        requires { f < self.now.functions }
        ensures { result ≡ slice_index self.now.self_calls f }
    {
        self.self_calls[f as usize]
    }

    /// The component of a function.
    pub fn component(&self, f: u32) -> u32
        requires { f < self.now.functions }
        ensures value { result ≡ component_of self.now f }
        ensures within { result < component_count self.now }
    {
        self.component[f as usize]
    }

    /// The number of components.
    pub fn component_count(&self) -> u32
        ensures value { result ≡ component_count self.now }
        ensures graph { IsGraph self.now }
    {
        self.heads.len() as u32
    }

    /// The head of a component: its member with the least address.
    pub fn head(&self, c: u32) -> u32
        requires { c < component_count self.now }
        ensures value { result ≡ head_of self.now c }
        ensures within { result < self.now.functions }
    {
        self.heads[c as usize]
    }

    /// The calls of the arcs that enter a component from another one.
    pub fn entering(&self, c: u32) -> u64
        requires { c < component_count self.now }
        ensures { result ≡ entering_of self.now c }
    {
        self.entering[c as usize]
    }

    /// Whether a component has two or more members.
    pub fn is_cycle(&self, c: u32) -> bool
        requires { c < component_count self.now }
        ensures { result ≡ is_cycle self.now c }
    {
        self.members[c as usize] > 1
    }
}
