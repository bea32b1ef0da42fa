//! How nodes of a tree of calls are found and made, and samples counted.

ghost use Rattle.std.specs.Prelude.{◌≡◌, ◌+◌, ◌^◌, ◌<◌, ◌≤◌, ◌↔◌, ℕ, List, [], ◌∷◌, ◌++◌, Option, None, IfOk, IfSome, IsTrue, true, OnOk, length, slice_index, slice_index_or};
ghost use Rattle.folded.specs.Links.{AreLinked, EndsAt, IsReached, link_at, node_of};
ghost use Rattle.folded.specs.Nodes.{HasStack, IsGrown, IsInOrder, IsTreeOf, called_of, node_cmp, numbers_from, stack_of_node};

use crate::links::{Links, Side, side_of};
use crate::order::arrange;
use crate::tree::Tree;
use std::alloc::{AllocError, Global};
use std::cmp::Ordering;

impl Tree {
    /// No call and no sample, for so many functions.
    pub(crate) fn new(alloc: Global, functions: u32) -> Result<Tree, AllocError>
        ensures linked { IfOk result (λ t. AreLinked t.nodes.items t.links.items) }
        ensures none { IfOk result (IsTreeOf []) }
        ensures functions { IfOk result (λ t. t.functions ≡ functions) }
        ensures total { IfOk result (λ t. t.total ≡ 0) }
    {
        Ok(Tree {
            nodes: Vec::new(alloc),
            links: vec![in alloc; Links::none(); 1]?,
            counts: vec![in alloc; 0u64; 1]?,
            total: 0,
            functions,
            last: 0,
        })
    }

    /// The node of a function that a stack calls, which is made where there is none.
    #[inline(always)]
    pub(crate) fn child(&mut self, caller: u32, function: Option<u32>) -> Result<u32, AllocError>
        requires linked { AreLinked self.old.nodes.items self.old.links.items }
        requires caller { caller ≤ length self.old.nodes.items }
        requires depth { length (stack_of_node self.old.nodes.items caller) < 129 }
        requires function { IfSome function (λ f. f < self.old.functions) }
        ensures linked { OnOk result (AreLinked self.new.nodes.items self.new.links.items) }
        ensures grown { OnOk result (IsGrown self.old self.new) }
        ensures node { IfOk result (λ n. HasStack self.new.nodes.items n
            (stack_of_node self.old.nodes.items caller ++ function ∷ [])) }
    {
        if self.is_last(caller, function) {
            return Ok(self.last as u32 + 1);
        }
        self.find(caller, function)
    }

    /// The same, of one that wasn't asked for last.
    #[inline(never)]
    fn find(&mut self, caller: u32, function: Option<u32>) -> Result<u32, AllocError>
        requires linked { AreLinked self.old.nodes.items self.old.links.items }
        requires caller { caller ≤ length self.old.nodes.items }
        requires depth { length (stack_of_node self.old.nodes.items caller) < 129 }
        requires function { IfSome function (λ f. f < self.old.functions) }
        ensures linked { OnOk result (AreLinked self.new.nodes.items self.new.links.items) }
        ensures grown { OnOk result (IsGrown self.old self.new) }
        ensures node { IfOk result (λ n. HasStack self.new.nodes.items n
            (stack_of_node self.old.nodes.items caller ++ function ∷ [])) }
    {
        if self.nodes.len() >= u32::MAX as usize {
            return Err(AllocError);
        }
        let (above, side) = self.seek(caller, function);
        let node = self.link(above, side);
        if node == 0 {
            return self.make(caller, function, above, side);
        }
        self.last = node as usize - 1;
        Ok(node)
    }

    /// A node that wasn't there, behind an empty link of another one.
    fn make(
        &mut self,
        caller: u32,
        function: Option<u32>,
        above: u32,
        side: Side,
    ) -> Result<u32, AllocError>
        requires linked { AreLinked self.old.nodes.items self.old.links.items }
        requires caller { caller ≤ length self.old.nodes.items }
        requires depth { length (stack_of_node self.old.nodes.items caller) < 129 }
        requires function { IfSome function (λ f. f < self.old.functions) }
        requires few { length self.old.nodes.items + 1 < 2 ^ 32 }
        requires reached { IsReached self.old.nodes.items self.old.links.items caller function above
            side }
        requires empty { link_at self.old.links.items above side ≡ 0 }
        ensures linked { OnOk result (AreLinked self.new.nodes.items self.new.links.items) }
        ensures grown { OnOk result (IsGrown self.old self.new) }
        ensures node { IfOk result (λ n. HasStack self.new.nodes.items n
            (stack_of_node self.old.nodes.items caller ++ function ∷ [])) }
    {
        self.counts.reserve(1)?;
        self.last = self.nodes.len();
        self.nodes.push((caller, function))?;
        self.counts.push(0)?;
        self.links.push(Links::none())?;
        let node = self.nodes.len() as u32;
        self.links[above as usize].set(side, node);
        Ok(node)
    }

    /// The link to the node of a function that a stack calls, or the empty one that is to be it. It follows no more than
    /// 33 links: the nodes behind a link have the bits of their functions in common that led to it.
    fn seek(&self, caller: u32, function: Option<u32>) -> (u32, Side)
        requires linked { AreLinked self.now.nodes.items self.now.links.items }
        requires caller { caller ≤ length self.now.nodes.items }
        ensures reached { IsReached self.now.nodes.items self.now.links.items caller function
            result.0 result.1 }
        ensures ends { EndsAt self.now.nodes.items caller function
            (link_at self.now.links.items result.0 result.1) }
    {
        let mut above = caller;
        let mut side = Side::Callees;
        let mut bits = function.unwrap_or(0);
        'nodes: loop {
            let node = self.link(above, side);
            if node == 0 {
                return (above, side);
            }
            if self.is_node(node, caller, function) {
                return (above, side);
            }
            above = node;
            side = side_of(bits);
            bits /= 2;
        }
    }

    /// The node that a node has a link to, and 0 for none.
    fn link(&self, node: u32, side: Side) -> u32
        requires { node < length self.now.links.items }
        ensures { result ≡ link_at self.now.links.items node side }
    {
        self.links[node as usize].get(side)
    }

    /// Whether a node is that of a function that a stack calls.
    fn is_node(&self, node: u32, caller: u32, function: Option<u32>) -> bool
        ensures { IsTrue result ↔ (node_of self.now.nodes.items node ≡ (caller, function)) }
    {
        let (its_caller, its_function) = self.node(node);
        its_caller == caller && its_function == function
    }

    /// Whether this child was asked for last, as it mostly is when samples are near each other.
    fn is_last(&self, caller: u32, function: Option<u32>) -> bool
        ensures { result ≡ true → (self.now.last < length self.now.nodes.items)
            × (slice_index_or self.now.nodes.items self.now.last (0, None) ≡ (caller, function)) }
    {
        match self.nodes.get(self.last) {
            Some(node) => node.0 == caller && node.1 == function,
            None => false,
        }
    }

    /// One more sample with the stack of this node.
    pub(crate) fn add(&mut self, node: u32)
        requires node { node ≤ length self.old.nodes.items }
        requires total { self.old.total < 2 ^ 62 }
        ensures nodes { self.new.nodes.items ≡ self.old.nodes.items }
        ensures linked { AreLinked self.old.nodes.items self.old.links.items
            → AreLinked self.new.nodes.items self.new.links.items }
        ensures functions { self.new.functions ≡ self.old.functions }
        ensures total { self.new.total ≡ self.old.total + 1 }
        ensures one_more { (stacks : List (List (Option ℕ))) → IsTreeOf stacks self.old
            → IsTreeOf (stacks ++ stack_of_node self.old.nodes.items node ∷ []) self.new }
    {
        self.counts[node as usize] += 1;
        self.total += 1;
    }

    /// The number of samples with the stack of this node.
    pub(crate) fn samples(&self, node: u32) -> u64
        requires { node < length self.now.counts.items }
        ensures { result ≡ slice_index self.now.counts.items node }
    {
        self.counts[node as usize]
    }

    /// The node of its caller; 0 where there is none.
    pub(crate) fn caller(&self, node: u32) -> u32
        ensures { result ≡ (node_of self.now.nodes.items node).0 }
    {
        self.node(node).0
    }

    /// The function of a node.
    pub(crate) fn function(&self, node: u32) -> Option<u32>
        ensures { result ≡ (node_of self.now.nodes.items node).1 }
    {
        self.node(node).1
    }

    fn node(&self, node: u32) -> (u32, Option<u32>)
        ensures { result ≡ node_of self.now.nodes.items node }
    {
        if node == 0 {
            return (0, None);
        }
        match self.nodes.get(node as usize - 1) {
            Some(node) => *node,
            None => (0, None),
        }
    }

    /// How the stacks of two nodes compare; the last node's stands for those of all numbers above it.
    pub(crate) fn compare(&self, a: u32, b: u32) -> Ordering
        ensures { result ≡ node_cmp self.now.nodes.items a b }
    {
        let last = self.nodes.len() as u32;
        let (mut x, mut y) = (a.min(last), b.min(last));
        let (mut below_x, mut below_y) = (0, 0);
        while x != y {
            if x > y {
                below_x = x;
                x = self.caller(x);
            } else {
                below_y = y;
                y = self.caller(y);
            }
        }
        self.called(below_x).cmp(&self.called(below_y))
    }

    /// The function of a node, if it is one.
    fn called(&self, node: u32) -> Option<Option<u32>>
        ensures { result ≡ called_of self.now.nodes.items node }
    {
        if node == 0 {
            return None;
        }
        Some(self.function(node))
    }

    /// The nodes whose stacks samples have, by their numbers.
    fn sampled(&self, alloc: Global) -> Result<Vec<u32>, AllocError>
        requires { length self.now.counts.items ≤ 2 ^ 32 }
        ensures { IfOk result (λ numbers. numbers.items ≡ numbers_from 0 self.now.counts.items) }
    {
        let mut numbers = Vec::new(alloc);
        for n in 0..self.counts.len() {
            if self.counts[n] > 0 {
                numbers.push(n as u32)?;
            }
        }
        Ok(numbers)
    }

    /// The nodes whose stacks samples have, in the order of these.
    pub(crate) fn in_order(&self, alloc: Global, links: Vec<Links>) -> Result<Vec<u32>, AllocError>
        ensures { IfOk result (λ order. IsInOrder self.now order.items) }
    {
        let mut links = links;
        let mut numbers = self.sampled(alloc)?;
        arrange(alloc, self, links.as_mut_slice(), numbers.as_mut_slice())?;
        numbers.sort_unstable_by(|a, b| self.compare(*a, *b));
        Ok(numbers)
    }
}
