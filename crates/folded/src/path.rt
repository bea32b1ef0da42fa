//! The way down the tree of calls to a node.

ghost use Rattle.std.specs.Prelude.{◌≡◌, ◌≤◌, length, take};
ghost use Rattle.folded.specs.Nodes.{stack_of_node};
ghost use Rattle.folded.specs.Paths.{IsPath, first_path, functions_of};

use crate::tree::Tree;

/// How many functions a stack has at most: those of the calls that a shadow keeps, and the sampled one.
pub(crate) const MOST: usize = 129;

/// The functions of a stack, the oldest call first, and by number of functions the node of so many. Lines are in the
/// order of a walk, so that few functions change from one to the next. Takes no memory.
#[derive(Drop)]
pub(crate) struct Path {
    functions: [Option<u32>; MOST],
    nodes: [u32; MOST + 1],
    len: usize,
}

impl Path {
    /// That of the empty stack.
    pub(crate) fn new() -> Path
        ensures { result ≡ first_path }
    {
        Path {
            functions: [None; MOST],
            nodes: [0; MOST + 1],
            len: 0,
        }
    }

    /// The functions of the stack.
    pub(crate) fn functions(&self) -> &[Option<u32>]
        requires { self.now.len ≤ 129 }
        ensures { result.now ≡ functions_of self.now }
    {
        &self.functions[..self.len]
    }

    /// With how many of these functions the stack of a node begins.
    pub(crate) fn shared(&self, tree: &Tree, node: u32) -> usize
        requires path { IsPath tree.now.nodes.items self.now }
        requires node { node ≤ length tree.now.nodes.items }
        ensures within { result ≤ self.now.len }
        ensures other { result ≤ length (stack_of_node tree.now.nodes.items node) }
        ensures same { take result self.now.functions
            ≡ take result (stack_of_node tree.now.nodes.items node) }
    {
        let mut len = self.len;
        let mut node = node;
        while self.nodes[len] != node {
            if self.nodes[len] > node {
                len -= 1;
            } else {
                node = tree.caller(node);
            }
        }
        len
    }

    /// To the stack of a node: back to where the stacks part, and down.
    pub(crate) fn go_to(&mut self, tree: &Tree, node: u32)
        requires path { IsPath tree.now.nodes.items self.old }
        requires node { node ≤ length tree.now.nodes.items }
        ensures path { IsPath tree.now.nodes.items self.new }
        ensures stack { functions_of self.new ≡ stack_of_node tree.now.nodes.items node }
    {
        while self.nodes[self.len] > node {
            self.len -= 1;
        }
        if self.nodes[self.len] != node {
            self.go_to(tree, tree.caller(node));
            self.functions[self.len] = tree.function(node);
            self.len += 1;
            self.nodes[self.len] = node;
        }
    }
}
