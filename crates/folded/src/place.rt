//! Where the calls of a hart stand in the tree of calls.

ghost use Rattle.std.specs.Prelude.{◌≡◌, ◌≤◌, IfOk, OnOk, length, map, take};
ghost use Rattle.elf32_syms.specs.Owners.{IsAscending};
ghost use Rattle.folded.specs.Links.{AreLinked};
ghost use Rattle.folded.specs.Nodes.{HasStack, IsGrown, IsOn, IsPlaced, stack_of_node};
ghost use Rattle.folded.specs.Stacks.{caller_in};

use crate::tree::Tree;
use elf32_syms::Symbol;
use elf32_syms::pages::OwnerPages;
use std::alloc::AllocError;

/// The node of a hart's oldest calls, and how many these are. Younger ones get a node when a sample needs it. Besides,
/// the function of the hart's last sample, near which the next one mostly lies.
#[derive(Clone, Copy)]
pub(crate) struct Place {
    pub(crate) node: u32,
    pub(crate) depth: usize,
    pub(crate) near: u32,
}

impl Place {
    /// That of no call.
    pub(crate) fn new() -> Place
        ensures node { result.node ≡ 0 }
        ensures depth { result.depth ≡ 0 }
        ensures near { result.near ≡ 0 }
    {
        Place {
            node: 0,
            depth: 0,
            near: 0,
        }
    }

    /// So many calls are left.
    pub(crate) fn go_up(&mut self, tree: &Tree, calls: usize)
        requires placed { IsPlaced tree.now.nodes.items self.old }
        ensures placed { IsPlaced tree.now.nodes.items self.new }
        ensures stack { stack_of_node tree.now.nodes.items self.new.node
            ≡ take calls (stack_of_node tree.now.nodes.items self.old.node) }
    {
        while self.depth > calls {
            self.node = tree.caller(self.node);
            self.depth -= 1;
        }
    }

    /// To the node of all calls, which are to return to these addresses.
    pub(crate) fn go_down(
        &mut self,
        tree: &mut Tree,
        pages: &OwnerPages,
        symbols: &[Symbol],
        frames: &[u32],
    ) -> Result<(), AllocError>
        requires symbols { IsAscending symbols.now }
        requires linked { AreLinked tree.old.nodes.items tree.old.links.items }
        requires functions { tree.old.functions ≡ length symbols.now }
        requires on { IsOn tree.old.nodes.items (map (caller_in symbols.now) frames.now) self.old }
        requires few { length frames.now ≤ 128 }
        ensures linked { OnOk result (AreLinked tree.new.nodes.items tree.new.links.items) }
        ensures grown { OnOk result (IsGrown tree.old tree.new) }
        ensures placed { OnOk result (IsPlaced tree.new.nodes.items self.new) }
        ensures all { OnOk result (HasStack tree.new.nodes.items self.new.node
            (map (caller_in symbols.now) frames.now)) }
    {
        while self.depth < frames.len() {
            let call = frames[self.depth].wrapping_sub(4);
            let caller = pages.owner_near(symbols, self.near, call);
            self.node = tree.child(self.node, caller)?;
            self.depth += 1;
        }
        Ok(())
    }
}
