//! The shadows and the samples of a run, turn by turn.

ghost use Rattle.std.specs.Prelude.{◌≡◌, ◌+◌, ◌^◌, ◌<◌, ◌≤◌, ℕ, List, ◌++◌, IfOk, OnOk, length, replicate, slice_set};
ghost use Rattle.elf32_syms.specs.declared.image.Symbol.{Symbol as AnySymbol};
ghost use Rattle.elf32_syms.specs.Owners.{IsAscending};
ghost use Rattle.folded.specs.Folding.{Follows, HasRoom, IsTracked, WithShadow};
ghost use Rattle.folded.specs.Nodes.{IsTreeOf};
ghost use Rattle.folded.specs.Shadow.{after_hook, after_ran, empty_shadow};
ghost use Rattle.folded.specs.Stacks.{stacks_of};
ghost use Rattle.folded.specs.Trail.{StackSample, Trail, first_trail, shadow_of, stack_samples, trail_with};

use crate::place::Place;
use crate::shadow::{ShadowStack, keeps_shadow};
use crate::tree::Tree;
use elf32_syms::Symbol;
use elf32_syms::owners::symbol_count;
use elf32_syms::pages::OwnerPages;
use prof_machine::{Ran, TurnNote};
use std::alloc::{AllocError, Global};

/// The shadows of all harts, where each stands in the tree of calls, and the samples so far.
#[derive(Drop)]
pub(crate) struct Tracker {
    pub(crate) shadows: Vec<ShadowStack>,
    pub(crate) places: Vec<Place>,
    pub(crate) tree: Tree,
    pages: OwnerPages,
}

impl Tracker {
    /// Before the first turn of a program with these symbols.
    pub(crate) fn new(alloc: Global, symbols: &[Symbol], harts: u32) -> Result<Tracker, AllocError>
        requires symbols { IsAscending symbols.now }
        ensures follows { IfOk result (Follows symbols.now (first_trail harts)) }
        ensures tracked { IfOk result (IsTracked symbols.now) }
        ensures total { IfOk result (λ t. t.tree.total ≡ 0) }
        ensures harts { IfOk result (λ t. t.shadows.items ≡ replicate harts empty_shadow) }
    {
        Ok(Tracker {
            shadows: first_shadows(alloc, harts)?,
            places: vec![in alloc; Place::new(); harts as usize]?,
            tree: Tree::new(alloc, symbol_count(symbols))?,
            pages: OwnerPages::new(alloc, symbols)?,
        })
    }

    /// One more turn, of this hart: the instruction comes first, then the sample, then the return from a
    /// hook. It is inlined with what it does: of most instructions no more is decoded than that they are no jump.
    #[inline(always)]
    pub(crate) fn follow(
        &mut self,
        symbols: &[Symbol],
        hart: u32,
        note: TurnNote,
    ) -> Result<(), AllocError>
        requires symbols { IsAscending symbols.now }
        requires hart { hart < length self.old.shadows.items }
        requires room { HasRoom (2 ^ 62) self.old.shadows.items }
        requires total { self.old.tree.total < 2 ^ 62 }
        requires tracked { IsTracked symbols.now self.old }
        ensures follows { OnOk result ((t : Trail) → Follows symbols.now t self.old
            → Follows symbols.now (trail_with hart note t) self.new) }
        ensures harts { OnOk result (length self.new.shadows.items
            ≡ length self.old.shadows.items) }
        ensures tracked { OnOk result (IsTracked symbols.now self.new) }
        ensures total { OnOk result (self.new.tree.total ≤ self.old.tree.total + 1) }
        ensures room { OnOk result ((turns : ℕ) → HasRoom turns self.old.shadows.items
            → HasRoom (turns + 1) self.new.shadows.items) }
    {
        self.run(hart, note.ran);
        self.sample(symbols, hart, note.sample)?;
        self.leave_hook(hart, note.returned);
        Ok(())
    }

    /// An instruction of this hart has retired, if there is one: it may be a call or a return.
    #[inline(always)]
    fn run(&mut self, hart: u32, ran: Option<Ran>)
        requires hart { hart < length self.old.shadows.items }
        requires room { HasRoom (2 ^ 62) self.old.shadows.items }
        requires tracked { (symbols : List AnySymbol) × IsTracked symbols self.old }
        ensures { WithShadow hart (after_ran ran (shadow_of self.old.shadows.items hart))
            self.old self.new }
    {
        if keeps_shadow(&ran) {
            return;
        }
        let shadow = &mut self.shadows[hart as usize];
        let place = &mut self.places[hart as usize];
        shadow.run(ran);
        place.go_up(&self.tree, shadow.frames().len());
    }

    /// This hart has left a hook, if it has, and goes on at this address.
    #[inline(always)]
    fn leave_hook(&mut self, hart: u32, to: Option<u32>)
        requires hart { hart < length self.old.shadows.items }
        requires tracked { (symbols : List AnySymbol) × IsTracked symbols self.old }
        ensures { WithShadow hart (after_hook to (shadow_of self.old.shadows.items hart))
            self.old self.new }
    {
        if to.is_none() {
            return;
        }
        let shadow = &mut self.shadows[hart as usize];
        let place = &mut self.places[hart as usize];
        shadow.leave_hook(to);
        place.go_up(&self.tree, shadow.frames().len());
    }

    /// One more sample of this hart, if there is one and it lies in a function.
    #[inline(always)]
    fn sample(&mut self, symbols: &[Symbol], hart: u32, pc: Option<u32>) -> Result<(), AllocError>
        requires symbols { IsAscending symbols.now }
        requires hart { hart < length self.old.shadows.items }
        requires total { self.old.tree.total < 2 ^ 62 }
        requires tracked { IsTracked symbols.now self.old }
        ensures shadows { OnOk result (self.new.shadows.items ≡ self.old.shadows.items) }
        ensures tracked { OnOk result (IsTracked symbols.now self.new) }
        ensures total { OnOk result (self.new.tree.total ≤ self.old.tree.total + 1) }
        ensures samples { OnOk result ((samples : List StackSample)
            → IsTreeOf (stacks_of symbols.now samples) self.old.tree
            → IsTreeOf (stacks_of symbols.now (samples ++ stack_samples pc
            (shadow_of self.old.shadows.items hart).frames)) self.new.tree) }
    {
        let Some(pc) = pc else {
            return Ok(());
        };
        let place = &mut self.places[hart as usize];
        let Some(f) = self.pages.owner_near(symbols, place.near, pc) else {
            return Ok(());
        };
        place.near = f;
        let frames = self.shadows[hart as usize].frames();
        place.go_down(&mut self.tree, &self.pages, symbols, frames)?;
        let node = self.tree.child(place.node, Some(f))?;
        self.tree.add(node);
        Ok(())
    }
}

/// The shadows of harts that have made no call.
fn first_shadows(alloc: Global, harts: u32) -> Result<Vec<ShadowStack>, AllocError>
    ensures { IfOk result (λ list. list.items ≡ replicate harts empty_shadow) }
{
    let mut shadows = Vec::new(alloc);
    for _hart in 0..harts {
        shadows.push(ShadowStack::new())?;
    }
    Ok(shadows)
}
