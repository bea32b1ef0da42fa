//! How many samples have each stack, and each function.

ghost use Rattle.std.specs.Prelude.{◌≡◌, ◌+◌, ◌^◌, ◌<◌, ◌≤◌, ℕ, List, [], Option, All, IfOk, map, length, replicate, slice_index, slice_index_or};
ghost use Rattle.folded.specs.Nodes.{IsTreeOf, any_stack, line_of_node, samples_of_lines, stack_of_node};
ghost use Rattle.folded.specs.Paths.{IsPath, functions_of};
ghost use Rattle.folded.specs.Stacks.{AreBelow, has_function};
ghost use Rattle.folded.specs.Tally.{AreOn, Folds, HasMoved, HaveMoved, counted_by, mark_at, places_in};

use crate::path::Path;
use crate::tree::Tree;
use std::alloc::{AllocError, Global};
use std::marker::Model;
use std::mem;

/// How many samples have a function. While it is on the stack of a line, those that passed since it came there aren't
/// counted yet.
#[derive(Clone, Copy)]
pub struct Mark {
    count: u64,
    /// On how many places of the stack it is.
    places: u32,
    /// How many samples had passed when it came there.
    since: u64,
}

impl Mark {
    /// The function comes onto one more place.
    fn enter(&mut self, passed: u64)
        requires places { self.old.places + 1 < 2 ^ 32 }
        requires since { self.old.since ≤ passed }
        ensures { HasMoved passed 0 1 self.old self.new }
    {
        if self.places == 0 {
            self.since = passed;
        }
        self.places += 1;
    }

    /// It leaves one of its places.
    fn leave(&mut self, passed: u64)
        requires places { 0 < self.old.places }
        requires since { self.old.since ≤ passed }
        requires counted { counted_by passed self.old < 2 ^ 62 }
        ensures { HasMoved passed 1 0 self.old self.new }
    {
        self.places -= 1;
        if self.places == 0 {
            self.count += passed - self.since;
        }
    }
}

/// The samples of a run, stack by stack. Contracts see the stacks in order, each with its number of
/// samples, and for each function how many samples have it.
#[derive(Drop)]
pub struct Folded {
    tree: Tree,
    order: Vec<u32>,
    marks: Vec<Mark>,
}

impl Model for Folded {
    ghost use Rattle.folded.specs.Tally.{FoldedValue, IsMarked, value_of};

    ghost Value = { FoldedValue };

    ghost view = { value_of };

    ghost invariant = { IsMarked };
}

impl Folded {
    /// The samples of a tree.
    pub(crate) fn of(alloc: Global, tree: Tree) -> Result<Folded, AllocError>
        requires total { tree.total < 2 ^ 62 }
        ensures folds { IfOk result (λ f. (stacks : List (List (Option ℕ))) → IsTreeOf stacks tree
            → Folds tree.functions stacks f) }
        ensures functions { IfOk result (λ f. length f.inclusive ≡ tree.functions) }
    {
        let mut tree = tree;
        let links = mem::replace(&mut tree.links, Vec::new(alloc));
        let order = tree.in_order(alloc, links)?;
        let marks = marks_of(alloc, &tree, order.as_slice())?;
        Ok(Folded { tree, order, marks })
    }

    /// The number of functions.
    pub fn function_count(&self) -> u32
        ensures { result ≡ length self.now.inclusive }
    {
        self.marks.len() as u32
    }

    /// The number of different stacks.
    pub fn line_count(&self) -> usize
        ensures { result ≡ length self.now.lines }
    {
        self.order.len()
    }

    /// The number of samples.
    pub fn total(&self) -> u64
        ensures { result ≡ self.now.total }
    {
        self.tree.total
    }

    /// The number of samples whose stack has this function at least once.
    pub fn inclusive(&self, f: u32) -> u64
        requires { f < length self.now.inclusive }
        ensures { result ≡ slice_index self.now.inclusive f }
    {
        self.marks[f as usize].count
    }

    /// The nodes of the lines, and the tree that has them.
    pub(crate) fn nodes(&self) -> (&Tree, &[u32])
        ensures within { All (λ n. n ≤ length result.0.now.nodes.items) result.1.now }
        ensures lines { self.now.lines ≡ map (line_of_node result.0.now) result.1.now }
    {
        (&self.tree, self.order.as_slice())
    }
}

/// For each function how many samples have it, where these nodes are those that have samples.
fn marks_of(alloc: Global, tree: &Tree, order: &[u32]) -> Result<Vec<Mark>, AllocError>
    requires total { tree.now.total < 2 ^ 62 }
    requires order { All (λ n. n ≤ length tree.now.nodes.items) order.now }
    requires samples { samples_of_lines any_stack (map (line_of_node tree.now) order.now)
        ≤ tree.now.total }
    ensures functions { IfOk result (λ marks. length marks.items ≡ tree.now.functions) }
    ensures counts { IfOk result (λ marks. (g : ℕ) → g < tree.now.functions
        → (mark_at marks.items g).count ≡ samples_of_lines (has_function g)
        (map (line_of_node tree.now) order.now)) }
{
    let mut marks = blank_marks(alloc, tree.functions as usize)?;
    let mut path = Path::new();
    let mut passed = 0;
    for i in 0..order.len() {
        move_to(&mut path, tree, order[i], marks.as_mut_slice(), passed);
        passed += tree.samples(order[i]);
    }
    leave_all(marks.as_mut_slice(), path.functions(), passed);
    Ok(marks)
}

/// Marks of functions that no sample has.
fn blank_marks(alloc: Global, functions: usize) -> Result<Vec<Mark>, AllocError>
    ensures { IfOk result (λ marks. marks.items ≡ replicate functions
        (record { count = 0; places = 0; since = 0 })) }
{
    let blank = Mark {
        count: 0,
        places: 0,
        since: 0,
    };
    vec![in alloc; blank; functions]
}

/// From the stack of a line to that of the next one, where so many samples have passed.
fn move_to(path: &mut Path, tree: &Tree, node: u32, marks: &mut [Mark], passed: u64)
    requires path { IsPath tree.now.nodes.items path.old }
    requires node { node ≤ length tree.now.nodes.items }
    requires functions { length marks.old ≡ tree.now.functions }
    requires marks { AreOn passed (functions_of path.old) marks.old }
    ensures path { IsPath tree.now.nodes.items path.new }
    ensures stack { functions_of path.new ≡ stack_of_node tree.now.nodes.items node }
    ensures moved { HaveMoved passed (functions_of path.old) (functions_of path.new)
        marks.old marks.new }
{
    let shared = path.shared(tree, node);
    leave_all(marks, &path.functions()[shared..], passed);
    path.go_to(tree, node);
    enter_all(marks, &path.functions()[shared..], passed);
}

/// These functions come onto the stack, where so many samples have passed.
fn enter_all(marks: &mut [Mark], functions: &[Option<u32>], passed: u64)
    requires functions { AreBelow (length marks.old) functions.now }
    requires few { length functions.now ≤ 129 }
    requires places { All (λ m. m.places ≤ 129) marks.old }
    requires since { All (λ m. m.since ≤ passed) marks.old }
    ensures { HaveMoved passed [] functions.now marks.old marks.new }
{
    for i in 0..functions.len() {
        if let Some(f) = functions[i] {
            marks[f as usize].enter(passed);
        }
    }
}

/// These functions leave the stack, where so many samples have passed.
fn leave_all(marks: &mut [Mark], functions: &[Option<u32>], passed: u64)
    requires functions { AreBelow (length marks.old) functions.now }
    requires places { (g : ℕ) → g < length marks.old
        → places_in functions.now g ≤ (mark_at marks.old g).places }
    requires since { All (λ m. m.since ≤ passed) marks.old }
    requires counted { All (λ m. counted_by passed m < 2 ^ 62) marks.old }
    ensures { HaveMoved passed functions.now [] marks.old marks.new }
{
    for i in 0..functions.len() {
        if let Some(f) = functions[i] {
            marks[f as usize].leave(passed);
        }
    }
}
