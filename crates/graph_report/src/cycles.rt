//! The numbers and names of cycles.

ghost use Rattle.std.specs.Prelude.{◌≡◌, ◌<◌, ◌++◌, ◌==◌, ◌&&◌, ℕ, true, IfOk, codes, length, slice_index, decimal};
ghost use Rattle.call_cycles.specs.Graph.{component_count, head_of, is_cycle};
ghost use Rattle.graph_report.specs.Cycles.{cycle_number};
ghost use Rattle.graph_report.specs.Groups.{AreNames};

use call_cycles::Graph;
use std::alloc::{AllocError, Global};
use text_cols::Line;

/// Whether a component is a cycle that has function `f` as its head.
fn is_head(graph: &Graph, f: u32, c: u32) -> bool
    requires { c < component_count graph.now }
    ensures { result ≡ (is_cycle graph.now c && head_of graph.now c == f) }
{
    graph.is_cycle(c) && graph.head(c) == f
}

/// The number of each cycle, by its component. A component that is no cycle has 0.
pub(crate) fn cycle_numbers(alloc: Global, graph: &Graph) -> Result<Vec<u32>, AllocError>
    ensures len { IfOk result (λ v. length v.items ≡ component_count graph.now) }
    ensures numbers { IfOk result (λ v. (c : ℕ) → c < component_count graph.now
        → is_cycle graph.now c ≡ true → slice_index v.items c ≡ cycle_number graph.now c) }
{
    let mut numbers = vec![in alloc; 0u32; graph.component_count() as usize]?;
    let mut count = 0;
    for f in 0..graph.function_count() {
        let c = graph.component(f);
        if is_head(graph, f, c) {
            count += 1;
            numbers[c as usize] = count;
        }
    }
    Ok(numbers)
}

/// The name of the cycle of that number, as a whole.
#[tactic(auto, using(text_cols::proofs::Lengths::lengths))]
fn name_of(alloc: Global, number: u32) -> Result<Vec<u8>, AllocError>
    ensures { IfOk result (λ v. v.items
        ≡ codes "<cycle " ++ decimal number ++ codes " as a whole>") }
{
    let mut line = Line::new();
    line.put(b"<cycle ");
    line.decimal(u128::from(number));
    line.put(b" as a whole>");
    Vec::from_slice(alloc, line.bytes())
}

/// The name of each cycle, by its component. A component that is no cycle has none.
pub(crate) fn cycle_names(
    alloc: Global,
    graph: &Graph,
    numbers: &[u32],
) -> Result<Vec<Vec<u8>>, AllocError>
    requires len { length numbers.now ≡ component_count graph.now }
    requires numbers { (c : ℕ) → c < component_count graph.now → is_cycle graph.now c ≡ true
        → slice_index numbers.now c ≡ cycle_number graph.now c }
    ensures { IfOk result (λ v. AreNames graph.now v.items) }
{
    let mut names = Vec::new(alloc);
    for c in 0..graph.component_count() {
        let name = if graph.is_cycle(c) {
            name_of(alloc, numbers[c as usize])?
        } else {
            Vec::new(alloc)
        };
        names.push(name)?;
    }
    Ok(names)
}
